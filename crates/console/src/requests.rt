// What an input line asks for.
ghost use Rattle.std.specs.Prelude.{◌≡◌, cond, ◌≤◌, length};
ghost use Rattle.laws.specs.Lists.{is_nil};
ghost use Rattle.console.specs.declared.requests.Request.TheVariants.{Channels, Unknown};
ghost use Rattle.console.specs.Requests.{ended as ended_of, link_in as link_of, taking_in, banned_length, question_in, worded_in, request_in, line_from, name_in, text_in};
ghost use Rattle.console.specs.Typing.{typed, typed_in};
ghost use Rattle.console.specs.Lines.{held_in};

use crate::lines::{INPUT_LIMIT, Pending, ends_in_lf};
use arrayvec::ArrayVec;
use octets::decimals::decimal;
use octets::{part, place_of};

// The largest number that nine digits write.
const LINK_LIMIT: u32 = 999999999;

// The most bytes that are taken of a link's line: one more than the relay takes.
const TAKEN: usize = 513;

// The bytes before the name that is asked about: `banned` and a SPACE.
const ASKING: usize = 7;

// The most bytes of a name that is asked about. It is far more than a name has, and less than is kept of an input line.
const NAME_ROOM: usize = 512;

// Room for a line that was typed: two bytes more than are kept of it.
const TYPED: usize = INPUT_LIMIT + 2;

// What is asked, and of which link. The line that came from a link stands in the input line, from its start on; of a question, the name ends at one
// place, and the text begins at the other. Only a line that was typed asks for help, or for nothing.
#[derive(Clone, Copy)]
pub(crate) enum Request {
    Register(u32),
    Unregister(u32),
    Take { link: u32, start: usize },
    Banned { end: usize, start: usize },
    Channels,
    Unknown,
    Help,
    Nothing,
}

// The bytes before LF, or before CR LF; all of them where there is no LF at the end.
#[tactic(auto, unfolding(crate::specs::Requests::ended))]
fn ended(s: &[u8]) -> &[u8]
    ensures { result.now ≡ ended_of s.now }
{
    match s {
        [line @ .., b'\r', b'\n'] => line,
        [line @ .., b'\n'] => line,
        _ => s,
    }
}

// A link's number in decimal, without leading zeros, at most nine digits.
fn link_in(text: &[u8]) -> Option<u32>
    ensures { result ≡ link_of text.now }
{
    decimal(text, LINK_LIMIT)
}

// The table is asked for by '?' alone.
fn listing(text: &[u8]) -> Request
    ensures { result ≡ cond (is_nil text.now) Channels Unknown }
{
    match text {
        [] => Request::Channels,
        _ => Request::Unknown,
    }
}

// A link's number and a SPACE, and the link's line behind them.
fn taking(input: &[u8]) -> Request
    ensures { result ≡ taking_in input.now }
{
    let end = place_of(input, b' ');
    if end == input.len() {
        return Request::Unknown;
    }
    match link_in(&input[..end]) {
        Some(link) => Request::Take {
            link,
            start: end + 1,
        },
        None => Request::Unknown,
    }
}

// Behind `banned` and a SPACE, a name, a SPACE, and a text.
fn asking(input: &[u8]) -> Request
    requires { banned_length ≤ length input.now }
    ensures { result ≡ question_in input.now }
{
    let behind = &input[ASKING..];
    let n = place_of(behind, b' ');
    if n == behind.len() || NAME_ROOM < n {
        return Request::Unknown;
    }
    Request::Banned {
        end: ASKING + n,
        start: ASKING + n + 1,
    }
}

// A question about a ban, or a link's line.
fn worded(input: &[u8]) -> Request
    ensures { result ≡ worded_in input.now }
{
    if input.starts_with(b"banned ") {
        asking(input)
    } else {
        taking(input)
    }
}

// What the input line asks for.
#[tactic(auto, unfolding(crate::specs::Requests::request_in))]
pub(crate) fn request_in(input: &[u8]) -> Request
    ensures { result ≡ request_in input.now }
{
    match input {
        [] => Request::Unknown,
        [b'+', rest @ ..] => link_in(ended(rest)).map_or(Request::Unknown, Request::Register),
        [b'-', rest @ ..] => link_in(ended(rest)).map_or(Request::Unknown, Request::Unregister),
        [b'?', rest @ ..] => listing(ended(rest)),
        _ => worded(input),
    }
}

// The line that came from a link, which stands in the input line from a place on: of a longer one the first bytes, which are one more than the relay takes.
pub(crate) fn line_from(input: &[u8], start: usize) -> &[u8]
    ensures { result.now ≡ line_from start input.now }
{
    part(part(input, start, input.len()), 0, TAKEN)
}

// The name that is asked about, which ends at a place.
pub(crate) fn name_in(input: &[u8], end: usize) -> &[u8]
    ensures { result.now ≡ name_in end input.now }
{
    part(input, ASKING, end)
}

// The text that is asked about, which begins at a place, without the end of the line.
pub(crate) fn text_in(input: &[u8], start: usize) -> &[u8]
    ensures { result.now ≡ text_in start input.now }
{
    ended(part(input, start, input.len()))
}

// A line as it is taken that was typed: with CR LF, where it ends with LF.
#[tactic(auto, using(crate::proofs::Typing::ended_in), unfolding(crate::specs::Typing::typed))]
pub(crate) fn typed(line: &Pending) -> ArrayVec<u8, TYPED>
    ensures { result.items ≡ typed (held_in line.now) }
{
    let input = line.bytes();
    let mut text = ArrayVec::new();
    if ends_in_lf(input) {
        let _ = text.try_extend_from_slice(ended(input));
        let _ = text.try_extend_from_slice(b"\r\n");
    } else {
        let _ = text.try_extend_from_slice(input);
    }
    text
}

// What a line asks for that was typed.
pub(crate) fn typed_request(input: &[u8]) -> Request
    ensures { result ≡ typed_in input.now }
{
    let text = ended(input);
    if text.is_empty() {
        Request::Nothing
    } else if text == b"help".as_slice() {
        Request::Help
    } else {
        request_in(input)
    }
}
