// The scan of a line's body, the bytes before CR LF: prefix, command, and the two rules of the parameters, which call each other.
ghost use Rattle.std.specs.Prelude.{◌≡◌, ◌+◌, ◌≤◌, ◌<◌, length, drop};
ghost use Rattle.message.specs.Grammar.{param_limit, middle_limit, word, spaces, has_prefix as has_prefix_of, rest as rest_of, after_middle};
ghost use Rattle.message.specs.Parts.{span, message_in};
ghost use Rattle.message.specs.Private.Scan.{with_param, with_params, from_command};

use crate::{MIDDLE_LIMIT, Message, Span};

// How many bytes stand before the first SPACE, or how many there are.
fn word_len(s: &[u8]) -> usize
    ensures { result ≡ length (word s.now) }
{
    s.iter().position(|b| *b == b' ').unwrap_or(s.len())
}

// How many SPACEs come first.
fn spaces_len(s: &[u8]) -> usize
    ensures { result ≡ spaces s.now }
{
    s.iter().position(|b| *b != b' ').unwrap_or(s.len())
}

// The place after the word at `at`: the next SPACE or the end.
#[tactic(auto, using(crate::proofs::Runs::word_in))]
pub(crate) fn word_end(body: &[u8], at: usize) -> usize
    requires { at ≤ length body.now }
    ensures { result ≡ at + length (word (drop at body.now)) }
{
    at + word_len(&body[at..])
}

// The place after the SPACEs at `at`.
#[tactic(auto, using(crate::proofs::Runs::spaces_in))]
pub(crate) fn spaces_end(body: &[u8], at: usize) -> usize
    requires { at ≤ length body.now }
    ensures { result ≡ at + spaces (drop at body.now) }
{
    at + spaces_len(&body[at..])
}

impl Message {
    // With one parameter more.
    fn with_param(mut self, start: usize, end: usize) -> Message
        requires { self.count < param_limit }
        ensures { result ≡ with_param self (span start end) }
    {
        self.params[self.count] = Span { start, end };
        self.count += 1;
        self
    }
}

// A run of SPACEs, then nothing, or ':' and a trailing part, or, after the fourteenth middle, all that remains, or a middle. `m` holds the parameters before.
// Kept (3): document 01 names two rules, `rest` and `middle`, that name each other.
#[cycle(middle_rest)]
fn rest(body: &[u8], at: usize, m: Message) -> Message
    requires { (at ≤ length body.now) × (m.count ≤ middle_limit) }
    ensures { result ≡ with_params m (rest_of m.count at (drop at body.now)) }
{
    let start = spaces_end(body, at);
    if start == body.len() {
        return m;
    }
    if body[start] == b':' {
        return m.with_param(start + 1, body.len());
    }
    if m.count == MIDDLE_LIMIT {
        return m.with_param(start, body.len());
    }
    middle(body, start, start + 1, m)
}

// A middle, of which the bytes from `start` up to `at` are read: the bytes up to the next SPACE or the end, then a rest.
#[cycle(middle_rest)]
fn middle(body: &[u8], start: usize, at: usize, m: Message) -> Message
    requires { (at ≤ length body.now) × (m.count < middle_limit) }
    ensures { result ≡ with_params (with_param m (span start (at + length (word (drop at body.now))))) (after_middle (m.count + 1) at (drop at body.now)) }
{
    let stop = word_end(body, at);
    let next = m.with_param(start, stop);
    if stop == body.len() {
        return next;
    }
    rest(body, stop + 1, next)
}

// The parts from the command on, which is the word at `at`, with the prefix that `m` has.
fn from_command(body: &[u8], at: usize, m: Message) -> Message
    requires at { at ≤ length body.now }
    requires none { m.count ≡ 0 }
    ensures { result ≡ from_command body.now at m }
{
    let stop = word_end(body, at);
    let command = Span {
        start: at,
        end: stop,
    };
    rest(body, stop, Message { command, ..m })
}

// The parts of a body. A part that is missing is the empty one at `end`.
pub(crate) fn message_in(body: &[u8], end: usize) -> Message
    ensures { result ≡ message_in body.now end }
{
    let blank = Message::blank(end);
    if !body.starts_with(b":") {
        return from_command(body, 0, blank);
    }
    let stop = word_end(body, 1);
    let prefix = Span {
        start: 1,
        end: stop,
    };
    let prefixed = Message {
        has_prefix: true,
        prefix,
        ..blank
    };
    from_command(body, spaces_end(body, stop), prefixed)
}
