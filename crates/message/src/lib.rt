// Reads one line of the server protocol (RFC 1459, section 2.3.1; document 01, 'Reading one line'; the fifteenth parameter as in RFC 2812, document 02, §7): prefix,
// command and parameters, each as a part of the caller's line. Any bytes are taken; a line that isn't read is refused by a number of crate `refusal`.
#![tactic(auto)]

pub mod lists;
mod scan;
pub mod spans;

ghost use Rattle.std.specs.Prelude.{◌≡◌, ◌&&◌, [], eqb, length, get_or};
ghost use Rattle.std.proofs.Math.Option;
ghost use Rattle.octets.specs.Room.{place_in};
ghost use Rattle.message.specs.Grammar.{is_command};
ghost use Rattle.message.specs.Parts.{empty_at, blank};
ghost use Rattle.message.specs.Reading.{count_of, number_for, reading_of, content_of, message_of, parsed_of, reading_as, parsed_as};
ghost use Rattle.message.specs.Words.{words_of, next_word};
ghost use Rattle.message.specs.Listed.{words_left};
ghost use Rattle.message.specs.Private.Scan.{body_parsed};
ghost use Rattle.refusal.specs.Refusals.{answered};

use lists::Words;
use octets::{Class, all_in, part};
use refusal::Refusal;
use scan::{message_in, spaces_end, word_end};
use spans::{command_in, param_in, prefix_in};

// The most bytes of a line, CR LF counted.
pub const LINE_LIMIT: usize = 512;

// The most parameters of a line.
pub const PARAM_LIMIT: usize = 15;

// The most middles of a line: all that remains after them is one parameter, the fifteenth.
pub const MIDDLE_LIMIT: usize = 14;

// A part of a line: the bytes from start up to, not including, end.
#[repr(C)]
#[derive(Clone, Copy)]
pub struct Span {
    pub start: usize,
    pub end: usize,
}

// A message as parts of a text: of a line that was read, or of one that is to be written. The spans past `count`, and that of the
// prefix where there is none, are no parts.
#[repr(C)]
#[derive(Clone, Copy)]
pub struct Message {
    pub has_prefix: bool,
    pub prefix: Span,
    pub command: Span,
    pub count: usize,
    pub params: [Span; PARAM_LIMIT],
}

impl Message {
    // No part at all, of a line of `end` bytes.
    fn blank(end: usize) -> Message
        ensures { result ≡ blank end }
    {
        let none = Span { start: end, end };
        Message {
            has_prefix: false,
            prefix: none,
            command: none,
            count: 0,
            params: [none; PARAM_LIMIT],
        }
    }

    // Whether a prefix is there and empty.
    fn has_empty_prefix(&self) -> bool
        ensures { result ≡ (self.now.has_prefix && eqb self.now.prefix.start self.now.prefix.end) }
    {
        self.has_prefix && self.prefix.start == self.prefix.end
    }
}

// One or more letters, or exactly three digits.
#[tactic(auto, unfolding(crate::specs::Grammar::is_command))]
pub fn is_command(word: &[u8]) -> bool
    ensures { result ≡ is_command word.now }
{
    (!word.is_empty() && all_in(word, Class::Letter))
        || (word.len() == 3 && all_in(word, Class::Digit))
}

// What a line of n bytes comes to by the bytes before CR LF, which are some.
fn parse_body(body: &[u8], n: usize) -> Result<Message, Refusal>
    ensures { parsed_as n result ≡ body_parsed body.now n }
{
    let message = message_in(body, n);
    if message.has_empty_prefix() {
        return Err(Refusal::EmptyPrefix);
    }
    if !is_command(command_in(body, message)) {
        return Err(Refusal::BadCommand);
    }
    Ok(message)
}

// The parts of the line, from one scan; or why it isn't read. A part that is missing is the empty one at the line's end.
pub fn parse(line: &[u8]) -> Result<Message, Refusal>
    ensures parsed { parsed_as (length line.now) result ≡ parsed_of line.now }
    ensures number { answered result ≡ number_for line.now }
    ensures count { count_of (parsed_as (length line.now) result).reading ≡ length (content_of line.now).params }
{
    if LINE_LIMIT < line.len() {
        return Err(Refusal::LineTooLong);
    }
    let Some(body) = line.strip_suffix(b"\r\n") else {
        return Err(Refusal::NoLineEnd);
    };
    if !all_in(body, Class::Plain) {
        return Err(Refusal::ForbiddenByte);
    }
    if body.is_empty() {
        return Err(Refusal::EmptyLine);
    }
    parse_body(body, line.len())
}

// The count of the line's parameters, or why it isn't read.
pub fn read(line: &[u8]) -> Result<usize, Refusal>
    ensures reading { reading_as result ≡ reading_of line.now }
    ensures number { answered result ≡ number_for line.now }
    ensures count { count_of (reading_as result) ≡ length (content_of line.now).params }
{
    let message = parse(line)?;
    Ok(message.count)
}

// The parts of the line. A part that is missing, and every part of a line that isn't read, is the empty one at the line's end.
pub fn parts(line: &[u8]) -> Message
    ensures { result ≡ message_of line.now }
{
    parse(line).unwrap_or_else(|_| Message::blank(line.len()))
}

// The prefix, or the empty part at the line's end.
pub fn prefix(line: &[u8]) -> &[u8]
    ensures bytes { result.now ≡ Option.get_or (content_of line.now).prefix [] }
    ensures place { result.ref_ptr ≡ place_in line.entry (message_of line.now).prefix.start }
{
    prefix_in(line, parts(line))
}

// The command, or of a line that isn't read the empty part at the line's end.
pub fn command(line: &[u8]) -> &[u8]
    ensures bytes { result.now ≡ (content_of line.now).command }
    ensures place { result.ref_ptr ≡ place_in line.entry (message_of line.now).command.start }
{
    command_in(line, parts(line))
}

// The parameter k, counted from 0, or the empty part at the line's end.
pub fn param(line: &[u8], k: usize) -> &[u8]
    ensures bytes { result.now ≡ get_or (content_of line.now).params k [] }
    ensures place { result.ref_ptr ≡ place_in line.entry (get_or (message_of line.now).params k (empty_at (length line.now))).start }
{
    param_in(line, parts(line), k)
}

// The words of a text, in their order: they are parted by one or more SPACEs, and SPACEs at either end are passed over.
pub fn words(s: &[u8]) -> Words<'_>
    ensures { words_left result ≡ words_of s.now }
{
    Words { rest: s }
}

// The first word at a place or after it: words are parted by one or more SPACEs, and SPACEs at either end are passed over. Where there is none, the
// empty part at the end.
pub fn next_word(s: &[u8], at: usize) -> Span
    ensures { result ≡ next_word s.now at }
{
    let n = s.len();
    if n <= at {
        return Span { start: n, end: n };
    }
    let start = spaces_end(s, at);
    let end = word_end(s, start);
    Span { start, end }
}
