// The day log (document 01, 'What goes out'; document 02, §5): a record of one line, as it was received, and the link that it came by, written and read
// back. Any bytes up to a line's limit are taken; whether they read as a line isn't asked.
#![tactic(auto)]

mod faults;

ghost use Rattle.std.specs.Prelude.{◌≡◌};
ghost use Rattle.refusal.specs.Rules.{emitted};
ghost use Rattle.octets.specs.Room.{front};
ghost use Rattle.journal.specs.Journal.{log_rules, record_of, logged_answer};
ghost use Rattle.journal.specs.Reading.{record_limit, read_answer, read_by};
ghost use Rattle.journal.specs.Private.Logged.{logged_by};

use faults::{byte_at, check_record, length_in};
use links::Links;
use message::{LINE_LIMIT, Span};
use octets::{part, put};
use refusal::{ACCEPTED, Fault, Refusal, number};

// The bytes of a record before its line: mark, link and length.
pub const HEAD: usize = 5;

// The most bytes of a record. What is read at a place of a log depends on no more of it.
pub const RECORD_LIMIT: usize = HEAD + LINE_LIMIT;

// The two bytes of the mark.
pub(crate) const FIRST_MARK: u8 = 73;

pub(crate) const SECOND_MARK: u8 = 82;

// The number of a refusal, or ACCEPTED, and the size of the record.
// Kept (1): it is what C's relay_log answers.
#[repr(C)]
#[derive(Clone, Copy)]
pub struct Logged {
    pub number: u8,
    pub size: usize,
}

// An answer as C gets it.
impl From<Result<usize, Refusal>> for Logged {
    ghost from_gives = { λ answer logged. logged ≡ logged_by answer };

    fn from(answer: Result<usize, Refusal>) -> Logged {
        Logged {
            number: number(&answer),
            size: answer.unwrap_or(0),
        }
    }
}

// Writes the record of a line, received by a link, to the front of the log.
pub fn write_record(link: u32, line: &[u8], log: &mut [u8]) -> Logged
    ensures answer { result ≡ logged_answer link line.now log.old }
    ensures log { log.new ≡ front (emitted (log_rules link line.now log.old) (record_of link line.now)) log.old }
{
    put_record(link, line, log).into()
}

// The same, with the size of the record as the answer.
#[tactic(auto, unfolding(crate::specs::Journal::log_rules, crate::specs::Journal::logged_answer, crate::specs::Journal::record_of, crate::specs::Journal::head_of, refusal::specs::Rules::first_of, refusal::specs::Rules::emitted))]
fn put_record(link: u32, line: &[u8], log: &mut [u8]) -> Result<usize, Refusal>
    ensures answer { logged_by result ≡ logged_answer link line.now log.old }
    ensures log { log.new ≡ front (emitted (log_rules link line.now log.old) (record_of link line.now)) log.old }
{
    if Links::COUNT <= link {
        return Err(Refusal::BadLink);
    }
    if LINE_LIMIT < line.len() {
        return Err(Refusal::LineTooLong);
    }
    let size = HEAD + line.len();
    if log.len() < size {
        return Err(Refusal::NoRoom);
    }
    let [high, low] = (line.len() as u16).to_be_bytes();
    put(log, 0, &[FIRST_MARK, SECOND_MARK, link as u8, high, low]);
    put(log, HEAD, line);
    Ok(size)
}

// A line that was logged, as a part of the log, and the link that it came by. The next record begins behind it.
#[derive(Clone, Copy)]
pub struct LoggedLine {
    pub line: Span,
    pub link: u32,
}

// What stands at a place of a log. A record: the link, and the part of the log that is the line, behind which the next record begins. Else, by the number, the
// log's end or a fault, with the place of the first byte at fault. What isn't told of is zero.
// Kept (1): it is what C's relay_read_record answers.
#[repr(C)]
#[derive(Clone, Copy)]
pub struct RecordRead {
    pub line: Span,
    pub place: usize,
    pub link: u32,
    pub number: u8,
    pub found: bool,
}

// An answer as C gets it.
impl From<Result<Option<LoggedLine>, Fault>> for RecordRead {
    ghost from_gives = { λ answer read. read ≡ read_by answer };

    fn from(answer: Result<Option<LoggedLine>, Fault>) -> RecordRead {
        match answer {
            Ok(Some(LoggedLine { line, link })) => RecordRead {
                line,
                place: 0,
                link,
                number: ACCEPTED,
                found: true,
            },
            Ok(None) => RecordRead {
                line: Span { start: 0, end: 0 },
                place: 0,
                link: 0,
                number: ACCEPTED,
                found: false,
            },
            Err(fault) => RecordRead {
                line: Span { start: 0, end: 0 },
                place: fault.place,
                link: 0,
                number: fault.refusal.number(),
                found: false,
            },
        }
    }
}

// Reads what stands at a place of the log; a place past the end is the end. No more than RECORD_LIMIT bytes from there are looked at, so a log can be read in
// pieces: but for the end and LogCut, which come where a piece ends, more bytes behind it change no answer.
pub fn read_record(log: &[u8], at: usize) -> RecordRead
    ensures answer { result ≡ read_answer log.now at }
    ensures limit { RECORD_LIMIT ≡ record_limit }
{
    record_at(log, at).into()
}

// The same: a record, the log's end, or a fault with the place of the first byte at fault.
#[tactic(auto, using(crate::proofs::Answers::reading))]
pub fn record_at(log: &[u8], at: usize) -> Result<Option<LoggedLine>, Fault>
    ensures { read_by result ≡ read_answer log.now at }
{
    let s = part(log, at, log.len());
    if s.is_empty() {
        return Ok(None);
    }
    if let Err(fault) = check_record(s) {
        return Err(fault.refusal.at(at + fault.place));
    }
    let start = at + HEAD;
    let line = Span {
        start,
        end: start + length_in(s),
    };
    let link = u32::from(byte_at(s, 2));
    Ok(Some(LoggedLine { line, link }))
}
