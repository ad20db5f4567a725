// The bytes of a record's head, of which some may be missing, and what is wrong with them.
ghost use Rattle.std.specs.Prelude.{◌≡◌, ◌<◌, get_or};
ghost use Rattle.journal.specs.Journal.{length_in};
ghost use Rattle.refusal.specs.Faults.{first_fault};
ghost use Rattle.refusal.specs.Refusals.{told_fault};
ghost use Rattle.journal.specs.Reading.{is_other, is_link_above, is_length_over, checks_of};

use crate::{FIRST_MARK, HEAD, SECOND_MARK};
use links::Links;
use message::LINE_LIMIT;
use refusal::{Fault, Refusal};

// The byte in a place, or 0 where there is none.
pub(crate) fn byte_at(s: &[u8], k: usize) -> u8
    ensures { result ≡ get_or s.now k 0 }
{
    s.get(k).copied().unwrap_or(0)
}

// The length of the line, by the head: two bytes, the high one first.
pub(crate) fn length_in(s: &[u8]) -> usize
    ensures value { result ≡ length_in s.now }
    ensures upper_bound { result < 65536 }
{
    usize::from(u16::from_be_bytes([byte_at(s, 3), byte_at(s, 4)]))
}

// Whether there is a byte in a place, and it isn't b.
fn is_other(s: &[u8], k: usize, b: u8) -> bool
    ensures { result ≡ is_other s.now k b }
{
    s.get(k).is_some_and(|x| *x != b)
}

// Whether the link is there, and above 31.
fn is_link_above(s: &[u8]) -> bool
    ensures { result ≡ is_link_above s.now }
{
    s.get(2).is_some_and(|x| Links::COUNT <= u32::from(*x))
}

// Whether both bytes of the length are there, and it is over 512.
fn is_length_over(s: &[u8]) -> bool
    ensures { result ≡ is_length_over s.now }
{
    4 < s.len() && LINE_LIMIT < length_in(s)
}

// The first fault of the bytes as a record's, which may end anywhere.
#[tactic(auto, unfolding(crate::specs::Reading::checks_of, refusal::specs::Faults::first_fault))]
pub(crate) fn check_record(s: &[u8]) -> Result<(), Fault>
    ensures { told_fault result ≡ first_fault (checks_of s.now) }
{
    if is_other(s, 0, FIRST_MARK) {
        return Err(Refusal::NoMark.at(0));
    }
    if is_other(s, 1, SECOND_MARK) {
        return Err(Refusal::NoMark.at(1));
    }
    if is_link_above(s) {
        return Err(Refusal::BadLogLink.at(2));
    }
    if is_length_over(s) {
        return Err(Refusal::BadLogLength.at(3));
    }
    if s.len() < HEAD + length_in(s) {
        return Err(Refusal::LogCut.at(s.len()));
    }
    Ok(())
}
