// The feeder (document 02, §1): bytes as the radio gives them, however they are cut, made into lines. LF ends a line. A state keeps the bytes of an unfinished
// line; a line with a 513th byte is refused once, by LineTooLong, and dropped up to and with its LF. A caller has a state for each link, and calls `feed` with
// what came until it is used up.
#![tactic(auto)]

ghost use Rattle.std.specs.Prelude.{◌≡◌, [], ◌++◌, ◌+◌, ◌≤◌, length};
ghost use Rattle.refusal.specs.Refusals.{answered};
ghost use Rattle.laws.specs.Lists.{padded};
ghost use Rattle.message.specs.Grammar.{line_limit};
ghost use Rattle.feed.specs.Lines.{Unfinished, Dropping, nothing};
ghost use Rattle.feed.specs.Feeder.{state_of, is_reached, fed, answer_to, feed_answer};
ghost use Rattle.feed.specs.Private.Gathering.{is_clean, KeepsLine, held_bytes};

use message::LINE_LIMIT;
use octets::{Class, all_in, part, place_of, zero_from};
use refusal::{Refusal, number};

// What is kept of the line under way: the bytes of an unfinished line, unused room zero; or none, where the line is too long and is dropped up to and with its LF.
// Kept (6): C's struct.
#[repr(C)]
#[derive(Clone, Copy)]
pub struct Feeder {
    pub bytes: [u8; LINE_LIMIT],
    pub len: usize,
    pub dropping: bool,
}

// The answer to a call: the state after it, how many of the bytes were used, and what was yielded. A line, unused room zero, where its length isn't 0;
// the number of LineTooLong, where a line is too long; or nothing. That of NotWellFormed: no bytes reach the state, and it is as given.
// Kept (1, 6): C's struct.
#[repr(C)]
#[derive(Clone, Copy)]
pub struct Fed {
    pub state: Feeder,
    pub used: usize,
    pub line: [u8; LINE_LIMIT],
    pub len: usize,
    pub number: u8,
}

impl Feeder {
    // No byte of a line has come.
    pub fn empty() -> Feeder
        ensures { result ≡ state_of nothing }
    {
        Feeder {
            bytes: [0u8; LINE_LIMIT],
            len: 0,
            dropping: false,
        }
    }

    // A line that is too long, and dropped.
    fn dropping() -> Feeder
        ensures { result ≡ state_of Dropping }
    {
        Feeder {
            dropping: true,
            ..Feeder::empty()
        }
    }

    // Whether the bytes in use hold no LF, and the others are zero.
    fn is_clean(&self) -> bool
        ensures { result ≡ is_clean self.now.bytes self.now.len }
    {
        all_in(part(&self.bytes, 0, self.len), Class::NonLf) && zero_from(&self.bytes, self.len)
    }

    // The bytes of an unfinished line with more behind them, which fit.
    fn extended(&self, more: &[u8]) -> [u8; LINE_LIMIT]
        requires { KeepsLine self.now × (self.now.len + length more.now ≤ line_limit) }
        ensures { result ≡ padded line_limit 0 (held_bytes self.now ++ more.now) }
    {
        let mut bytes = self.bytes;
        bytes[self.len..self.len + more.len()].copy_from_slice(more);
        bytes
    }

    // The answer to bytes behind an unfinished line. No more of them are looked at than the line has room for, and one.
    fn gather(&self, bytes: &[u8]) -> Fed
        requires { KeepsLine self.now }
        ensures { result ≡ answer_to (Unfinished (held_bytes self.now)) bytes.now }
    {
        let room = LINE_LIMIT - self.len;
        let looked = bytes.len().min(room + 1);
        let ahead = &bytes[..looked];
        let found = place_of(ahead, b'\n');
        if found == looked {
            if room < looked {
                return Fed::unlined(Feeder::dropping(), looked, Err(Refusal::LineTooLong));
            }
            let kept = Feeder {
                bytes: self.extended(ahead),
                len: self.len + looked,
                dropping: false,
            };
            return Fed::unlined(kept, looked, Ok(()));
        }
        let used = found + 1;
        let too_long = room < used;
        if too_long {
            return Fed::unlined(Feeder::empty(), used, Err(Refusal::LineTooLong));
        }
        let line = self.extended(&ahead[..used]);
        Fed {
            line,
            len: self.len + used,
            ..Fed::unlined(Feeder::empty(), used, Ok(()))
        }
    }
}

impl Fed {
    // The answer that has no line.
    fn unlined(state: Feeder, used: usize, answer: Result<(), Refusal>) -> Fed
        ensures { result ≡ fed state used [] (answered answer) }
    {
        Fed {
            state,
            used,
            line: [0u8; LINE_LIMIT],
            len: 0,
            number: number(&answer),
        }
    }
}

// Whether some bytes reach the state from the empty one.
#[tactic(auto, unfolding(crate::specs::Feeder::is_reached, crate::specs::Feeder::reached_tests, laws::specs::Lists::all))]
pub fn is_reached(state: Feeder) -> bool
    ensures { result ≡ is_reached state }
{
    state.len <= LINE_LIMIT && state.is_clean() && (!state.dropping || state.len == 0)
}

// Takes bytes up to and with the first that yields something, else all of them. What is left of a line that is dropped yields nothing more, so what stands behind
// its LF is gathered by the same call.
pub fn feed(state: Feeder, bytes: &[u8]) -> Fed
    ensures { result ≡ feed_answer state bytes.now }
{
    if !is_reached(state) {
        return Fed::unlined(state, 0, Err(Refusal::NotWellFormed));
    }
    if !state.dropping {
        return state.gather(bytes);
    }
    let end = place_of(bytes, b'\n');
    if end == bytes.len() {
        return Fed::unlined(state, end, Ok(()));
    }
    let behind = end + 1;
    let fed = Feeder::empty().gather(&bytes[behind..]);
    Fed {
        used: behind + fed.used,
        ..fed
    }
}
