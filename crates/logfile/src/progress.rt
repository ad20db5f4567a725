// A log replayed piece by piece: how far it has got, and what is left of the last piece.
ghost use Rattle.std.specs.Prelude.{◌≡◌, [], ◌++◌, ◌≤◌, length};
ghost use Rattle.refusal.specs.Refusals.{fault_place};
ghost use Rattle.replay.specs.Replay.{replayed_by};
ghost use Rattle.logfile.specs.Files.{replay_in};
ghost use Rattle.logfile.specs.Private.Progress.{piece_limit, room, place_limit, left_in, placed, comes_to, Begins, Moves};

use crate::FileReplay;
use arrayvec::ArrayVec;
use bans::BanList;
use journal::RECORD_LIMIT;
use refusal::ACCEPTED;
use replay::{Replayed, replay, start};
use std::ops::ControlFlow;
use table::Head;

// The most bytes of a piece.
pub(crate) const PIECE: usize = 4096;

// Room for a piece, behind what is left of the one before.
const ROOM: usize = RECORD_LIMIT + PIECE;

// The table's head so far, its ban lists being lent; and what is left of the last piece, with its place in the log.
#[derive(Drop)]
pub(crate) struct Progress {
    head: Head,
    left: ArrayVec<u8, RECORD_LIMIT>,
    at: u64,
}

// What a replay of the bytes from a place on has come to.
#[tactic(auto, using(crate::proofs::Stopping::stopped))]
fn placed(r: Replayed, at: u64) -> FileReplay
    requires { (at ≤ place_limit) × (r.used ≤ room) × (fault_place r.stopped ≤ room) }
    ensures { result ≡ placed (replayed_by r) at }
{
    let head = r.head;
    let used = at + r.used as u64;
    match r.stopped {
        Ok(()) => FileReplay {
            head,
            used,
            number: ACCEPTED,
            place: 0,
        },
        Err(fault) => FileReplay {
            head,
            used,
            number: fault.refusal.number(),
            place: at + fault.place as u64,
        },
    }
}

impl Progress {
    // Nothing has come of the log.
    pub(crate) fn begin(bans: &mut [u8; BanList::BANS]) -> Progress
        ensures { Begins result bans.new }
    {
        Progress {
            head: start(bans),
            left: ArrayVec::new(),
            at: 0,
        }
    }

    // What is left of the last piece, and the next one behind it.
    fn joined(&self, piece: &[u8]) -> ArrayVec<u8, ROOM>
        requires { length piece.now ≤ piece_limit }
        ensures { result.items ≡ left_in self.now ++ piece.now }
    {
        let mut bytes = ArrayVec::new();
        let _ = bytes.try_extend_from_slice(self.left.as_slice());
        let _ = bytes.try_extend_from_slice(piece);
        bytes
    }

    // Goes on with a piece of the log, which ends the replay where a record is at fault or refused.
    pub(crate) fn go_on(
        &mut self,
        bans: &mut [u8; BanList::BANS],
        piece: &[u8],
    ) -> ControlFlow<FileReplay>
        requires { (self.old.at ≤ place_limit) × (length piece.now ≤ piece_limit) }
        ensures { Moves self.old bans.old piece.now result self.new bans.new }
    {
        let joined = self.joined(piece);
        let bytes = joined.as_slice();
        let r = replay(self.head, bans, bytes, false);
        if r.stopped.is_err() {
            return ControlFlow::Break(placed(r, self.at));
        }
        self.head = r.head;
        self.at += r.used as u64;
        let left = &bytes[r.used..];
        self.left.clear();
        let _ = self.left.try_extend_from_slice(left);
        ControlFlow::Continue(())
    }

    // The log is at its end.
    pub(crate) fn close(&self, bans: &mut [u8; BanList::BANS]) -> FileReplay
        requires { self.now.at ≤ place_limit }
        ensures { replay_in result bans.new ≡ comes_to self.now bans.old [] }
    {
        let r = replay(self.head, bans, self.left.as_slice(), true);
        placed(r, self.at)
    }
}
