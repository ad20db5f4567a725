// The replay of a day log that is read from a file (document 02, §5), for the programs: piece by piece, so that a log of any size takes the same room.
#![tactic(auto)]

mod failing;
mod progress;

ghost use Rattle.std.specs.Prelude.{◌≡◌, List, ℕ, IfSome, IfErr};
ghost use Rattle.logfile.specs.Failing.{source_why, source_remaining};
ghost use Rattle.logfile.specs.Files.{IsOfLog, OfSomeLog};

use bans::BanList;
pub use failing::{Source, fail};
use progress::{PIECE, Progress};
use std::io;
use std::io::Read;
use std::ops::ControlFlow;
use table::Head;

// The table's head after, all links being registered; the place behind the last record that was taken; the number of what ended the replay, and its place in the log,
// or zeros.
#[derive(Clone, Copy)]
pub struct FileReplay {
    pub head: Head,
    pub used: u64,
    pub number: u8,
    pub place: u64,
}

// The most reads. Places have 64 bits, and no read takes one further than a piece and what was left of the one before: so many reads can't take it past the last.
const TURNS: u64 = 2251799813685248;

// Replays the log that a reader holds which keeps why it failed. Where a read fails there is no answer but why: what came isn't the whole log.
fn replay_source<R: Read>(
    source: &mut Source<R>,
    bans: &mut [u8; BanList::BANS],
) -> io::Result<FileReplay>
    ensures some { OfSomeLog result bans.new }
    ensures known { IfSome (source_remaining R.remaining source.old) (λ log. IsOfLog result bans.new log) }
    ensures why { IfErr result (λ e. source_why source.new ≡ e) }
{
    let mut progress = Progress::begin(bans);
    let mut piece = [0u8; PIECE];
    for _ in 0..TURNS {
        let n = source.read(&mut piece)?;
        if n == 0 {
            return Ok(progress.close(bans));
        }
        if let ControlFlow::Break(answer) = progress.go_on(bans, &piece[..n]) {
            return Ok(answer);
        }
    }
    Err(source.why())
}

// Replays the log that a file holds, from where it stands to its end. Where reading fails, the log wasn't read to its end, and why is all that is said.
pub fn replay_file<R: Read>(file: &mut R, bans: &mut [u8; BanList::BANS]) -> io::Result<FileReplay>
    ensures some { OfSomeLog result bans.new }
    ensures known { IfSome (R.remaining file.old) (λ log. IsOfLog result bans.new log) }
{
    let mut source = Source::new(file);
    replay_source(&mut source, bans)
}
