// Replaying a day log (document 02, §5): its records taken in order into an empty table with all 32 links registered. The log comes in pieces of any size; what
// of a piece isn't used belongs before the next one, and the place of a piece in the log is the caller's to add.
#![tactic(auto)]

ghost use Rattle.std.specs.Prelude.{◌≡◌, drop};
ghost use Rattle.table.specs.Network.{head_of, table_with};
ghost use Rattle.journal.specs.Reading.{read_answer, read_by};
ghost use Rattle.replay.specs.Replay.{ready_table, replay_from, replay_answer, replayed_of, replayed_by};
ghost use Rattle.replay.specs.Private.Stopping.{read_on, come_to};

use bans::BanList;
use journal::{LoggedLine, record_at};
use links::Links;
use message::LINE_LIMIT;
use octets::part;
use refusal::{Fault, Refusal};
use relay::take;
use table::Head;

// The head after; how many bytes of the piece are records that were taken; and what stopped the replay, if anything did, with its place in the piece.
#[derive(Clone, Copy)]
pub struct Replayed {
    pub head: Head,
    pub used: usize,
    pub stopped: Result<(), Fault>,
}

// The table that a replay begins with: every slot free, and all links registered. Every byte of the lists is made zero.
#[tactic(auto, unfolding(crate::specs::Replay::ready_table, table::specs::Table::empty_table))]
pub fn start(bans: &mut [u8; BanList::BANS]) -> Head
    ensures answer { result ≡ head_of ready_table }
    ensures lists { bans.new ≡ ready_table.bans }
{
    let empty = Head::empty(bans);
    let slots = empty.slots;
    Head {
        slots,
        links: Links::all(),
    }
}

// The record that stands at a place, if one does. That one is cut there is no fault where the log goes on.
#[tactic(auto, using(crate::proofs::Cuts::cuts), unfolding(crate::specs::Private::Stopping::read_on))]
fn next(log: &[u8], at: usize, last: bool) -> Result<Option<LoggedLine>, Fault>
    ensures { read_by result ≡ read_on last (read_answer log.now at) }
{
    match record_at(log, at) {
        Err(fault) if !last && fault.refusal == Refusal::LogCut => Ok(None),
        read => read,
    }
}

// Takes the records of a piece of the log, from a place on. What would go out isn't kept. The place is then that behind the last one that was taken.
fn take_all(
    head: &mut Head,
    bans: &mut [u8; BanList::BANS],
    log: &[u8],
    last: bool,
    at: &mut usize,
) -> Result<(), Fault>
    ensures { come_to head.new bans.new at.new result ≡ replay_from last (table_with head.old bans.old) at.old (drop at.old log.now) }
{
    while let Some(record) = next(log, *at, last)? {
        let line = part(log, record.line.start, record.line.end);
        if let Err(fault) = take(head, bans, record.link, line, &mut [0; LINE_LIMIT]) {
            return Err(fault.refusal.at(*at));
        }
        *at = record.line.end;
    }
    Ok(())
}

// Takes the records of a piece of the log, from its beginning on, into a table that holds what came before. `last` says that the log ends with the piece.
pub fn replay(t: Head, bans: &mut [u8; BanList::BANS], log: &[u8], last: bool) -> Replayed
    ensures answer { replayed_by result ≡ replayed_of (replay_answer (table_with t bans.old) log.now last) }
    ensures lists { bans.new ≡ (replay_answer (table_with t bans.old) log.now last).table.bans }
{
    let mut head = t;
    let mut used = 0;
    let stopped = take_all(&mut head, bans, log, last, &mut used);
    Replayed {
        head,
        used,
        stopped,
    }
}
