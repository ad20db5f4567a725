// The customer's demands over the whole relay: predicates of any taking of lines and any merging of records in specs/, theorems in proofs/. The two functions
// here are the relay's own, under the definitions that the demands speak of: so what is proved of specs/Ours.antt is proved of the code.
#![tactic(auto)]

ghost use Rattle.std.specs.Prelude.{◌≡◌};
ghost use Rattle.table.specs.Network.{table_with};
ghost use Rattle.relay.specs.Arrival.{arrival};
ghost use Rattle.relay.specs.Relay.{taken_of};
ghost use Rattle.convergence.specs.Ours.{ours, our_merging};

use bans::{BanList, WholeRecord};
use merging::Merged;
use relay::Taken;
use table::Head;

// Takes a line that came from a link.
pub fn taking(
    t: Head,
    bans: &mut [u8; BanList::BANS],
    link: u32,
    line: &[u8],
    out: &mut [u8],
) -> Taken
    ensures answer { result ≡ taken_of (ours (table_with t bans.old) (arrival link line.now) out.old).0 }
    ensures lists { bans.new ≡ (ours (table_with t bans.old) (arrival link line.now) out.old).0.table.bans }
    ensures output { out.new ≡ (ours (table_with t bans.old) (arrival link line.now) out.old).1 }
{
    relay::process(t, bans, link, line, out)
}

// Merges two records of one channel, with their ban lists.
pub fn merging(a: WholeRecord, b: WholeRecord) -> Merged
    ensures { result ≡ our_merging a b }
{
    merging::merge(a, b)
}
