// The ban lists of two records merged.
ghost use Rattle.std.specs.Prelude.{◌≡◌};
ghost use Rattle.bans.specs.Putting.{added};
ghost use Rattle.merging.specs.Private.Answers.{merged_lists};

use bans::{BanList, unite};
use std::cmp::Ordering;

// The lists of two records, with their times: united at equal times, the first one's spelling kept; else the list of the earlier. None where more masks would
// result than a list has room for.
#[tactic(auto, unfolding(crate::specs::Private::Answers::merged_lists))]
pub(crate) fn merged_list(
    time: u32,
    list: BanList,
    other_time: u32,
    other: BanList,
) -> Option<BanList>
    ensures { added list result ≡ merged_lists time list other_time other }
{
    match time.cmp(&other_time) {
        Ordering::Less => Some(list),
        Ordering::Equal => unite(list, other),
        Ordering::Greater => Some(other),
    }
}
