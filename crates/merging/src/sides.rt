// What each of two records gives at the earlier of their times: its settings, and its members.
ghost use Rattle.std.specs.Prelude.{◌≡◌, map};
ghost use Rattle.channel.specs.Record.{decode};
ghost use Rattle.channel.specs.Standing.{settings_at, standing};
ghost use Rattle.merging.specs.Private.Sides.{settings_of, members_of, SplitFirst};

use channel::{Member, Record};

// The settings that a record gives.
#[derive(Clone, Copy)]
pub(crate) struct Given<'a> {
    pub(crate) modes: u8,
    pub(crate) key: &'a [u8],
    pub(crate) limit: u16,
}

impl<'a> Given<'a> {
    // Those of a record if the time is its own, and none otherwise.
    #[tactic(auto, unfolding(channel::specs::Standing::settings_at, channel::specs::Standing::counts, channel::specs::Record::decode))]
    pub(crate) fn at(time: u32, r: &'a Record) -> Given<'a>
        ensures { settings_of result ≡ settings_at time (decode r.now) }
    {
        if r.time == time {
            Given {
                modes: r.modes,
                key: r.key(),
                limit: r.limit,
            }
        } else {
            Given {
                modes: 0,
                key: &[],
                limit: 0,
            }
        }
    }
}

// The members that a record gives, and whether with their status.
#[derive(Clone, Copy)]
pub(crate) struct Side<'a> {
    members: &'a [Member],
    counts: bool,
}

impl<'a> Side<'a> {
    // Those of a record, with their status if the time is its own.
    pub(crate) fn at(time: u32, r: &'a Record) -> Side<'a>
        ensures { members_of result ≡ standing time (decode r.now) }
    {
        Side {
            members: r.members(),
            counts: r.time == time,
        }
    }

    // The first member, as it is given, and the side behind it.
    #[tactic(auto, unfolding(crate::specs::Private::Sides::as_given))]
    pub(crate) fn split_first(self) -> Option<(Member, Side<'a>)>
        ensures { SplitFirst self.entry result }
    {
        let (first, members) = self.members.split_first()?;
        let id = first.id;
        let status = if self.counts { first.status } else { 0 };
        Some((Member { id, status }, Side { members, ..self }))
    }
}
