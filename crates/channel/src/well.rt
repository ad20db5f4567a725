// The tests of a well-formed record, each of the part that it judges.
ghost use Rattle.std.specs.Prelude.{◌≡◌, ◌&&◌, leb};
ghost use Rattle.laws.specs.Lists.{all};
ghost use Rattle.octets.specs.Bytes.{is_zero};
ghost use Rattle.octets.specs.Order.{compare, is_less};
ghost use Rattle.names.specs.Names.{is_channel};
ghost use Rattle.ascending.specs.Ascending.{ascends};
ghost use Rattle.channel.specs.Channel.{by_id};
ghost use Rattle.channel.specs.Record.{decode};
ghost use Rattle.channel.specs.WellFormed.{is_vacant, good_time, good_key, good_limit, good_settings, good_member, in_room as in_room_of};

use crate::key::is_key;
use crate::modes::{KEY_MODE, LIMIT_MODE, has_mode};
use crate::{Member, Record};
use names::ids::is_id;
use names::is_channel;

// The most that a status can be.
const BOTH: u8 = Member::VOICE + Member::OPERATOR;

impl Member {
    // The bits of its bytes, joined by or, each byte's in a place of its own, the status last, so that eight are read at once: none exactly if its place is unused.
    fn bits(self) -> u64
        ensures { is_zero result ≡ is_vacant self }
    {
        let mut bits = 0;
        for (i, b) in self.id.iter().enumerate() {
            bits |= u64::from(*b) << (8 * (i % 8));
        }
        bits | u64::from(self.status)
    }

    // Whether it is a user id with a status that there is.
    #[tactic(auto, unfolding(crate::specs::WellFormed::good_member))]
    fn is_good(self) -> bool
        ensures { result ≡ good_member self }
    {
        is_id(self.id) && self.status <= BOTH
    }
}

impl Record {
    // Whether there is a member, and what is in use keeps to its room.
    #[tactic(auto, unfolding(crate::specs::WellFormed::in_room))]
    pub(crate) fn is_in_room(&self) -> bool
        ensures { result ≡ leb 1 self.now.count && in_room_of self.now }
    {
        self.count != 0
            && self.name_len <= Record::NAME
            && self.key_len <= Record::KEY
            && self.count <= Record::MEMBERS
    }

    // Whether name, time, modes, key and limit are a channel's.
    #[tactic(auto, unfolding(crate::specs::WellFormed::good_time, crate::specs::WellFormed::good_settings, crate::specs::Record::decode))]
    pub(crate) fn has_good_head(&self) -> bool
        ensures { result ≡ is_channel (decode self.now).name && (good_time (decode self.now).time && good_settings (decode self.now).settings) }
    {
        is_channel(self.name())
            && self.time != 0
            && good_key(self.modes, self.key())
            && good_limit(self.modes, self.limit)
    }
}

// Whether there is a key exactly with the mode k, and a good one.
fn good_key(modes: u8, key: &[u8]) -> bool
    ensures { result ≡ good_key modes key.now }
{
    if has_mode(modes, KEY_MODE) {
        is_key(key)
    } else {
        key.is_empty()
    }
}

// Whether there is a limit exactly with the mode l.
#[tactic(auto, unfolding(crate::specs::WellFormed::good_limit))]
fn good_limit(modes: u8, limit: u16) -> bool
    ensures { result ≡ good_limit modes limit }
{
    has_mode(modes, LIMIT_MODE) == (limit != 0)
}

// Whether all of the places are unused: an or over their bytes, and one test.
pub(crate) fn are_vacant(places: &[Member]) -> bool
    ensures { result ≡ all is_vacant places.now }
{
    let mut bits = 0;
    for m in places {
        bits |= m.bits();
    }
    bits == 0
}

// Whether they are members with ids that ascend.
pub(crate) fn are_members(list: &[Member]) -> bool
    ensures { result ≡ all good_member list.now && ascends by_id list.now }
{
    list.iter().all(|m| m.is_good()) && list.is_sorted_by(|m, next| m.is_below(*next))
}
