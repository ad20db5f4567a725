// The rooms of a list: each one's place, its mask, whether it is good, and a room put between others.
ghost use Rattle.std.specs.Prelude.{◌≡◌, ◌+◌, ◌*◌, ◌≤◌, ◌<◌, min, length, set};
ghost use Rattle.std.specs.Iterator.{YieldsFirstRef, item_count};
ghost use Rattle.laws.specs.Lists.{all};
ghost use Rattle.octets.specs.Room.{place_in};
ghost use Rattle.channel.specs.Limits.{mask_limit, ban_limit};
ghost use Rattle.bans.specs.Limits.{room_size};
ghost use Rattle.bans.specs.Masks.{mask_in, room_of, mask_count, used_rooms};
ghost use Rattle.bans.specs.WellFormed.{good_room};
ghost use Rattle.bans.specs.Private.Placing.{room_in, spliced};
ghost use Rattle.bans.specs.Private.Rooms.{rooms_left};

use crate::{BanList, is_mask};
use channel::Record;
use octets::{part, put, zero_from};

// How many masks the list says it has, or all that there is room for where that is more.
#[tactic(auto, unfolding(crate::specs::Masks::mask_count))]
pub(crate) fn mask_count(s: &[u8]) -> usize
    ensures { result ≡ mask_count s.now }
{
    match s.first() {
        Some(count) => usize::from(*count).min(Record::MASKS),
        None => 0,
    }
}

// The room of the mask i.
pub(crate) fn room_at(s: &[u8], i: usize) -> &[u8]
    requires { i < ban_limit }
    ensures bytes { result.now ≡ room_in s.now i }
    ensures place { result.ref_ptr ≡ place_in s.entry (min (1 + room_size * i) (length s.now)) }
{
    let at = 1 + BanList::ROOM * i;
    part(s, at, at + BanList::ROOM)
}

// The rooms of a list that are in use, one after the other.
#[derive(Drop)]
pub(crate) struct Rooms<'a> {
    // the bytes from the next room on
    bytes: &'a [u8],
    // how many rooms are still to come
    left: usize,
}

impl<'a> Iterator for Rooms<'a> {
    type Item = &'a [u8];

    ghost next_gives = { YieldsFirstRef rooms_left };

    ghost remaining = { item_count rooms_left };

    // The next room: where the bytes end before it does, what there is of it.
    #[tactic(auto, using(crate::proofs::Places::chunks_none, crate::proofs::Places::chunks_step, crate::proofs::Places::length_chunks))]
    fn next(&mut self) -> Option<&'a [u8]> {
        if self.left == 0 {
            return None;
        }
        self.left -= 1;
        let bytes = self.bytes;
        let end = BanList::ROOM.min(bytes.len());
        let (room, behind) = bytes.split_at(end);
        self.bytes = behind;
        Some(room)
    }
}

// The rooms of a list that are in use.
pub(crate) fn used_rooms(s: &[u8]) -> Rooms<'_>
    ensures { rooms_left result ≡ used_rooms s.now }
{
    Rooms {
        bytes: part(s, 1, s.len()),
        left: mask_count(s),
    }
}

// The mask in a room.
#[tactic(auto, using(crate::proofs::Places::mask_none), unfolding(crate::specs::Masks::mask_in))]
pub(crate) fn mask_in(r: &[u8]) -> &[u8]
    ensures bytes { result.now ≡ mask_in r.now }
    ensures place { result.ref_ptr ≡ place_in r.entry (min 1 (length r.now)) }
{
    match r.first() {
        Some(len) => part(r, 1, 1 + usize::from(*len)),
        None => r,
    }
}

// Whether the room holds a mask, and zeros behind it.
#[tactic(auto, using(crate::proofs::Places::good_none), unfolding(crate::specs::WellFormed::good_room))]
fn good_room(r: &[u8]) -> bool
    ensures { result ≡ good_room r.now }
{
    let Some(len) = r.first() else {
        return false;
    };
    let len = usize::from(*len);
    len <= Record::MASK && is_mask(mask_in(r)) && zero_from(r, 1 + len)
}

// Whether the rooms in use are good.
pub(crate) fn good_rooms(s: &[u8]) -> bool
    ensures { result ≡ all good_room (used_rooms s.now) }
{
    used_rooms(s).all(good_room)
}

// The room of a mask.
fn room_of(m: &[u8]) -> [u8; BanList::ROOM]
    requires { length m.now ≤ mask_limit }
    ensures { result ≡ room_of m.now }
{
    let mut room = [0; BanList::ROOM];
    room[0] = m.len() as u8;
    put(&mut room, 1, m);
    room
}

// The list with a mask's room between the first `at` and the others, the last room lost, and one mask more.
pub(crate) fn inserted(list: BanList, at: usize, m: &[u8]) -> BanList
    requires { (at < ban_limit) × (length m.now ≤ mask_limit) × (mask_count list.room < ban_limit) }
    ensures { result.room ≡ set (spliced list.room at m.now) 0 (mask_count list.room + 1) }
{
    let count = mask_count(&list.room);
    let start = 1 + BanList::ROOM * at;
    let end = start + BanList::ROOM;
    let mut room = list.room;
    room.copy_within(start..BanList::LIST - BanList::ROOM, end);
    room[start..end].copy_from_slice(&room_of(m));
    room[0] = (count + 1) as u8;
    BanList { room }
}
