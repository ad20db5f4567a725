// Ban lists (document 02, §2): masks in ascending order of their folds, each fold once in its first spelling, up to 32 of them. A list is a room of
// BanList::LIST bytes: how many masks, then for each a byte with its length and 100 bytes, unused room zero. Sixteen lists stand one behind the other
// in lent bytes. Any bytes are taken; where they are no list, the definitions that the contracts cite say what is answered.
#![tactic(auto)]

mod order;
mod rooms;

ghost use Rattle.std.specs.Prelude.{◌≡◌, [], min, length, replicate, get_or};
ghost use Rattle.octets.specs.Room.{place_in};
ghost use Rattle.bans.specs.Limits.{room_size, list_size, bans_size};
ghost use Rattle.bans.specs.Masks.{is_mask, masks, mask_start};
ghost use Rattle.bans.specs.WellFormed.{well_formed_list, good_list};
ghost use Rattle.bans.specs.Putting.{added, put_answer, unite_answer};
ghost use Rattle.bans.specs.Slots.{offset as offset_of, list_at, list_of, stored, empty_list};
ghost use Rattle.bans.specs.Records.{well_formed_whole};
ghost use Rattle.bans.specs.Matching.{some_matches};

use channel::Record;
use octets::{Class, all_in, padded, part, zero_from};
use order::{ascending, place_for};
use rooms::{good_rooms, inserted, mask_count, mask_in, room_at, used_rooms};

// A list, held whole.
#[repr(C)]
#[derive(Clone, Copy)]
pub struct BanList {
    pub room: [u8; BanList::LIST],
}

impl BanList {
    // The bytes of a mask's room: its length, and the mask.
    pub const ROOM: usize = 101;

    // The bytes of a list: how many masks, and their rooms.
    pub const LIST: usize = 3233;

    // The bytes of all lists.
    pub const BANS: usize = 51728;

    // The list without masks. The sizes of the code are those of the definitions.
    pub fn empty() -> BanList
        ensures value { result ≡ empty_list }
        ensures sizes { (BanList.ROOM ≡ room_size) × (BanList.LIST ≡ list_size) × (BanList.BANS ≡ bans_size) }
    {
        BanList {
            room: [0u8; BanList::LIST],
        }
    }
}

// A channel's record with its ban list: what document 02 calls a record.
#[repr(C)]
#[derive(Clone, Copy)]
pub struct WholeRecord {
    pub record: Record,
    pub bans: BanList,
}

// Whether the bytes are a mask: 1 to 100 bytes, none of them SPACE, NUL, CR or LF.
#[tactic(auto, unfolding(crate::specs::Masks::is_mask))]
pub fn is_mask(m: &[u8]) -> bool
    ensures { result ≡ is_mask m.now }
{
    !m.is_empty()
        && m.len() <= Record::MASK
        && all_in(m, Class::Plain)
        && all_in(m, Class::NonSpace)
}

// The list with a mask in its place; where its fold is there already, the spelling stays. A mask over 100 bytes is cut. None where more masks would result than a
// list has room for.
pub fn put(b: BanList, m: &[u8]) -> Option<BanList>
    ensures { added b result ≡ put_answer m.now b }
{
    let mask = part(m, 0, Record::MASK);
    let n = mask_count(&b.room);
    match place_for(&b.room, mask) {
        Ok(_) => {
            let mut same = b;
            same.room[0] = n as u8;
            Some(same)
        }
        Err(_) if n == Record::MASKS => None,
        Err(at) => Some(inserted(b, at, mask)),
    }
}

// The first list with the masks of the second, one after the other. None where more masks would result than a list has room for.
pub fn unite(a: BanList, b: BanList) -> Option<BanList>
    ensures { added a result ≡ unite_answer a b }
{
    let mut list = a;
    for room in used_rooms(&b.room) {
        list = put(list, mask_in(room))?;
    }
    Some(list)
}

// Whether the bytes are a list: at most 32 masks whose folds ascend, unused room zero.
#[tactic(auto, using(crate::proofs::Places::count_room), unfolding(crate::specs::WellFormed::well_formed_list, laws::specs::Lists::all))]
pub fn is_well_formed(s: &[u8]) -> bool
    ensures { result ≡ well_formed_list s.now }
{
    s.len() == BanList::LIST
        && usize::from(s[0]) <= Record::MASKS
        && zero_from(s, 1 + BanList::ROOM * mask_count(s))
        && good_rooms(s)
        && ascending(s)
}

// Whether a record and its list are both well formed.
#[tactic(auto, unfolding(crate::specs::Records::well_formed_whole))]
pub fn is_whole(w: WholeRecord) -> bool
    ensures { result ≡ well_formed_whole w }
{
    channel::is_well_formed(&w.record) && is_well_formed(&w.bans.room)
}

// How many masks the list has.
pub fn count(s: &[u8]) -> usize
    ensures { result ≡ length (masks s.now) }
{
    mask_count(s)
}

// Mask i of the list, as that part of its bytes, or the empty part at their start where it has none.
pub fn mask_at(s: &[u8], i: usize) -> &[u8]
    ensures bytes { result.now ≡ get_or (masks s.now) i [] }
    ensures place { result.ref_ptr ≡ place_in s.entry (mask_start s.now i) }
{
    if i < mask_count(s) {
        mask_in(room_at(s, i))
    } else {
        &s[..0]
    }
}

// Whether some mask of the list matches the text.
pub fn some_matches(s: &[u8], text: &[u8]) -> bool
    ensures { result ≡ some_matches text.now (masks s.now) }
{
    used_rooms(s).any(|room| glob::matches(mask_in(room), text).yes)
}

// Where list k begins; where there is no such list, behind them all.
fn offset(k: usize) -> usize
    ensures { result ≡ offset_of k }
{
    BanList::LIST * k.min(Record::SLOTS)
}

// The bytes of list k, as that part of the lent ones; past the sixteenth, what lies behind the lists, which of BANS bytes is nothing.
pub fn list_at(bans: &[u8], k: usize) -> &[u8]
    ensures bytes { result.now ≡ list_at bans.now k }
    ensures place { result.ref_ptr ≡ place_in bans.entry (min (offset_of k) (length bans.now)) }
{
    let at = offset(k);
    part(bans, at, at + BanList::LIST)
}

// List k, held whole.
#[tactic(auto, unfolding(crate::specs::Slots::list_of))]
pub fn load(bans: &[u8], k: usize) -> BanList
    ensures { result ≡ list_of (list_at bans.now k) }
{
    let room = padded(list_at(bans, k));
    BanList { room }
}

// Puts a list in the place of list k, where there is room for it. All other bytes stay.
pub fn store(bans: &mut [u8], k: usize, list: BanList)
    ensures { bans.new ≡ stored bans.old k list }
{
    octets::put(bans, offset(k), &list.room);
}

// Puts the list without masks in the place of list k, where there is room for it. All other bytes stay.
pub fn clear(bans: &mut [u8], k: usize)
    ensures { bans.new ≡ stored bans.old k empty_list }
{
    store(bans, k, BanList::empty());
}

// Makes all bytes zero: no list has masks.
pub fn clear_all(bans: &mut [u8])
    ensures { bans.new ≡ replicate (length bans.old) 0 }
{
    bans.fill(0);
}

// Whether list k is well formed, or, where its slot isn't used, its room zero.
#[tactic(auto, unfolding(crate::specs::WellFormed::good_list, crate::specs::WellFormed::is_unused))]
pub fn is_good(bans: &[u8], k: usize, used: bool) -> bool
    ensures { result ≡ good_list used (list_at bans.now k) }
{
    let s = list_at(bans, k);
    if used {
        is_well_formed(s)
    } else {
        s.len() == BanList::LIST && zero_from(s, 0)
    }
}
