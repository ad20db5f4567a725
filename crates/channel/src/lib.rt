// A channel's record (document 01, 'The channel record'): its limits, its modes, its key, its members, and whether it is well formed. Any record is taken;
// those that aren't well formed are answered by the definition that the contract cites.
#![tactic(auto)]

pub mod key;
pub mod members;
pub mod modes;
mod well;

ghost use Rattle.std.specs.Prelude.{◌≡◌, ◌≤◌, length, drop};
ghost use Rattle.names.specs.Names.{name_limit};
ghost use Rattle.channel.specs.Limits.{member_limit, key_limit, time_limit, limit_limit, slot_count, ban_limit, mask_limit};
ghost use Rattle.channel.specs.Channel.{voice, operator, voice_place, operator_place};
ghost use Rattle.channel.specs.Record.{decode, empty_record};
ghost use Rattle.channel.specs.WellFormed.{well_formed, is_blank};

use names::{NAME_LIMIT, USER_ID};
use octets::zero_from;
use well::{are_members, are_vacant};

// A member of a channel: its user id, held whole, and its status, VOICE plus OPERATOR.
#[repr(C)]
#[derive(Clone, Copy)]
pub struct Member {
    pub id: [u8; USER_ID],
    pub status: u8,
}

impl Member {
    // An unused place.
    pub const NOBODY: Member = Member {
        id: [0; USER_ID],
        status: 0,
    };

    // The place of voice's bit in a status.
    pub const VOICE_PLACE: u32 = 0;

    // The place of an operator's bit in a status.
    pub const OPERATOR_PLACE: u32 = 1;

    // Voice.
    pub const VOICE: u8 = 1 << Member::VOICE_PLACE;

    // Operator.
    pub const OPERATOR: u8 = 1 << Member::OPERATOR_PLACE;
}

// A channel's record. Unused room is zero. Without k there is no key, without l no limit: 0.
#[repr(C)]
#[derive(Clone, Copy)]
pub struct Record {
    pub name: [u8; Record::NAME],
    pub name_len: usize,
    pub time: u32,
    pub modes: u8,
    pub key: [u8; Record::KEY],
    pub key_len: usize,
    pub limit: u16,
    pub members: [Member; Record::MEMBERS],
    pub count: usize,
}

impl Record {
    // The most members.
    pub const MEMBERS: usize = 64;

    // The most bytes of a name.
    pub const NAME: usize = NAME_LIMIT;

    // The most bytes of a key.
    pub const KEY: usize = 23;

    // The latest time.
    pub const TIME: u32 = 4294967295;

    // The largest limit of users.
    pub const LIMIT: u32 = 65535;

    // The records of a table.
    pub const SLOTS: usize = 16;

    // The most masks of a ban list.
    pub const MASKS: usize = 32;

    // The most bytes of a mask.
    pub const MASK: usize = 100;

    // No channel: a free slot. The limits and statuses of the code are those of the definitions.
    #[tactic(auto, unfolding(crate::specs::Record::empty_record, crate::specs::Record::encode, laws::specs::Lists::padded))]
    pub fn empty() -> Record
        ensures value { result ≡ empty_record }
        ensures sizes { (Record.MEMBERS ≡ member_limit) × (Record.NAME ≡ name_limit) × (Record.KEY ≡ key_limit) × (Record.SLOTS ≡ slot_count) }
        ensures numbers { (Record.TIME ≡ time_limit) × (Record.LIMIT ≡ limit_limit) }
        ensures bans { (Record.MASKS ≡ ban_limit) × (Record.MASK ≡ mask_limit) }
        ensures statuses { (Member.VOICE ≡ voice) × (Member.OPERATOR ≡ operator) }
        ensures places { (Member.VOICE_PLACE ≡ voice_place) × (Member.OPERATOR_PLACE ≡ operator_place) }
    {
        Record {
            name: [0; Record::NAME],
            name_len: 0,
            time: 0,
            modes: 0,
            key: [0; Record::KEY],
            key_len: 0,
            limit: 0,
            members: [Member::NOBODY; Record::MEMBERS],
            count: 0,
        }
    }

    // The name: what is in use of its room.
    pub fn name(&self) -> &[u8]
        ensures { result.now ≡ (decode self.now).name }
    {
        &self.name[..self.name_len.min(Record::NAME)]
    }

    // The key: what is in use of its room.
    pub fn key(&self) -> &[u8]
        ensures { result.now ≡ (decode self.now).settings.key }
    {
        &self.key[..self.key_len.min(Record::KEY)]
    }

    // The members: the places in use.
    pub fn members(&self) -> &[Member]
        ensures list { result.now ≡ (decode self.now).members }
        ensures few { length result.now ≤ member_limit }
    {
        &self.members[..self.count.min(Record::MEMBERS)]
    }

    // The places of members that aren't in use.
    fn unused(&self) -> &[Member]
        ensures { result.now ≡ drop self.now.count self.now.members }
    {
        &self.members[self.count.min(Record::MEMBERS)..]
    }
}

// Members in room for all that a record can have, those in use first, the unused places zero.
#[derive(Clone, Copy)]
pub struct Roster {
    pub list: [Member; Record::MEMBERS],
    pub count: usize,
}

// Whether every part of the record is zero, as in a free slot.
#[tactic(auto, unfolding(crate::specs::WellFormed::is_blank, laws::specs::Lists::all))]
pub fn is_blank(r: &Record) -> bool
    ensures { result ≡ is_blank r.now }
{
    zero_from(&r.name, 0)
        && r.name_len == 0
        && r.time == 0
        && r.modes == 0
        && zero_from(&r.key, 0)
        && r.key_len == 0
        && r.limit == 0
        && are_vacant(&r.members)
        && r.count == 0
}

// Whether the record is well formed: what is in use keeps to its room, unused room is zero, and what it holds is a channel.
pub fn is_well_formed(r: &Record) -> bool
    ensures { result ≡ well_formed r.now }
{
    r.is_in_room()
        && zero_from(&r.name, r.name_len)
        && zero_from(&r.key, r.key_len)
        && r.has_good_head()
        && are_vacant(r.unused())
        && are_members(r.members())
}
