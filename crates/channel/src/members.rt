// Member lists: those of a record, a member removed, and lists put in order.
ghost use Rattle.std.specs.Prelude.{◌≡◌, ◌≤◌, [], length, take};
ghost use Rattle.octets.specs.Order.{compare, is_less};
ghost use Rattle.ascending.specs.Ascending.{put};
ghost use Rattle.channel.specs.Limits.{member_limit};
ghost use Rattle.channel.specs.Record.{decode};
ghost use Rattle.channel.specs.Channel.{by_id};
ghost use Rattle.channel.specs.Private.Rosters.{Sorted};
ghost use Rattle.channel.specs.Members.{roster, pushed_in_room, ordered as ordered_of, has_member, others as others_of, without as without_of};

use crate::{Member, Record, Roster};
use names::USER_ID;
use names::ids::{is_before, is_same};

impl Member {
    // Whether its id is smaller than the other's.
    pub(crate) fn is_below(self, other: Member) -> bool
        ensures { result ≡ is_less (compare self.id other.id) }
    {
        is_before(self.id, other.id)
    }
}

impl Roster {
    // No members.
    #[tactic(auto, unfolding(crate::specs::Members::roster, laws::specs::Lists::padded))]
    pub fn empty() -> Roster
        ensures { result ≡ roster [] }
    {
        Roster {
            list: [Member::NOBODY; Record::MEMBERS],
            count: 0,
        }
    }

    // The members.
    pub fn members(&self) -> &[Member]
        ensures list { result.now ≡ take self.now.count self.now.list }
        ensures few { length result.now ≤ member_limit }
    {
        &self.list[..self.count.min(Record::MEMBERS)]
    }

    // One member more, behind the others, where there is room.
    #[tactic(auto, unfolding(crate::specs::Members::pushed_in_room))]
    pub fn push(&mut self, m: Member)
        ensures { self.new ≡ pushed_in_room self.old m }
    {
        if self.count < Record::MEMBERS {
            self.list[self.count] = m;
            self.count += 1;
        }
    }

    // One member more, in its place among the others. Where the id is there already, it has both statuses.
    fn insert(&mut self, m: Member)
        requires { Sorted self.old.list self.old.count }
        ensures { self.new ≡ roster (put by_id m (take self.old.count self.old.list)) }
    {
        let place = self.members().partition_point(|other| other.is_below(m));
        if place < self.count && is_same(self.list[place].id, m.id) {
            self.list[place].status |= m.status;
        } else {
            self.list.copy_within(place..self.count, place + 1);
            self.list[place] = m;
            self.count += 1;
        }
    }
}

// Whether the record has a member with the id.
pub fn has_member(r: &Record, id: [u8; USER_ID]) -> bool
    ensures { result ≡ has_member id (decode r.now).members }
{
    r.members().iter().any(|m| is_same(id, m.id))
}

// The record's members but for those with the id.
fn others(r: &Record, id: [u8; USER_ID]) -> Roster
    ensures { result ≡ roster (others_of id (decode r.now).members) }
{
    let mut left = Roster::empty();
    for m in r.members() {
        if !is_same(id, m.id) {
            left.push(*m);
        }
    }
    left
}

// The record without the member that has the id: the rest moves up, and the freed place is zero. Where nobody is left, the empty record.
pub fn without(r: &Record, id: [u8; USER_ID]) -> Record
    ensures { result ≡ without_of id r.now }
{
    let left = others(r, id);
    if left.count == 0 {
        return Record::empty();
    }
    let members = left.list;
    let count = left.count;
    Record {
        members,
        count,
        ..*r
    }
}

// Every id of the entries once, ascending, an id given twice having both statuses. One that comes behind all before it costs one comparison.
pub fn ordered(entries: &Roster) -> Roster
    ensures { result ≡ roster (ordered_of (take entries.now.count entries.now.list)) }
{
    let mut all = Roster::empty();
    // No id is smaller than this one's.
    let mut last = Member::NOBODY;
    for m in entries.members() {
        if last.is_below(*m) {
            all.push(*m);
            last = *m;
        } else {
            all.insert(*m);
        }
    }
    all
}
