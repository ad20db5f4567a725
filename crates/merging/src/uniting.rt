// The members of two sides united in one pass over both.
ghost use Rattle.std.specs.Prelude.{◌≡◌};
ghost use Rattle.std.specs.Iterator.{YieldsFirst, item_count};
ghost use Rattle.ascending.specs.Ascending.{one_pass};
ghost use Rattle.channel.specs.Channel.{by_id};
ghost use Rattle.merging.specs.Private.Sides.{members_of};
ghost use Rattle.merging.specs.Private.Uniting.{union_left, Fills};

use crate::sides::Side;
use channel::{Member, Record, Roster};
use names::compare_ids;
use std::cmp::Ordering;

// Two sides, whose members come one after the other by their ids, two with one id as one.
#[derive(Drop)]
struct Union<'a> {
    first: Side<'a>,
    second: Side<'a>,
}

impl<'a> Iterator for Union<'a> {
    type Item = Member;

    ghost next_gives = { YieldsFirst union_left };

    ghost remaining = { item_count union_left };

    // The one with the smaller id, or both as one.
    #[tactic(auto, using(crate::proofs::OnePass::passes))]
    fn next(&mut self) -> Option<Member> {
        match (self.first.split_first(), self.second.split_first()) {
            (Some((x, rest)), Some((y, others))) => match compare_ids(x.id, y.id) {
                Ordering::Less => {
                    self.first = rest;
                    Some(x)
                }
                Ordering::Equal => {
                    self.first = rest;
                    self.second = others;
                    Some(Member {
                        status: y.status | x.status,
                        ..x
                    })
                }
                Ordering::Greater => {
                    self.second = others;
                    Some(y)
                }
            },
            (Some((x, rest)), None) => {
                self.first = rest;
                Some(x)
            }
            (None, Some((y, others))) => {
                self.second = others;
                Some(y)
            }
            (None, None) => None,
        }
    }
}

// The members of both, or None where they are more than there is room for.
pub(crate) fn united<'a>(first: Side<'a>, second: Side<'a>) -> Option<Roster>
    ensures { Fills result (one_pass by_id (members_of first.entry) (members_of second.entry)) }
{
    let mut all = Roster::empty();
    for m in (Union { first, second }) {
        if all.count == Record::MEMBERS {
            return None;
        }
        all.push(m);
    }
    Some(all)
}
