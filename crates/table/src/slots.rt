// The slots of a table, each judged as the record that it holds, and two by their names.
ghost use Rattle.std.specs.Prelude.{◌≡◌};
ghost use Rattle.laws.specs.Lists.{all};
ghost use Rattle.table.specs.Table.{wholes_from, holds as holds_of, alike as alike_of, distinct};
ghost use Rattle.bans.specs.Records.{good_whole};
ghost use Rattle.table.specs.Private.Parts.{good_record};

use bans::{BanList, is_good};
use channel::{Record, is_blank, is_well_formed};
use names::equal;

// Whether a used slot holds a well-formed record, and a free one is zero.
#[tactic(auto, unfolding(crate::specs::Private::Parts::good_record))]
fn good_record(r: &Record) -> bool
    ensures { result ≡ good_record r.now }
{
    if r.count == 0 {
        is_blank(r)
    } else {
        is_well_formed(r)
    }
}

// Whether used slots hold well-formed records with their lists, and free ones are zero, their lists too.
pub(crate) fn are_good(slots: &[Record], bans: &[u8; BanList::BANS]) -> bool
    ensures { result ≡ all good_whole (wholes_from 0 slots.now bans.now) }
{
    for (k, r) in slots.iter().enumerate() {
        if !good_record(r) || !is_good(bans, k, r.count != 0) {
            return false;
        }
    }
    true
}

// Whether a used slot holds the name.
#[tactic(auto, unfolding(crate::specs::Table::holds))]
fn holds(r: &Record, name: &[u8]) -> bool
    ensures { result ≡ holds_of name.now r.now }
{
    r.count != 0 && equal(r.name(), name)
}

// Whether two slots are used and hold equal names.
#[tactic(auto, unfolding(crate::specs::Table::alike))]
fn alike(r: &Record, s: &Record) -> bool
    ensures { result ≡ alike_of r.now s.now }
{
    r.count != 0 && holds(s, r.name())
}

// Whether no two slots are used and hold equal names: each is looked at with those behind it. A free one is passed over with all of them.
pub(crate) fn are_distinct(slots: &[Record]) -> bool
    ensures { result ≡ distinct slots.now }
{
    let mut left = slots;
    while let [r, others @ ..] = left {
        if r.count != 0 && others.iter().any(|s| alike(r, s)) {
            return false;
        }
        left = others;
    }
    true
}
