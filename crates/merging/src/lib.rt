// Two records of one channel merged by the rules of SJOIN (document 01, 'SJOIN'), with their ban lists (document 02, §2), and the greater of two keys. Any records
// are taken: `merge` refuses those that aren't well formed, and `combine`, which doesn't test them and leaves lists out, answers them by the definition that its
// contract cites.
#![tactic(auto)]

mod lists;
mod sides;
mod uniting;

ghost use Rattle.std.specs.Prelude.{◌≡◌, cond};
ghost use Rattle.octets.specs.Order.{compare as compare_of, is_less};
ghost use Rattle.refusal.specs.Refusals.{answered};
ghost use Rattle.merging.specs.Merging.{merge_answer, combined_as, combined};
ghost use Rattle.merging.specs.Private.Answers.{merged_by};

use bans::{WholeRecord, is_whole};
use channel::Record;
use lists::merged_list;
use names::equal;
use octets::{compare, padded};
use refusal::{Refusal, number};
use sides::{Given, Side};
use uniting::united;

// The number of a refusal, or ACCEPTED, and the merged record with its list, or the first one as given.
// Kept (1): C's struct.
#[repr(C)]
#[derive(Clone, Copy)]
pub struct Merged {
    pub number: u8,
    pub result: WholeRecord,
}

// Two records of one channel merged by the rules of SJOIN, the first one's spelling kept: at equal times their lists are united, else the earlier one's stands.
// Refused where either isn't well formed, where their names differ, and where more members or masks would result than there is room for.
pub fn merge(a: WholeRecord, b: WholeRecord) -> Merged
    ensures { result ≡ merge_answer a b }
{
    let mut result = a;
    let answer = merge_in(&mut result, &b);
    Merged {
        number: number(&answer),
        result,
    }
}

// The second merged into the first, or why it isn't: then the first is as it was.
fn merge_in(a: &mut WholeRecord, b: &WholeRecord) -> Result<(), Refusal>
    ensures { merged_by (answered result) a.new ≡ merge_answer a.old b.now }
{
    if !(is_whole(*a) && is_whole(*b)) {
        return Err(Refusal::NotWellFormed);
    }
    if !equal(a.record.name(), b.record.name()) {
        return Err(Refusal::BadName);
    }
    let record = combine(a.record, b.record)?;
    let bans = merged_list(a.record.time, a.bans, b.record.time, b.bans).ok_or(
        Refusal::TooManyMasks,
    )?;
    *a = WholeRecord { record, bans };
    Ok(())
}

// Two records merged that are known to be well formed and of one channel: neither is tested again. Refused where more members would result than a record has
// room for. Any others are taken too: of counts and lengths only what there is room for counts, and members are united as they stand.
pub fn combine(a: Record, b: Record) -> Result<Record, Refusal>
    ensures { combined_as a result ≡ combined a b }
{
    let time = a.time.min(b.time);
    let all = united(Side::at(time, &a), Side::at(time, &b)).ok_or(Refusal::TooManyMembers)?;
    let x = Given::at(time, &a);
    let y = Given::at(time, &b);
    let key = greater_key(x.key, y.key);
    let name = a.name();
    let members = all.list;
    Ok(Record {
        name: padded(name),
        name_len: name.len(),
        time,
        modes: x.modes | y.modes,
        key: padded(key),
        key_len: key.len(),
        limit: x.limit.max(y.limit),
        members,
        count: all.count,
    })
}

// The greater of two keys, compared as unsigned bytes, a proper beginning being smaller; the first where they are equal. Any bytes are taken.
pub fn greater_key<'a>(a: &'a [u8], b: &'a [u8]) -> &'a [u8]
    ensures { result ≡ cond (is_less (compare_of a.now b.now)) b.entry a.entry }
{
    if compare(a, b).is_lt() { b } else { a }
}
