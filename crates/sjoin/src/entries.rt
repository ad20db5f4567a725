// The member list of an SJOIN line: its entries, each perhaps '@', perhaps '+', then a user id.
ghost use Rattle.std.specs.Prelude.{◌≡◌, ◌≤◌, cond, length};
ghost use Rattle.laws.specs.Lists.{starts_with};
ghost use Rattle.message.specs.Grammar.{line_limit};
ghost use Rattle.sjoin.specs.Entries.{past as past_of, id_of, status_of};
ghost use Rattle.sjoin.specs.Private.Parts.{entry_in, entries_in};

use channel::{Member, Roster};
use message::words;
use names::USER_ID;
use names::ids::is_id;

// What follows the mark, with its bits; or all, with none, where it doesn't stand first.
#[tactic(auto, using(crate::proofs::Modes::begins), unfolding(crate::specs::Entries::past))]
fn past(s: &[u8], mark: u8, bits: u8) -> (u8, &[u8])
    ensures bits { result.0 ≡ cond (starts_with mark s.now) bits 0 }
    ensures rest { result.1.now ≡ past_of mark s.now }
{
    match s.strip_prefix(&[mark]) {
        Some(rest) => (bits, rest),
        None => (0, s),
    }
}

// An entry's status, operator with '@' and voice with '+', and its id, which is what follows them in that order.
#[tactic(auto, using(crate::proofs::Listed::status_by), unfolding(crate::specs::Entries::status_of, crate::specs::Entries::id_of))]
fn split_status(entry: &[u8]) -> (u8, &[u8])
    ensures status { result.0 ≡ status_of entry.now }
    ensures id { result.1.now ≡ id_of entry.now }
{
    let (operator, rest) = past(entry, b'@', Member::OPERATOR);
    let (voice, id) = past(rest, b'+', Member::VOICE);
    (operator | voice, id)
}

// The member that a word of the list names, if it is an entry: a user id follows '@' and '+'.
fn entry_of(word: &[u8]) -> Option<Member>
    ensures { result ≡ entry_in word.now }
{
    let (status, bytes) = split_status(word);
    let id = <[u8; USER_ID]>::try_from(bytes).ok()?;
    is_id(id).then_some(Member { id, status })
}

// The members that a list names, in its order, an id perhaps more than once, if the list is good: one entry or more, and nothing else. Each word is looked at
// once, and none behind one that is no entry.
pub(crate) fn entries_of(list: &[u8]) -> Option<Roster>
    requires { length list.now ≤ line_limit }
    ensures { result ≡ entries_in list.now }
{
    let mut members = Roster::empty();
    for word in words(list) {
        members.push(entry_of(word)?);
    }
    (0 < members.count).then_some(members)
}
