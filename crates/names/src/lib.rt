// Channel names, server ids and user ids (document 01, 'Names and ids'; document 02, §4): the fold that makes names equal, a test for each kind, and the order
// of user ids. Any bytes are taken and nothing is refused.
#![tactic(auto)]

ghost use Rattle.std.specs.Prelude.{◌≡◌, cond};
ghost use Rattle.laws.specs.Lists.{padded as padded_to};
ghost use Rattle.octets.specs.Order.{compare};
ghost use Rattle.names.specs.Fold.{fold as fold_of, alike, same_name};
ghost use Rattle.names.specs.Names.{user_id_length, is_channel, is_server_id, is_user_id};
ghost use Rattle.names.specs.Private.Likeness.{likeness as likeness_of};

use octets::{Class, all_in, padded};
use std::cmp::Ordering;

pub mod ids;

// The most bytes of a channel name, '#' counted.
pub const NAME_LIMIT: usize = 50;

// The bytes of a server id, with which a user id begins.
pub const SERVER_ID: usize = 3;

// The bytes of a user id.
pub const USER_ID: usize = 9;

// The byte as names are compared: without case, '[', ']', '\' and '~' being the capitals of '{', '}', '|' and '^'.
#[tactic(auto, unfolding(crate::specs::Fold::fold, octets::specs::Bytes::within))]
pub fn fold(b: u8) -> u8
    ensures { result ≡ fold_of b }
{
    match b {
        b'A'..=b'Z' => b + 32,
        b'[' => b'{',
        b']' => b'}',
        b'\\' => b'|',
        b'~' => b'^',
        _ => b,
    }
}

// What bytes that are alike have in common. Those that change lie side by side, so that it is two comparisons and an addition. Of '^'
// and '~' it is '~', and so not the fold.
#[tactic(auto, unfolding(crate::specs::Private::Likeness::likeness, octets::specs::Bytes::within))]
fn likeness(b: u8) -> u8
    ensures { result ≡ likeness_of b }
{
    match b {
        b'A'..=b'^' => b + 32,
        _ => b,
    }
}

// Whether two bytes are alike: their folds are equal. The same byte is, and a fold changes no bit but that of 32.
#[tactic(auto, using(crate::proofs::Folds::likenesses))]
pub fn is_alike(a: u8, b: u8) -> bool
    ensures { result ≡ alike a b }
{
    a == b || (a | 32 == b | 32 && likeness(a) == likeness(b))
}

// 0 for bytes that are alike, 1 for any others: what `is_alike` says, for a loop over many bytes, of which the compiler makes code without branches.
#[tactic(auto, using(crate::proofs::Folds::likenesses))]
pub fn unlike(a: u8, b: u8) -> u8
    ensures { result ≡ cond (alike a b) 0 1 }
{
    u8::from(likeness(a) != likeness(b))
}

// Whether two names are equal: their folds are.
pub fn equal(a: &[u8], b: &[u8]) -> bool
    ensures { result ≡ same_name a.now b.now }
{
    a.len() == b.len() && a.iter().zip(b).all(|(x, y)| is_alike(*x, *y))
}

// A channel name: '#' and 1 to 49 further bytes, none of them SPACE, BELL, NUL, CR, LF or comma.
#[tactic(auto, unfolding(crate::specs::Names::is_channel))]
pub fn is_channel(name: &[u8]) -> bool
    ensures { result ≡ is_channel name.now }
{
    let [b'#', rest @ ..] = name else {
        return false;
    };
    !rest.is_empty() && rest.len() < NAME_LIMIT && all_in(rest, Class::Name)
}

// A server id: three bytes, a digit, then two of 'A' to 'Z' or '0' to '9'.
#[tactic(auto, unfolding(crate::specs::Names::is_server_id, laws::specs::Lists::all, octets::specs::Bytes::is_digit, octets::specs::Bytes::within))]
pub fn is_server_id(id: &[u8]) -> bool
    ensures { result ≡ is_server_id id.now }
{
    id.len() == SERVER_ID && id[0].is_ascii_digit() && all_in(&id[1..], Class::Id)
}

// A user id: nine bytes, a server id, a letter of 'A' to 'Z', then five of 'A' to 'Z' or '0' to '9'.
#[tactic(auto, using(crate::proofs::UserIds::whole_ids))]
pub fn is_user_id(id: &[u8]) -> bool
    ensures { result ≡ is_user_id id.now }
{
    id.len() == USER_ID && ids::is_id(user_id(id))
}

// How one user id, held whole, stands to another: byte by byte, as unsigned numbers.
pub fn compare_ids(a: [u8; USER_ID], b: [u8; USER_ID]) -> Ordering
    ensures { result ≡ compare a b }
{
    octets::compare(&a, &b)
}

// The first nine bytes, held whole as a user id is, the rest of the room zero where they are fewer.
pub fn user_id(s: &[u8]) -> [u8; USER_ID]
    ensures { result ≡ padded_to user_id_length 0 s.now }
{
    padded(s)
}
