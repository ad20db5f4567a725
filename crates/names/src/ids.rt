// User ids held whole, as nine bytes by value: the test, and their order and equality, byte by byte.
ghost use Rattle.std.specs.Prelude.{◌≡◌, cond, drop, eqb, ltb};
ghost use Rattle.octets.specs.Bytes.{within, is_id_byte};
ghost use Rattle.laws.specs.Lists.{all, same};
ghost use Rattle.octets.specs.Order.{compare, is_less};
ghost use Rattle.names.specs.Names.{is_user_id};

use crate::{SERVER_ID, USER_ID};

// 0 for a byte that may stand in an id, 1 for any other: both ranges are looked at, so that the outcome of neither decides what is done next.
#[tactic(auto, unfolding(octets::specs::Bytes::is_id_byte, octets::specs::Bytes::within))]
fn odd(b: u8) -> u8
    ensures { eqb result 0 ≡ is_id_byte b }
{
    u8::from(!(b.is_ascii_uppercase() | b.is_ascii_digit()))
}

// 0 if every byte behind the first may stand in an id: one test serves all of them.
fn odd_bytes(id: [u8; USER_ID]) -> u8
    ensures { eqb result 0 ≡ all is_id_byte (drop 1 id) }
{
    let mut bits = 0u8;
    for b in &id[1..] {
        bits |= odd(*b);
    }
    bits
}

// Whether it is a user id.
#[tactic(auto, using(crate::proofs::UserIds::whole_ids), unfolding(octets::specs::Bytes::within))]
pub fn is_id(id: [u8; USER_ID]) -> bool
    ensures { result ≡ is_user_id id }
{
    odd_bytes(id) == 0 && id[0].is_ascii_digit() && id[SERVER_ID].is_ascii_uppercase()
}

// Whether a byte is smaller than another, or the same one where what follows it is smaller: that counts as one more of the other byte.
fn under(a: u8, b: u8, less: bool) -> bool
    ensures { result ≡ cond (eqb a b) less (ltb a b) }
{
    u16::from(a) < u16::from(b) + u16::from(less)
}

// Whether the first of two ids is the smaller one: byte by byte, as unsigned numbers, from the last byte to the first, so that no byte's outcome decides
// what is done next.
pub fn is_before(a: [u8; USER_ID], b: [u8; USER_ID]) -> bool
    ensures { result ≡ is_less (compare a b) }
{
    let mut less = false;
    for i in (0..USER_ID).rev() {
        less = under(a[i], b[i], less);
    }
    less
}

// Whether two ids are the same, byte by byte, up to the first that differs.
pub fn is_same(a: [u8; USER_ID], b: [u8; USER_ID]) -> bool
    ensures { result ≡ same a b }
{
    a.iter().zip(&b).all(|(x, y)| x == y)
}
