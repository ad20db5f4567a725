// The order of masks: by the bytes of their folds. Where a mask stands, or is to stand, in a list.
ghost use Rattle.std.specs.Prelude.{◌≡◌, map, ◌≤◌, length};
ghost use Rattle.octets.specs.Order.{compare, is_less};
ghost use Rattle.ascending.specs.Ascending.{ascends};
ghost use Rattle.names.specs.Fold.{fold as fold_of};
ghost use Rattle.channel.specs.Limits.{mask_limit};
ghost use Rattle.bans.specs.Masks.{room_of, by_fold, used_rooms};
ghost use Rattle.bans.specs.Private.Placing.{PlacedIn};

use crate::rooms::{mask_count, mask_in, room_at, used_rooms};
use names::{fold, unlike};
use std::cmp::Ordering;

// The bytes that are compared at once.
const BLOCK: usize = 16;

// 0 only if two blocks have the same fold: an or over their bytes.
fn differing(a: &[u8; BLOCK], b: &[u8; BLOCK]) -> u8
    ensures { result ≡ 0 → map fold_of a.now ≡ map fold_of b.now }
{
    let mut bits = 0;
    // Kept (3): one index into two arrays of one size; a zip of the two reads no plainer.
    for j in 0..BLOCK {
        bits |= unlike(a[j], b[j]);
    }
    bits
}

// How a's fold stands to b's, byte by byte. Bytes that are the same need not be folded.
fn compare_bytes(a: &[u8], b: &[u8]) -> Ordering
    ensures { result ≡ compare (map fold_of a.now) (map fold_of b.now) }
{
    for (x, y) in a.iter().zip(b) {
        if x == y {
            continue;
        }
        let order = fold(*x).cmp(&fold(*y));
        if order.is_ne() {
            return order;
        }
    }
    a.len().cmp(&b.len())
}

// How a's fold stands to b's. Blocks that have the same fold are passed over first.
fn compare_folds(a: &[u8], b: &[u8]) -> Ordering
    ensures { result ≡ compare (map fold_of a.now) (map fold_of b.now) }
{
    let (mut a, mut b) = (a, b);
    while let (Some((x, rest)), Some((y, others))) = (
        a.split_first_chunk(),
        b.split_first_chunk(),
    ) {
        if differing(x, y) != 0 {
            break;
        }
        a = rest;
        b = others;
    }
    compare_bytes(a, b)
}

// Whether the first room's mask comes before the second's.
fn is_below(r: &[u8], t: &[u8]) -> bool
    ensures { result ≡ is_less (compare (by_fold.key r.now) (by_fold.key t.now)) }
{
    compare_folds(mask_in(r), mask_in(t)).is_lt()
}

// Whether the masks of a list ascend.
pub(crate) fn ascending(s: &[u8]) -> bool
    ensures { result ≡ ascends by_fold (used_rooms s.now) }
{
    used_rooms(s).is_sorted_by(|r, t| is_below(r, t))
}

// Where the mask stands, or else where it is to stand: behind all that come before it.
pub(crate) fn place_for(s: &[u8], m: &[u8]) -> Result<usize, usize>
    requires { length m.now ≤ mask_limit }
    ensures { PlacedIn (room_of m.now) (used_rooms s.now) result }
{
    let n = mask_count(s);
    // Kept (3): the index is what is answered.
    for at in 0..n {
        match compare_folds(m, mask_in(room_at(s, at))) {
            Ordering::Less => return Err(at),
            Ordering::Equal => return Ok(at),
            Ordering::Greater => {}
        }
    }
    Err(n)
}
