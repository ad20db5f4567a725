// Bytes: their classes, zero bytes, the place of one, byte strings compared, numbers in decimal, a part of a lent slice, bytes put into lent room, and capital letters.
// Every function takes any bytes and refuses nothing.
#![tactic(auto)]

ghost use Rattle.std.specs.Prelude.{◌≡◌, cond, ◌+◌, ◌≤◌, min, length, take, drop, eqb};
ghost use Rattle.std.proofs.Math.Seq.{paste};
ghost use Rattle.octets.specs.Bytes.{is_zero, within, is_plain, is_letter, is_id_byte, is_name_byte, is_key_byte, in_class, capital as capital_of};
ghost use Rattle.laws.specs.Lists.{all, padded as padded_to};
ghost use Rattle.octets.specs.Search.{differs, before};
ghost use Rattle.octets.specs.Order.{compare as compare_of};
ghost use Rattle.octets.specs.Room.{part as part_of, place_in, put_at, end_of};

use std::cmp::Ordering;

pub mod decimals;
pub mod pen;

// The byte of a bell, which no channel name holds.
const BELL: u8 = 7;

// How many bytes are looked at together in the search for one.
const BLOCK: usize = 32;

// What a byte may be, for `all_in`.
#[derive(Clone, Copy)]
pub enum Class {
    // any but NUL, CR and LF
    Plain,
    // any but SPACE
    NonSpace,
    // any but LF
    NonLf,
    // 'A' to 'Z' or 'a' to 'z'
    Letter,
    // '0' to '9'
    Digit,
    // 'A' to 'Z' or '0' to '9'
    Id,
    // any but SPACE, BELL, NUL, CR, LF and comma
    Name,
    // 33 to 126 without comma
    Key,
}

impl Class {
    // Whether the byte is of the class.
    #[tactic(auto, unfolding(crate::specs::Bytes::within, crate::specs::Bytes::is_plain, crate::specs::Bytes::is_letter, crate::specs::Bytes::is_digit, crate::specs::Bytes::is_id_byte, crate::specs::Bytes::is_name_byte, crate::specs::Bytes::is_key_byte))]
    fn has(self, b: u8) -> bool
        ensures { result ≡ in_class self b }
    {
        match self {
            Class::Plain => is_plain(b),
            Class::NonSpace => b != b' ',
            Class::NonLf => b != b'\n',
            Class::Letter => b.is_ascii_alphabetic(),
            Class::Digit => b.is_ascii_digit(),
            Class::Id => b.is_ascii_uppercase() || b.is_ascii_digit(),
            Class::Name => is_plain(b) && !matches!(b, b' ' | BELL | b','),
            Class::Key => b.is_ascii_graphic() && b != b',',
        }
    }
}

// Whether the byte is none of NUL, CR and LF.
#[tactic(auto, unfolding(crate::specs::Bytes::is_plain))]
fn is_plain(b: u8) -> bool
    ensures { result ≡ is_plain b }
{
    !matches!(b, 0 | b'\n' | b'\r')
}

// Whether every byte is of the class: an or over all of them, and one test.
pub fn all_in(s: &[u8], class: Class) -> bool
    ensures { result ≡ all (in_class class) s.now }
{
    let mut odd = 0u8;
    for b in s {
        odd |= u8::from(!class.has(*b));
    }
    odd == 0
}

// Whether every byte from a place on is zero: an or over the bytes, and one test.
pub fn zero_from(s: &[u8], from: usize) -> bool
    ensures { result ≡ all is_zero (drop from s.now) }
{
    let mut bits = 0u8;
    for b in part(s, from, s.len()) {
        bits |= *b;
    }
    bits == 0
}

// Whether b isn't among the bytes: an or over them, and one test.
fn is_clear(s: &[u8], b: u8) -> bool
    ensures { result ≡ all (differs b) s.now }
{
    let mut found = 0u8;
    for x in s {
        found |= u8::from(*x == b);
    }
    found == 0
}

// The place of the first b, or the end where there is none, byte by byte.
fn first_in(s: &[u8], b: u8) -> usize
    ensures { result ≡ length (before b s.now) }
{
    s.iter().position(|x| *x == b).unwrap_or(s.len())
}

// The place of the first b, or the end where there is none. Blocks that don't have it are passed over first.
pub fn place_of(s: &[u8], b: u8) -> usize
    ensures { result ≡ length (before b s.now) }
{
    let mut rest = s;
    while let Some((block, more)) = rest.split_first_chunk::<BLOCK>() {
        if !is_clear(block, b) {
            break;
        }
        rest = more;
    }
    s.len() - rest.len() + first_in(rest, b)
}

// How a stands to b: byte by byte, by the first that differs, a proper beginning being smaller.
pub fn compare(a: &[u8], b: &[u8]) -> Ordering
    ensures { result ≡ compare_of a.now b.now }
{
    // Kept (3): one index into both; the library's `cmp` of two iterators, or a zip, tests two ends for each byte, and its `cmp` of slices compares eight at once.
    for i in 0..a.len().min(b.len()) {
        let order = a[i].cmp(&b[i]);
        if order.is_ne() {
            return order;
        }
    }
    a.len().cmp(&b.len())
}

// The bytes from `start` up to, not including, `end`, as that part of the lent slice. What lies past the slice's end is left off.
pub fn part(s: &[u8], start: usize, end: usize) -> &[u8]
    ensures bytes { result.now ≡ part_of s.now start end }
    ensures place { result.ref_ptr ≡ place_in s.entry (min start (min end (length s.now))) }
{
    let stop = end.min(s.len());
    let from = start.min(stop);
    &s[from..stop]
}

// Copies p, byte by byte, into a room of its length. The library's `copy_from_slice` asks the C library for `memmove`, where the compiler makes `memcpy` of this, or a loop:
// the archive for C needs no more from outside than `memcpy` and `memset`.
fn copy(room: &mut [u8], p: &[u8])
    requires { length room.old ≡ length p.now }
    ensures { room.new ≡ p.now }
{
    for (i, b) in p.iter().enumerate() {
        room[i] = *b;
    }
}

// Puts p at the place `at` and answers where it ends. If there isn't room for all of it, nothing is put, and the answer is one past the room.
#[tactic(auto, unfolding(crate::specs::Room::put_at, crate::specs::Room::end_of))]
pub fn put(out: &mut [u8], at: usize, p: &[u8]) -> usize
    ensures place { result ≡ end_of out.old at p.now }
    ensures bytes { out.new ≡ put_at out.old at p.now }
{
    let room = out.len();
    if room < at || room - at < p.len() {
        return room + 1;
    }
    let end = at + p.len();
    copy(&mut out[at..end], p);
    end
}

// The bytes at the front of a room of N bytes, the rest of it zero; what there is no room for is left off.
pub fn padded<const N: usize>(s: &[u8]) -> [u8; N]
    ensures { result ≡ padded_to N 0 s.now }
{
    let mut room = [0u8; N];
    let n = s.len().min(N);
    copy(&mut room[..n], &s[..n]);
    room
}

// The byte, or its capital where it is a small letter.
#[tactic(auto, unfolding(crate::specs::Bytes::capital, crate::specs::Bytes::within))]
pub fn capital(b: u8) -> u8
    ensures { result ≡ capital_of b }
{
    b.to_ascii_uppercase()
}
