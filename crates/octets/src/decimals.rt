// Numbers in decimal: read up to a limit, and put into lent room.
ghost use Rattle.std.specs.Prelude.{◌≡◌, true, not, cond, ◌<◌};
ghost use Rattle.octets.specs.Bytes.{is_digit};
ghost use Rattle.laws.specs.Lists.{all};
ghost use Rattle.octets.specs.Decimals.{is_decimal, value_of, value_up_to, decimal_up_to, is_malformed, value_in, is_up_to, digit as digit_of, digits_of};
ghost use Rattle.octets.specs.Room.{put_at, end_of};

use crate::{Class, all_in, put};

// The most digits of a 64-bit number.
const MOST_DIGITS: usize = 20;

// The number that digits stand for, up to a limit. It stops as soon as the limit is passed, so nothing overflows, however many digits come.
fn value_up_to(s: &[u8], limit: u32) -> Option<u32>
    requires { all is_digit s.now ≡ true }
    ensures { result ≡ value_up_to limit s.now }
{
    let limit = u64::from(limit);
    let mut value = 0u64;
    for b in s {
        value = value * 10 + u64::from(*b - b'0');
        if limit < value {
            return None;
        }
    }
    Some(value as u32)
}

// Whether the bytes are one or more digits, the first of several not 0.
#[tactic(auto, unfolding(crate::specs::Decimals::is_decimal, crate::specs::Decimals::leads_with_zero, laws::specs::Lists::starts_with))]
fn is_decimal(s: &[u8]) -> bool
    ensures { result ≡ is_decimal s.now }
{
    !s.is_empty() && all_in(s, Class::Digit) && !matches!(s, [b'0', _, ..])
}

// The number that the bytes are in decimal, without leading zeros, up to a limit, however many digits come.
#[tactic(auto, unfolding(crate::specs::Decimals::is_decimal, crate::specs::Decimals::value_up_to, crate::specs::Decimals::decimal_up_to))]
pub fn decimal(s: &[u8], limit: u32) -> Option<u32>
    ensures answer { result ≡ decimal_up_to limit s.now }
    ensures malformed { is_malformed result ≡ not (is_up_to limit s.now) }
    ensures value { value_in result ≡ cond (is_up_to limit s.now) (value_of s.now) 0 }
{
    if !is_decimal(s) {
        return None;
    }
    value_up_to(s, limit)
}

// The digit of a number below ten.
fn digit(n: u64) -> u8
    requires { n < 10 }
    ensures { result ≡ digit_of n }
{
    n as u8 + b'0'
}

// Puts the digits of n at the place `at` and answers where they end, as `put` does.
pub fn put_decimal(out: &mut [u8], at: usize, n: u64) -> usize
    ensures place { result ≡ end_of out.old at (digits_of n) }
    ensures bytes { out.new ≡ put_at out.old at (digits_of n) }
{
    let mut digits = [0u8; MOST_DIGITS];
    let mut first = MOST_DIGITS - 1;
    let mut left = n;
    while 10 <= left {
        digits[first] = digit(left % 10);
        left /= 10;
        first -= 1;
    }
    digits[first] = digit(left);
    put(out, at, &digits[first..])
}
