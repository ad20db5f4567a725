// The modes of an SJOIN line: their letters, and which of them have a parameter.
ghost use Rattle.std.specs.Prelude.{◌≡◌, cond};
ghost use Rattle.refusal.specs.Numbers.{accepted};
ghost use Rattle.refusal.specs.Faults.{first_fault};
ghost use Rattle.refusal.specs.Refusals.{answered, told_fault};
ghost use Rattle.channel.specs.Modes.{with_mode, mode_place};
ghost use Rattle.sjoin.specs.Modes.{letters_of, has_parameter, modes_byte, good_argument};
ghost use Rattle.sjoin.specs.Faults.{own_checks, argument_number};
ghost use Rattle.sjoin.specs.Private.Scanning.{letter_place, placed};
ghost use Rattle.sjoin.specs.Private.Parts.{limit_in};

use channel::Record;
use channel::key::is_key;
use channel::modes::{has_mode, mode_place, with_mode};
use octets::decimals::decimal;
use refusal::{Fault, Refusal};

// The first letter at fault, by its place in the modes: '+' stands first, then letters of the eight, each at most once.
#[tactic(auto, using(crate::proofs::Modes::judging))]
pub(crate) fn check_letters(modes: &[u8]) -> Result<(), Fault>
    ensures { told_fault result ≡ placed letter_place (first_fault (own_checks modes.now)) }
{
    let Some(letters) = modes.strip_prefix(b"+") else {
        return Err(Refusal::UnknownMode.at(0));
    };
    let mut seen = 0;
    for (i, letter) in letters.iter().enumerate() {
        let Some(mode) = mode_place(*letter) else {
            return Err(Refusal::UnknownMode.at(i + 1));
        };
        if has_mode(seen, mode) {
            return Err(Refusal::ModeTwice.at(i + 1));
        }
        seen = with_mode(seen, mode);
    }
    Ok(())
}

// The letters: what follows '+'.
pub(crate) fn letters_of(modes: &[u8]) -> &[u8]
    ensures { result.now ≡ letters_of modes.now }
{
    modes.get(1..).unwrap_or(&[])
}

// The byte with the mode of a letter, if it is one of the eight.
#[tactic(auto, unfolding(channel::specs::Modes::with_mode))]
fn with_letter(byte: u8, letter: u8) -> u8
    ensures { result ≡ with_mode byte (mode_place letter) }
{
    mode_place(letter).map_or(byte, |mode| with_mode(byte, mode))
}

// The bits of all letters.
pub(crate) fn modes_byte(modes: &[u8]) -> u8
    ensures { result ≡ modes_byte modes.now }
{
    letters_of(modes)
        .iter()
        .fold(0, |byte, letter| with_letter(byte, *letter))
}

// Whether the letter has a parameter: k and l do.
pub(crate) fn has_parameter(letter: u8) -> bool
    ensures { result ≡ has_parameter letter }
{
    letter == b'k' || letter == b'l'
}

// The limit that the bytes are, if they are one: 1 to 65,535.
#[tactic(auto, unfolding(crate::specs::Private::Parts::limit_in, crate::specs::Modes::is_limit, octets::specs::Decimals::decimal_up_to))]
pub(crate) fn limit_in(s: &[u8]) -> Option<u16>
    ensures { result ≡ limit_in s.now }
{
    decimal(s, Record::LIMIT)
        .filter(|n| *n != 0)
        .map(|n| n as u16)
}

// Whether a parameter is good for its letter: a key for k, a limit for l.
#[tactic(auto, unfolding(crate::specs::Modes::good_argument, crate::specs::Private::Parts::limit_in))]
pub(crate) fn check_argument(letter: u8, s: &[u8]) -> Result<(), Refusal>
    ensures { answered result ≡ cond (good_argument letter s.now) accepted (argument_number letter) }
{
    match letter {
        b'k' if is_key(s) => Ok(()),
        b'k' => Err(Refusal::BadKey),
        _ if limit_in(s).is_some() => Ok(()),
        _ => Err(Refusal::BadLimit),
    }
}
