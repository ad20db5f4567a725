// The parameters of k and l: they stand between the modes and the list, in the order of the letters.
ghost use Rattle.std.specs.Prelude.{◌≡◌, ◌≤◌, length};
ghost use Rattle.refusal.specs.Faults.{first_fault};
ghost use Rattle.refusal.specs.Refusals.{told_fault};
ghost use Rattle.message.specs.Parts.{content_by};
ghost use Rattle.sjoin.specs.Modes.{letters_of, parametered, argument_of};
ghost use Rattle.sjoin.specs.Faults.{arguments_at, argument_checks, count_checks, site_at};
ghost use Rattle.sjoin.specs.Join.{modes_in, arguments_in};
ghost use Rattle.sjoin.specs.Private.Scanning.{placed, Parted, Matched};
ghost use Rattle.sjoin.specs.Private.Parts.{found_among};

use crate::letters::{check_argument, has_parameter, letters_of};
use message::Message;
use message::spans::param_in;
use refusal::{Fault, Refusal};
use std::cmp::Ordering;

// The place of the modes among the parameters.
pub(crate) const MODES_AT: usize = 2;

// The place of the first parameter behind the modes.
const ARGUMENTS_AT: usize = 3;

// How many letters have a parameter.
fn wanted(modes: &[u8]) -> usize
    ensures { result ≡ length (parametered (letters_of modes.now)) }
{
    letters_of(modes)
        .iter()
        .filter(|x| has_parameter(**x))
        .count()
}

// The first parameter that is bad for its letter: there are as many between modes and list as letters that have one.
#[tactic(auto, using(crate::proofs::Parameters::weighing))]
fn check_each(text: &[u8], m: Message, modes: &[u8], last: usize) -> Result<(), Fault>
    requires { Matched (content_by text.now m) modes.now last }
    ensures { told_fault result ≡ placed (site_at (length text.now) m) (first_fault (argument_checks arguments_at (parametered (letters_of modes.now)) (arguments_in (content_by text.now m)))) }
{
    let mut at = ARGUMENTS_AT;
    for letter in letters_of(modes) {
        if has_parameter(*letter) {
            if let Err(refusal) = check_argument(*letter, param_in(text, m, at)) {
                return Err(refusal.at(m.params[at].start));
            }
            at += 1;
        }
    }
    Ok(())
}

// The first fault of the parameters between modes and list: too many, at the first surplus one; too few, at the line's end; a bad one. The list is at `last`.
#[tactic(auto, using(crate::proofs::Parameters::counting))]
pub(crate) fn check_arguments(
    text: &[u8],
    m: Message,
    modes: &[u8],
    last: usize,
) -> Result<(), Fault>
    requires { Parted (content_by text.now m) last × (2 ≤ length text.now) }
    ensures { told_fault result ≡ placed (site_at (length text.now) m) (first_fault (count_checks (parametered (letters_of modes.now)) (arguments_in (content_by text.now m)))) }
{
    let needed = wanted(modes);
    match needed.cmp(&(last - ARGUMENTS_AT)) {
        Ordering::Less => Err(Refusal::WrongModeParams.at(m.params[ARGUMENTS_AT + needed].start)),
        Ordering::Greater => Err(Refusal::WrongModeParams.at(text.len() - 2)),
        Ordering::Equal => check_each(text, m, modes, last),
    }
}

// The letter's place among those that have a parameter, if it is one of them.
fn argument_place(modes: &[u8], letter: u8) -> Option<usize>
    ensures { result ≡ found_among letter (parametered (letters_of modes.now)) }
{
    letters_of(modes)
        .iter()
        .filter(|x| has_parameter(**x))
        .position(|x| *x == letter)
}

// The letter's parameter, empty where it has none. The list is at `last`.
pub(crate) fn argument(text: &[u8], m: Message, letter: u8, last: usize) -> &[u8]
    requires { Matched (content_by text.now m) (modes_in (content_by text.now m)) last }
    ensures { result.now ≡ argument_of letter (modes_in (content_by text.now m)) (arguments_in (content_by text.now m)) }
{
    match argument_place(param_in(text, m, MODES_AT), letter) {
        Some(place) => param_in(text, m, ARGUMENTS_AT + place),
        None => &[],
    }
}
