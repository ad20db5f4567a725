// Masks matched (document 01, 'Names and ids'; 02, §3): '?' matches one byte, '*' any run, the empty one too, every other byte its fold.
// A match goes in steps, each of which is given one mask byte and one text byte at most. Where they don't match, it steps back only to the last star
// passed, whose run then takes one byte more. As many steps as the product of the two lengths, each plus 1, always reach the answer
// (proofs/Claim.antt).
#![tactic(auto)]

ghost use Rattle.std.specs.Prelude.{◌≡◌, ◌≤◌, length};
ghost use Rattle.glob.specs.Mask.{text_limit, matches_byte, matches, match_answer};
ghost use Rattle.glob.specs.Stepping.{look, start, passed, taken, longer, back, mask_ended, step, steps};
ghost use Rattle.glob.specs.Private.Growing.{Growing};

use names::is_alike;
use refusal::{ACCEPTED, Refusal};
use std::ops::ControlFlow;

// The most bytes of a mask, and of a text.
pub const TEXT_LIMIT: usize = 512;

// The number of a refusal, or ACCEPTED, and whether the mask matches the text: a refused match is no.
// Kept (1): C's struct.
#[repr(C)]
#[derive(Clone, Copy)]
pub struct Match {
    pub number: u8,
    pub yes: bool,
}

// A match in progress: the place in the mask and in the text; the place after the last star passed, 0 where none was; and where that star's run
// ends in the text. This type and the next are public, since what is claimed of steps speaks of them (specs/Stepping.antt).
#[derive(Clone, Copy, Default)]
pub struct State {
    pub mask: usize,
    pub text: usize,
    pub after: usize,
    pub run: usize,
}

// What a step comes to: another state, with which the match goes on, or the answer.
pub type Progress = ControlFlow<bool, State>;

// Kept (5): that a state's places have room to grow is asked by each step, and isn't its invariant: what is claimed of steps speaks of any state.
impl State {
    // A star is passed; its run is empty so far.
    fn passed(self) -> Progress
        requires { Growing self }
        ensures { result ≡ passed self }
    {
        let after = self.mask + 1;
        ControlFlow::Continue(State {
            mask: after,
            text: self.text,
            after,
            run: self.text,
        })
    }

    // A mask byte takes a text byte.
    fn taken(self) -> Progress
        requires { Growing self }
        ensures { result ≡ taken self }
    {
        ControlFlow::Continue(State {
            mask: self.mask + 1,
            text: self.text + 1,
            ..self
        })
    }

    // The last star's run takes one byte more, and the match goes on behind both.
    fn longer(self) -> Progress
        requires { Growing self }
        ensures { result ≡ longer self }
    {
        let run = self.run + 1;
        ControlFlow::Continue(State {
            mask: self.after,
            text: run,
            after: self.after,
            run,
        })
    }

    // Back to the last star passed; where there is none, there is no match.
    #[tactic(auto, unfolding(crate::specs::Stepping::back))]
    fn back(self) -> Progress
        requires { Growing self }
        ensures { result ≡ back self }
    {
        if self.after == 0 {
            return ControlFlow::Break(false);
        }
        self.longer()
    }

    // The mask is used up: so is the text, or a star that is the mask's last byte takes what is left of it, or the last star's run must be longer.
    #[tactic(auto, unfolding(crate::specs::Stepping::mask_ended))]
    fn mask_ended(self, text: Option<u8>) -> Progress
        requires { Growing self }
        ensures { result ≡ mask_ended self text }
    {
        if text.is_none() {
            return ControlFlow::Break(true);
        }
        if self.after == 0 {
            return ControlFlow::Break(false);
        }
        if self.after == self.mask {
            return ControlFlow::Break(true);
        }
        self.longer()
    }

    // One step, given the mask's byte and the text's at the state's places. Where the text is used up before a byte of the mask that is no star, the
    // answer is no: a longer run would leave less of it.
    #[tactic(auto, unfolding(crate::specs::Stepping::step, crate::specs::Stepping::compared))]
    fn step(self, mask: Option<u8>, text: Option<u8>) -> Progress
        requires { Growing self }
        ensures { result ≡ step self mask text }
    {
        let Some(m) = mask else {
            return self.mask_ended(text);
        };
        if m == b'*' {
            return self.passed();
        }
        let Some(b) = text else {
            return ControlFlow::Break(false);
        };
        if takes(m, b) {
            return self.taken();
        }
        self.back()
    }
}

// What stands at a place: a byte, or nothing at the end.
fn look(s: &[u8], at: usize) -> Option<u8>
    ensures { result ≡ look s.now at }
{
    s.get(at).copied()
}

// Whether a mask byte other than '*' matches a text byte.
#[tactic(auto, unfolding(crate::specs::Mask::matches_byte))]
fn takes(m: u8, b: u8) -> bool
    ensures { result ≡ matches_byte m b }
{
    m == b'?' || is_alike(m, b)
}

// What so many steps from the start come to, of a mask and a text within the limit.
fn steps(mask: &[u8], text: &[u8], count: usize) -> Progress
    requires { (length mask.now ≤ text_limit) × (length text.now ≤ text_limit) }
    ensures { result ≡ steps mask.now text.now count start }
{
    let mut s = State::default();
    for _ in 0..count {
        s = s.step(look(mask, s.mask), look(text, s.text))?;
    }
    ControlFlow::Continue(s)
}

// Whether a mask and a text within the limit match, by as many steps as always suffice.
fn decide(mask: &[u8], text: &[u8]) -> bool
    requires { (length mask.now ≤ text_limit) × (length text.now ≤ text_limit) }
    ensures { result ≡ matches mask.now text.now }
{
    let ControlFlow::Break(yes) = steps(mask, text, (mask.len() + 1) * (text.len() + 1)) else {
        unreachable!();
    };
    yes
}

// Whether the mask matches the text. Refused where either is over the limit.
#[tactic(auto, unfolding(crate::specs::Mask::match_answer, crate::specs::Mask::match_rules, refusal::specs::Rules::first_of))]
pub fn matches(mask: &[u8], text: &[u8]) -> Match
    ensures { result ≡ match_answer mask.now text.now }
{
    if TEXT_LIMIT < mask.len() || TEXT_LIMIT < text.len() {
        return Match {
            number: Refusal::TextTooLong.number(),
            yes: false,
        };
    }
    Match {
        number: ACCEPTED,
        yes: decide(mask, text),
    }
}
