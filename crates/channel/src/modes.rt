// Modes, kept as one byte: each letter has a place, and its bit is 1 shifted to that place.
ghost use Rattle.std.specs.Prelude.{◌≡◌};
ghost use Rattle.channel.specs.Modes.{place_of, has_mode, with_mode};

// How many modes there are: i m n p s t k l.
pub const MODES: u32 = 8;

// The place of k.
pub const KEY_MODE: u32 = 6;

// The place of l.
pub const LIMIT_MODE: u32 = 7;

// The letter's place, where it is one of the eight.
#[tactic(auto, unfolding(crate::specs::Modes::place_among))]
pub fn mode_place(letter: u8) -> Option<u32>
    ensures { result ≡ place_of letter }
{
    match letter {
        b'i' => Some(0),
        b'm' => Some(1),
        b'n' => Some(2),
        b'p' => Some(3),
        b's' => Some(4),
        b't' => Some(5),
        b'k' => Some(KEY_MODE),
        b'l' => Some(LIMIT_MODE),
        _ => None,
    }
}

// Whether the byte has the mode at a place.
// Kept (2): `links::has_link` is the same of 32 bits, as `with_link` is of `with_mode`: each is one expression, and a trait of bits would be longer.
pub fn has_mode(modes: u8, place: u32) -> bool
    ensures { result ≡ has_mode modes place }
{
    place < MODES && (modes >> place) & 1 == 1
}

// The byte with the mode at a place, if it is one of the eight.
#[tactic(auto, using(laws::proofs::Bitwise::shifted_one), unfolding(crate::specs::Modes::with_mode))]
pub fn with_mode(modes: u8, place: u32) -> u8
    ensures { result ≡ with_mode modes place }
{
    if place < MODES {
        modes | 1 << place
    } else {
        modes
    }
}
