// A text put together piece by piece in lent room.
ghost use Rattle.std.specs.Prelude.{◌≡◌, [], Some, None, MatchOption, length};
ghost use Rattle.std.specs.Option.{option_map, unwrap_or};
ghost use Rattle.octets.specs.Decimals.{digits_of};
ghost use Rattle.octets.specs.Room.{front};
ghost use Rattle.octets.specs.Pages.{fresh, added, text_of, text_for};

use crate::decimals::put_decimal;
use crate::put;
use std::marker::Model;

// The room, and where the text so far ends: one past the room once a piece had none. Then nothing more is put, so no piece is tested and no length is reckoned
// beforehand: whoever writes asks at the end for the text.
#[derive(Drop)]
pub struct Pen<'a> {
    room: &'a mut [u8],
    at: usize,
}

impl<'a> Model for Pen<'a> {
    ghost use Rattle.octets.specs.Pages.{Page, page_of};

    ghost Value = { Page };

    ghost view = { λ p. page_of p.room.now p.at };
}

impl<'a> Pen<'a> {
    // Nothing is put yet.
    pub fn new(room: &'a mut [u8]) -> Pen<'a>
        ensures { result ≡ fresh (length room.old) }
    {
        Pen { room, at: 0 }
    }

    // Puts p behind the text.
    pub fn put(&mut self, p: &[u8])
        ensures { self.new ≡ added self.old p.now }
    {
        self.at = put(self.room, self.at, p);
    }

    // Puts the digits of n behind the text.
    pub fn put_decimal(&mut self, n: u64)
        ensures { self.new ≡ added self.old (digits_of n) }
    {
        self.at = put_decimal(self.room, self.at, n);
    }

    // The text, if all of it had room.
    pub fn text(&self) -> Option<&[u8]>
        ensures { MatchOption result (text_of self.now ≡ None) (λ t. text_of self.now ≡ Some t.now) }
    {
        self.room.get(..self.at)
    }

    // Copies the text to the front of the output, if all of it had room, and has room there, and answers how many bytes it has.
    pub fn copy_to(&self, out: &mut [u8]) -> Option<usize>
        ensures length { result ≡ option_map length (text_for out.old self.now) }
        ensures output { out.new ≡ front (unwrap_or (text_for out.old self.now) []) out.old }
    {
        let text = self.text()?;
        if out.len() < text.len() {
            return None;
        }
        put(out, 0, text);
        Some(text.len())
    }
}
