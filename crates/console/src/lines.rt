// The line under way. The input comes in pieces of any size, holds any bytes, and its lines are of any length; of a longer line than a request can be, the rest is
// passed over.
ghost use Rattle.std.specs.Prelude.{◌≡◌, [], ◌++◌, ◌≤◌, length};
ghost use Rattle.std.specs.Iterator.{YieldsFirstRef, item_count};
ghost use Rattle.console.specs.Lines.{input_limit, held_in, kept, lines_of, lines_left, ends_in_lf};

use arrayvec::ArrayVec;
use octets::place_of;

// The most bytes that are kept of an input line. A number of nine digits, a SPACE, and of the line behind them one byte more than the relay takes are 523; a
// question needs more: `banned`, a SPACE, a name of 50 bytes, a SPACE, a text of one byte more than is matched, and CR LF.
pub(crate) const INPUT_LIMIT: usize = 573;

// What is kept of the line's bytes so far.
#[derive(Drop)]
pub(crate) struct Pending {
    bytes: ArrayVec<u8, INPUT_LIMIT>,
}

impl Pending {
    // Nothing has come of the line.
    pub(crate) fn empty() -> Pending
        ensures { held_in result ≡ [] }
    {
        Pending {
            bytes: ArrayVec::new(),
        }
    }

    // What is kept.
    pub(crate) fn bytes(&self) -> &[u8]
        ensures kept { result.now ≡ held_in self.now }
        ensures few { length result.now ≤ input_limit }
    {
        self.bytes.as_slice()
    }

    // More bytes of the line come. What it has past the limit is left off.
    pub(crate) fn extend(&mut self, more: &[u8])
        ensures { held_in self.new ≡ kept (held_in self.old ++ more.now) }
    {
        let n = more.len().min(self.bytes.remaining_capacity());
        let _ = self.bytes.try_extend_from_slice(&more[..n]);
    }
}

// The lines that are left of a piece: each up to and including its LF, and what stands behind the last LF.
#[derive(Drop)]
pub(crate) struct Lines<'a> {
    rest: &'a [u8],
}

impl<'a> Lines<'a> {
    // Those of a piece.
    pub(crate) fn of(piece: &'a [u8]) -> Lines<'a>
        ensures { lines_left result ≡ lines_of piece.now }
    {
        Lines { rest: piece }
    }
}

impl<'a> Iterator for Lines<'a> {
    type Item = &'a [u8];

    ghost next_gives = { YieldsFirstRef lines_left };

    ghost remaining = { item_count lines_left };

    // The first line that is left.
    fn next(&mut self) -> Option<&'a [u8]> {
        let text = self.rest;
        if text.is_empty() {
            return None;
        }
        let end = text.len().min(place_of(text, b'\n') + 1);
        self.rest = &text[end..];
        Some(&text[..end])
    }
}

// Whether the last byte is LF.
pub(crate) fn ends_in_lf(bytes: &[u8]) -> bool
    ensures { result ≡ ends_in_lf bytes.now }
{
    bytes.ends_with(b"\n")
}
