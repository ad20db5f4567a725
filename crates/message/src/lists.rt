// The words of a text, one after the other.
ghost use Rattle.std.specs.Iterator.{YieldsFirstRef, item_count};
ghost use Rattle.message.specs.Listed.{words_left};

use crate::next_word;

// The words that are left of a text: what stands behind those that were taken.
#[derive(Clone, Copy)]
pub struct Words<'a> {
    pub(crate) rest: &'a [u8],
}

impl<'a> Iterator for Words<'a> {
    type Item = &'a [u8];

    ghost next_gives = { YieldsFirstRef words_left };

    ghost remaining = { item_count words_left };

    // The first word that is left.
    #[tactic(auto, using(crate::proofs::Splits::word_within))]
    fn next(&mut self) -> Option<&'a [u8]> {
        let text = self.rest;
        let word = next_word(text, 0);
        if word.start == text.len() {
            return None;
        }
        let behind = &text[word.end..];
        self.rest = behind;
        Some(&text[word.start..word.end])
    }
}
