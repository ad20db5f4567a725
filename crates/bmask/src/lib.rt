// What a BMASK line says (document 02, §2): `:sid BMASK time name b list`, judged by the numbers 12 to 16 and 26; and the masks of its list added to
// those of a channel.
#![tactic(auto)]

ghost use Rattle.std.specs.Prelude.{◌≡◌};
ghost use Rattle.laws.specs.Lists.{same};
ghost use Rattle.bans.specs.Putting.{added, add_answer};
ghost use Rattle.bmask.specs.Masks.{ban_type, listed, good_masks, listing_in, as_listing};

use bans::{BanList, is_mask, put};
use message::spans::{param_in, prefix_in};
use message::{Message, words};
use names::is_server_id;
use refusal::Refusal;
use sjoin::read_head;

// The parameters of a line.
const PARAMS: usize = 4;

// The place of the type among the parameters.
const TYPE_AT: usize = 2;

// The place of the list among the parameters.
const LIST_AT: usize = 3;

// Whether the type is the one that there is: `b`.
fn is_ban(kind: &[u8]) -> bool
    ensures { result ≡ same kind.now ban_type }
{
    kind == b"b".as_slice()
}

// Whether a list is good: one mask or more, and nothing else. No word is looked at behind one that is no mask.
fn masks_good(list: &[u8]) -> bool
    ensures { result ≡ good_masks list.now }
{
    words(list).next().is_some() && words(list).all(|word| is_mask(word))
}

// What a message says whose parts are spans of the text: its time, or the first of the numbers 12 to 16 and 26 that applies.
#[tactic(auto, using(crate::proofs::Rules::judging), unfolding(crate::specs::Masks::listing_in, crate::specs::Masks::bmask_rules, refusal::specs::Rules::first_of))]
pub fn read_message(text: &[u8], m: Message) -> Result<u32, Refusal>
    ensures { as_listing result ≡ listing_in text.now m }
{
    if m.count != PARAMS {
        return Err(Refusal::WrongParamCount);
    }
    if !is_server_id(prefix_in(text, m)) {
        return Err(Refusal::BadSource);
    }
    let time = read_head(text, m)?;
    if !is_ban(param_in(text, m, TYPE_AT)) || !masks_good(param_in(text, m, LIST_AT)) {
        return Err(Refusal::BadMasks);
    }
    Ok(time)
}

// A channel's list with the masks of a line's list, one after the other. None where over 32 would result.
pub fn add_listed(list: BanList, text: &[u8]) -> Option<BanList>
    ensures { added list result ≡ add_answer (listed text.now) list }
{
    let mut sofar = list;
    for word in words(text) {
        sofar = put(sofar, word)?;
    }
    Some(sofar)
}
