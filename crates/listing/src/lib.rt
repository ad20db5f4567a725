// The table as text, two lines for each used slot (document 02, §5): what an SJOIN tells of the channel, and its masks.
#![tactic(auto)]

ghost use Rattle.std.specs.Prelude.{◌≡◌, cond, [], ◌∷◌, ◌++◌, ◌≤◌, length, ltb};
ghost use Rattle.refusal.specs.Rules.{emitted};
ghost use Rattle.laws.specs.Lists.{separated};
ghost use Rattle.octets.specs.Bytes.{space};
ghost use Rattle.octets.specs.Room.{front};
ghost use Rattle.octets.specs.Pages.{added};
ghost use Rattle.bans.specs.Masks.{masks};
ghost use Rattle.bans.specs.Records.{whole};
ghost use Rattle.writer.specs.Writing.{written_answer};
ghost use Rattle.table.specs.Network.{network_of, table_with};
ghost use Rattle.listing.specs.Listing.{channel_lines, slot_lines, listing, listing_limit, listing_rules};
ghost use Rattle.listing.specs.Private.Slots.{slot_limit};

use bans::{BanList, count, list_at, mask_at};
use channel::Record;
use octets::pen::Pen;
use refusal::Refusal;
use table::Head;
use telling::put_description;
use writer::Written;

// The most bytes that a table is as text.
pub const LISTING_LIMIT: usize = 65632;

// Puts a mask, behind a SPACE unless it is the first of its list.
#[tactic(auto, using(octets::proofs::Pages::pieces))]
fn put_mask(text: &mut Pen<'_>, i: usize, mask: &[u8])
    ensures { text.new ≡ added text.old (cond (ltb 0 i) (space ∷ []) [] ++ mask.now) }
{
    if 0 < i {
        text.put(b" ");
    }
    text.put(mask);
}

// Puts the masks of a list, one SPACE between them.
fn put_masks(text: &mut Pen<'_>, list: &[u8])
    ensures { text.new ≡ added text.old (separated space (masks list.now)) }
{
    for i in 0..count(list) {
        put_mask(text, i, mask_at(list, i));
    }
}

// Puts the two lines of a channel.
#[tactic(auto, using(octets::proofs::Pages::pieces), unfolding(crate::specs::Listing::channel_lines))]
fn put_channel(text: &mut Pen<'_>, r: Record, list: &[u8])
    ensures lines { text.new ≡ added text.old (channel_lines (whole r (record { room = list.now }))) }
    ensures few { length (channel_lines (whole r (record { room = list.now }))) ≤ slot_limit }
{
    put_description(text, r);
    text.put(b"\n");
    put_masks(text, list);
    text.put(b"\n");
}

// Puts the lines of a slot: a free one has none.
#[tactic(auto, using(octets::proofs::Pages::pieces), unfolding(crate::specs::Listing::slot_lines))]
fn put_slot(text: &mut Pen<'_>, r: Record, list: &[u8])
    ensures lines { text.new ≡ added text.old (slot_lines (whole r (record { room = list.now }))) }
    ensures few { length (slot_lines (whole r (record { room = list.now }))) ≤ slot_limit }
{
    if r.count != 0 {
        put_channel(text, r, list);
    }
}

// Puts the lines of every used slot, in order. They are LISTING_LIMIT bytes at most.
pub fn put_listing(text: &mut Pen<'_>, t: Head, bans: &[u8; BanList::BANS])
    ensures lines { text.new ≡ added text.old (listing (network_of (table_with t bans.now))) }
    ensures limit { (length (listing (network_of (table_with t bans.now))) ≤ listing_limit) × (LISTING_LIMIT ≡ listing_limit) }
{
    for k in 0..Record::SLOTS {
        put_slot(text, t.slots[k], list_at(bans, k));
    }
}

// Writes the same to the front of the output. Room for LISTING_LIMIT bytes is enough.
pub fn write_listing(t: Head, bans: &[u8; BanList::BANS], out: &mut [u8]) -> Written
    ensures answer { result ≡ written_answer (listing_rules (network_of (table_with t bans.now)) out.old) (listing (network_of (table_with t bans.now))) }
    ensures output { out.new ≡ front (emitted (listing_rules (network_of (table_with t bans.now)) out.old) (listing (network_of (table_with t bans.now)))) out.old }
    ensures limit { (length (listing (network_of (table_with t bans.now))) ≤ listing_limit) × (LISTING_LIMIT ≡ listing_limit) }
{
    let mut room = [0u8; LISTING_LIMIT];
    let mut text = Pen::new(&mut room);
    put_listing(&mut text, t, bans);
    text.copy_to(out).ok_or(Refusal::NoRoom).into()
}
