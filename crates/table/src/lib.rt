// The table: sixteen channel slots, the registered links, and a ban list for each slot (document 01, 'What the relay holds'; document 02, §2). Its head, which is
// the slots and the links, goes in and comes back by value; the ban lists are lent beside it.
#![tactic(auto)]

mod slots;

ghost use Rattle.std.specs.Prelude.{◌≡◌};
ghost use Rattle.refusal.specs.Rules.{first_of};
ghost use Rattle.refusal.specs.Refusals.{answered};
ghost use Rattle.table.specs.Network.{head_of, table_with};
ghost use Rattle.table.specs.Table.{empty_table, good_table, link_rules, relinked as relinked_of, register_answer, unregister_answer, registered_of};
ghost use Rattle.table.specs.Slots.{as_found, found_for, slot_number, slot_rules};
ghost use Rattle.table.specs.Banned.{banned_answer};
ghost use Rattle.table.specs.Private.Parts.{banned_as};

use bans::{BanList, clear_all, list_at, some_matches};
use channel::Record;
use glob::TEXT_LIMIT;
use links::{Links, with_link, without_link};
use names::{fold, is_channel};
use refusal::{ACCEPTED, Refusal};
use slots::{are_distinct, are_good};

// What of a table goes by value: sixteen channel slots, a free one being the empty record, and the links.
#[repr(C)]
#[derive(Clone, Copy)]
pub struct Head {
    pub slots: [Record; Record::SLOTS],
    pub links: Links,
}

// The slot that a name uses: the one that holds it, with its record, else the lowest free one; or every slot holds another name.
#[derive(Clone, Copy)]
pub enum Found<'a> {
    Held(usize, &'a Record),
    Free(usize),
    Full,
}

// The head after, or as given, and the number of a refusal, or ACCEPTED.
#[repr(C)]
#[derive(Clone, Copy)]
pub struct Registered {
    pub head: Head,
    pub number: u8,
}

// Whether a text is banned: the number of a refusal, and no; or ACCEPTED, and the answer.
#[repr(C)]
#[derive(Clone, Copy)]
pub struct Banned {
    pub number: u8,
    pub yes: bool,
}

// A question that is refused is answered no.
impl From<Result<bool, Refusal>> for Banned {
    ghost use Rattle.std.specs.Prelude.{◌≡◌};
    ghost use Rattle.table.specs.Private.Parts.{banned_as};

    ghost from_gives = { λ answer b. b ≡ banned_as answer };

    fn from(answer: Result<bool, Refusal>) -> Banned {
        Banned {
            number: refusal::number(&answer),
            yes: answer.unwrap_or(false),
        }
    }
}

impl Head {
    // Every slot free, no link registered; and every byte of the lists is made zero.
    pub fn empty(bans: &mut [u8; BanList::BANS]) -> Head
        ensures answer { result ≡ head_of empty_table }
        ensures lists { bans.new ≡ empty_table.bans }
    {
        clear_all(bans);
        Head {
            slots: [Record::empty(); Record::SLOTS],
            links: Links::none(),
        }
    }
}

// Whether used slots hold well-formed records with their lists, no two with equal names, and free ones are zero, their lists too.
pub fn is_well_formed(t: &Head, bans: &[u8; BanList::BANS]) -> bool
    ensures { result ≡ good_table (table_with t.now bans.now) }
{
    are_good(&t.slots, bans) && are_distinct(&t.slots)
}

// The first of the refusals 1 and 3 that applies: the table isn't well formed, or the link is none.
#[tactic(auto, unfolding(crate::specs::Table::link_rules, refusal::specs::Rules::first_of))]
fn check_link(t: &Head, bans: &[u8; BanList::BANS], link: u32) -> Result<(), Refusal>
    ensures { answered result ≡ first_of (link_rules (table_with t.now bans.now) link) }
{
    if !is_well_formed(t, bans) {
        return Err(Refusal::NotWellFormed);
    }
    if Links::COUNT <= link {
        return Err(Refusal::BadLink);
    }
    Ok(())
}

// The head with other links, unless the table isn't well formed or the link is none.
fn relinked(t: Head, bans: &[u8; BanList::BANS], link: u32, links: Links) -> Registered
    ensures { result ≡ registered_of (relinked_of (table_with t bans.now) link links) }
{
    match check_link(&t, bans, link) {
        Ok(()) => Registered {
            head: Head { links, ..t },
            number: ACCEPTED,
        },
        Err(refusal) => Registered {
            head: t,
            number: refusal.number(),
        },
    }
}

// The head with a link registered.
pub fn register(t: Head, bans: &[u8; BanList::BANS], link: u32) -> Registered
    ensures { result ≡ registered_of (register_answer (table_with t bans.now) link) }
{
    relinked(t, bans, link, with_link(t.links, link))
}

// The head with a link dropped.
pub fn unregister(t: Head, bans: &[u8; BanList::BANS], link: u32) -> Registered
    ensures { result ≡ registered_of (unregister_answer (table_with t bans.now) link) }
{
    relinked(t, bans, link, without_link(t.links, link))
}

// The slot that a name uses, with its record, so that nobody need look into the table again. Each used slot's folded name is compared byte by byte; the
// first byte that differs leaves for the next slot.
// Kept (3): document 01 names this form, a labelled loop that the first byte that differs leaves (docs/PROMISES.md, 'Places and their forms').
pub fn find<'a>(t: &'a Head, name: &[u8]) -> Found<'a>
    ensures found { as_found result ≡ found_for t.now.slots name.now }
    ensures number { slot_number (as_found result).slot ≡ first_of (slot_rules t.now.slots name.now) }
{
    'slots: for (k, r) in t.slots.iter().enumerate() {
        if r.count == 0 || r.name().len() != name.len() {
            continue 'slots;
        }
        for (held, sought) in r.name().iter().zip(name) {
            if fold(*held) != fold(*sought) {
                continue 'slots;
            }
        }
        return Found::Held(k, r);
    }
    match t.slots.iter().position(|r| r.count == 0) {
        Some(k) => Found::Free(k),
        None => Found::Full,
    }
}

// Whether a text is banned from the channel of a name: whether some mask of its list matches it.
fn is_text_banned(
    t: &Head,
    bans: &[u8; BanList::BANS],
    name: &[u8],
    text: &[u8],
) -> Result<bool, Refusal>
    ensures { banned_as result ≡ banned_answer (table_with t.now bans.now) name.now text.now }
{
    if !is_well_formed(t, bans) {
        return Err(Refusal::NotWellFormed);
    }
    if !is_channel(name) {
        return Err(Refusal::BadName);
    }
    let Found::Held(k, _) = find(t, name) else {
        return Err(Refusal::NoSuchChannel);
    };
    if TEXT_LIMIT < text.len() {
        return Err(Refusal::TextTooLong);
    }
    Ok(some_matches(list_at(bans, k), text))
}

// The same as C has it.
pub fn is_banned(t: &Head, bans: &[u8; BanList::BANS], name: &[u8], text: &[u8]) -> Banned
    ensures { result ≡ banned_answer (table_with t.now bans.now) name.now text.now }
{
    is_text_banned(t, bans, name, text).into()
}
