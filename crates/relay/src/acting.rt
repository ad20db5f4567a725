// What a judgement asks for is done: the table changed, the line sent, and to which links.
ghost use Rattle.std.specs.Prelude.{◌≡◌, map, ◌<◌, length};
ghost use Rattle.octets.specs.Room.{front};
ghost use Rattle.channel.specs.Limits.{slot_count};
ghost use Rattle.channel.specs.Members.{without as without_of};
ghost use Rattle.message.specs.Parts.{content_by};
ghost use Rattle.bans.specs.Slots.{stored};
ghost use Rattle.table.specs.Network.{network_of, table_with, emptied_if};
ghost use Rattle.relay.specs.Leaving.{left_lists};
ghost use Rattle.relay.specs.Private.Bmask.{with_masks};
ghost use Rattle.relay.specs.Private.Acting.{head_with, slot_set, done_by, passed_on, told_anew, written_by, sent_to};

use crate::masking::MASKS_AT;
use crate::{Deed, Sending};
use bans::{BanList, clear, load, store};
use bmask::add_listed;
use channel::Record;
use channel::members::without;
use links::{Links, relay_set};
use message::Message;
use message::spans::{param_in, prefix_in};
use names::USER_ID;
use table::Head;
use telling::write_join;
use writer::forward_message;

// Empties the ban list of slot k, if so.
fn empty_if(bans: &mut [u8; BanList::BANS], k: usize, emptied: bool)
    ensures { bans.new ≡ emptied_if emptied k bans.old }
{
    if emptied {
        clear(bans, k);
    }
}

// Drops a user from every slot; where it was the last one of a slot, the ban list is emptied. A free slot isn't looked through: whatever it holds, the empty record is
// left.
fn drop_user(
    slots: &mut [Record; Record::SLOTS],
    bans: &mut [u8; BanList::BANS],
    user: [u8; USER_ID],
)
    ensures slots { slots.new ≡ map (without_of user) slots.old }
    ensures lists { bans.new ≡ left_lists user 0 slots.old bans.old }
{
    for k in 0..Record::SLOTS {
        if slots[k].count == 0 {
            slots[k] = Record::empty();
            continue;
        }
        let left = without(&slots[k], user);
        slots[k] = left;
        empty_if(bans, k, left.count == 0);
    }
}

// Adds the masks of a list to those of slot k; where there is no room for them, none.
fn add_masks(bans: &mut [u8; BanList::BANS], k: usize, list: &[u8])
    ensures { bans.new ≡ stored bans.old k (with_masks bans.old k list.now).list }
{
    let held = load(bans, k);
    store(bans, k, add_listed(held, list).unwrap_or(held));
}

// Does what is asked for: the head and the ban lists change. Inlined, so that the compiler sees that the record lies apart from the head and copies it by `memcpy`; else it
// asks the C library for `memmove`.
#[inline(always)]
pub(crate) fn act(
    t: &mut Head,
    bans: &mut [u8; BanList::BANS],
    line: &[u8],
    m: Message,
    deed: &Deed,
)
    requires { slot_set deed.now < slot_count }
    ensures head { t.new ≡ head_with t.old (done_by deed.now (content_by line.now m) (network_of (table_with t.old bans.old))).slots }
    ensures lists { bans.new ≡ (done_by deed.now (content_by line.now m) (network_of (table_with t.old bans.old))).bans }
{
    match deed {
        Deed::Nothing => {}
        Deed::Set {
            slot,
            record,
            emptied,
        } => {
            t.slots[*slot] = *record;
            empty_if(bans, *slot, *emptied);
        }
        Deed::Drop { user } => drop_user(&mut t.slots, bans, *user),
        Deed::Add { slot } => add_masks(bans, *slot, param_in(line, m, MASKS_AT)),
    }
}

// Writes the SJOIN that goes out, and answers its length.
#[tactic(auto, unfolding(writer::specs::Writing::written_answer))]
fn tell(line: &[u8], m: Message, told: &Record, out: &mut [u8]) -> usize
    ensures answer { result ≡ length (told_anew line.now m told.now out.old) }
    ensures output { out.new ≡ front (told_anew line.now m told.now out.old) out.old }
{
    write_join(prefix_in(line, m), *told, out).len
}

// Writes the line as it was read, and answers its length.
#[tactic(auto, unfolding(writer::specs::Writing::written_answer))]
fn pass_on(line: &[u8], m: Message, out: &mut [u8]) -> usize
    ensures answer { result ≡ length (passed_on line.now m out.old) }
    ensures output { out.new ≡ front (passed_on line.now m out.old) out.old }
{
    forward_message(line, m, out).len
}

// Writes what goes out to the front of the output, and answers its length.
pub(crate) fn send(line: &[u8], m: Message, sending: &Sending, out: &mut [u8]) -> usize
    ensures answer { result ≡ length (written_by sending.now line.now m out.old) }
    ensures output { out.new ≡ front (written_by sending.now line.now m out.old) out.old }
{
    match sending {
        Sending::Silent => 0,
        Sending::AsRead => pass_on(line, m, out),
        Sending::Anew { told } => tell(line, m, told, out),
    }
}

// The links that the line goes to: every registered one but its own, or none where nothing goes out.
pub(crate) fn receivers(sending: &Sending, links: Links, link: u32) -> u32
    ensures { result ≡ sent_to sending.now links link }
{
    match sending {
        Sending::Silent => 0,
        Sending::AsRead | Sending::Anew { .. } => relay_set(links, link),
    }
}
