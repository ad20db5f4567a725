// Taking a line (document 01, 'SJOIN', 'What goes out'; document 02, §2 and §6): SJOIN, PART, QUIT and BMASK judged, folded into the table and relayed. Any bytes, on
// any link, with any table and any lent output, get one answer.
#![tactic(auto)]

mod acting;
mod joining;
mod judging;
mod masking;
mod parting;
mod quitting;
mod requests;

ghost use Rattle.std.specs.Prelude.{◌≡◌, length};
ghost use Rattle.octets.specs.Room.{front};
ghost use Rattle.relay.specs.Arrival.{arrival};
ghost use Rattle.table.specs.Network.{table_with};
ghost use Rattle.relay.specs.Relay.{process_answer, taken_of, taken_by, sent};

use acting::{act, receivers, send};
use bans::BanList;
use channel::Record;
use judging::{entry, settled};
use links::count;
use message::{Span, parse};
use names::USER_ID;
use refusal::{ACCEPTED, Fault};
use requests::requested;
use table::{Head, is_well_formed};

// What a line asks for by itself: that a channel comes in, that a user leaves a channel or all of them, or that a channel gets masks of a time. A name is a part of
// the line.
#[derive(Clone, Copy)]
enum Request {
    Sjoin { name: Span, incoming: Record },
    Part { name: Span, user: [u8; USER_ID] },
    Quit { user: [u8; USER_ID] },
    Bmask { name: Span, time: u32 },
}

// What is done: nothing; a slot set to another record, its ban list emptied if so; a user dropped from every slot; the masks that the line lists added to those of a
// slot.
#[derive(Clone, Copy)]
enum Deed {
    Nothing,
    Set {
        slot: usize,
        record: Record,
        emptied: bool,
    },
    Drop {
        user: [u8; USER_ID],
    },
    Add {
        slot: usize,
    },
}

// What goes out: nothing; the line as read; an SJOIN that tells of a record anew.
#[derive(Clone, Copy)]
enum Sending {
    Silent,
    AsRead,
    Anew { told: Record },
}

// What a request comes to.
#[derive(Clone, Copy)]
struct Change {
    deed: Deed,
    sending: Sending,
}

// The links that a line goes to, and how many bytes of it were written.
#[derive(Clone, Copy, Debug, PartialEq, Eq)]
pub struct Relayed {
    pub set: u32,
    pub len: usize,
}

// The head after, or as given; how many bytes were written; the place in the line of what is wrong with its modes, 0 with any other number and with none (document 02,
// §6); the links that the line goes to, and how many they are; and the number of a refusal, or ACCEPTED. The head comes first: behind a smaller field it is copied twice
// more.
#[repr(C)]
#[derive(Clone, Copy)]
pub struct Taken {
    pub head: Head,
    pub len: usize,
    pub place: usize,
    pub set: u32,
    pub count: u32,
    pub number: u8,
}

// Takes a line that came from a link: table, output and link are tested, then the line by itself, which is read once, then what it comes to in the slot
// that its channel's name uses; unless one of them refuses it, the line that goes out is written to the front of the output, and the head and the lent ban lists
// change.
pub fn take(
    t: &mut Head,
    bans: &mut [u8; BanList::BANS],
    link: u32,
    line: &[u8],
    out: &mut [u8],
) -> Result<Relayed, Fault>
    ensures answer { taken_by t.new result ≡ taken_of (process_answer (table_with t.old bans.old) (arrival link line.now) (length out.old)) }
    ensures lists { bans.new ≡ (process_answer (table_with t.old bans.old) (arrival link line.now) (length out.old)).table.bans }
    ensures output { out.new ≡ front (sent (table_with t.old bans.old) (arrival link line.now) (length out.old)) out.old }
{
    let good = is_well_formed(t, bans);
    entry(good, out.len(), t.links, link)?;
    let answer = parse(line);
    let Ok(m) = answer else {
        return Err(answer.unwrap_err().into());
    };
    let request = requested(line, m)?;
    let change = settled(t, bans, line, m, &request)?;
    let len = send(line, m, &change.sending, out);
    let set = receivers(&change.sending, t.links, link);
    act(t, bans, line, m, &change.deed);
    Ok(Relayed { set, len })
}

// The same with the head by value, and an answer that C reads.
pub fn process(
    t: Head,
    bans: &mut [u8; BanList::BANS],
    link: u32,
    line: &[u8],
    out: &mut [u8],
) -> Taken
    ensures answer { result ≡ taken_of (process_answer (table_with t bans.old) (arrival link line.now) (length out.old)) }
    ensures lists { bans.new ≡ (process_answer (table_with t bans.old) (arrival link line.now) (length out.old)).table.bans }
    ensures output { out.new ≡ front (sent (table_with t bans.old) (arrival link line.now) (length out.old)) out.old }
{
    let mut head = t;
    match take(&mut head, bans, link, line, out) {
        Ok(Relayed { set, len }) => Taken {
            head,
            len,
            place: 0,
            set,
            count: count(set),
            number: ACCEPTED,
        },
        Err(fault) => Taken {
            head,
            len: 0,
            place: fault.place,
            set: 0,
            count: 0,
            number: fault.refusal.number(),
        },
    }
}
