// SJOIN: what its line asks for, and what that comes to in the slot that its channel uses. Nothing is written.
ghost use Rattle.std.specs.Prelude.{◌≡◌, ◌≤◌, length};
ghost use Rattle.channel.specs.Standing.{bare as bare_of};
ghost use Rattle.message.specs.Grammar.{line_limit};
ghost use Rattle.table.specs.Slots.{as_found};
ghost use Rattle.relay.specs.Commands.{Sjoin};
ghost use Rattle.relay.specs.Private.Work.{by_number, by_place};
ghost use Rattle.relay.specs.Private.Commands.{asked_by};
ghost use Rattle.relay.specs.Private.Sjoin.{told_of, joins as joins_of, joins_held, joins_found};

use crate::{Change, Deed, Request, Sending};
use channel::{Member, Record};
use merging::combine;
use message::Message;
use refusal::{Fault, Refusal};
use sjoin::read_message;
use table::Found;

// SJOIN: the name, and the record that the line tells of.
pub(crate) fn join_request(line: &[u8], m: Message) -> Result<Request, Fault>
    requires { length line.now ≤ line_limit }
    ensures { by_place result ≡ asked_by Sjoin line.now m }
{
    let incoming = read_message(line, m)?;
    let name = m.params[1];
    Ok(Request::Sjoin { name, incoming })
}

// The members without status.
fn bare(members: [Member; Record::MEMBERS]) -> [Member; Record::MEMBERS]
    ensures { result ≡ bare_of members }
{
    members.map(|m| Member { status: 0, ..m })
}

// What goes out of an incoming record, by the one that results: for a later incoming time no modes and bare ids.
#[tactic(auto, unfolding(crate::specs::Private::Sjoin::told_of))]
fn outgoing(res: &Record, incoming: &Record) -> Record
    ensures { result ≡ told_of res.now incoming.now }
{
    let told = Record {
        name: res.name,
        name_len: res.name_len,
        ..*incoming
    };
    if incoming.time == res.time {
        return told;
    }
    Record {
        time: res.time,
        modes: 0,
        key: [0; Record::KEY],
        key_len: 0,
        limit: 0,
        members: bare(incoming.members),
        ..told
    }
}

// An incoming record is to change what a slot holds into the record that results, and its ban list is to be emptied if so.
fn set(slot: usize, next: Record, emptied: bool, incoming: &Record) -> Change
    ensures { result ≡ joins_of slot next emptied incoming.now }
{
    let told = outgoing(&next, incoming);
    Change {
        deed: Deed::Set {
            slot,
            record: next,
            emptied,
        },
        sending: Sending::Anew { told },
    }
}

// An incoming record is to be merged into the one that a slot holds; an earlier time empties its ban list. Both are well formed, and of one channel: neither is
// tested again.
#[tactic(auto, unfolding(crate::specs::Private::Sjoin::joins_held))]
fn merged(slot: usize, held: &Record, incoming: &Record) -> Result<Change, Refusal>
    ensures { by_number result ≡ joins_held slot held.now incoming.now }
{
    let next = combine(*held, *incoming)?;
    Ok(set(slot, next, incoming.time < held.time, incoming))
}

// An incoming record is to be merged into the one that has its name, or opens the lowest free slot.
pub(crate) fn joins(found: Found, incoming: &Record) -> Result<Change, Refusal>
    ensures { by_number result ≡ joins_found (as_found found.entry).slot (as_found found.entry).«record» incoming.now }
{
    match found {
        Found::Held(k, held) => merged(k, held, incoming),
        Found::Free(k) => Ok(set(k, *incoming, false, incoming)),
        Found::Full => Err(Refusal::NoFreeSlot),
    }
}
