// PART: what its line asks for, and what that comes to in the slot that its channel uses. Nothing is written.
ghost use Rattle.std.specs.Prelude.{◌≡◌};
ghost use Rattle.message.specs.Parts.{content_by};
ghost use Rattle.table.specs.Slots.{as_found};
ghost use Rattle.relay.specs.Private.Work.{by_number, ruled};
ghost use Rattle.relay.specs.Private.Part.{parts_held, parts_found, work};

use crate::requests::user_in;
use crate::{Change, Deed, Request, Sending};
use channel::Record;
use channel::members::{has_member, without};
use message::Message;
use message::spans::param_in;
use names::{USER_ID, is_channel};
use refusal::Refusal;
use table::Found;

// PART: the channel's name, and the user who leaves it.
pub(crate) fn part_request(line: &[u8], m: Message) -> Result<Request, Refusal>
    ensures { by_number result ≡ ruled (work.own (content_by line.now m)) (work.asks m (content_by line.now m)) }
{
    if !(1..=2).contains(&m.count) {
        return Err(Refusal::WrongParamCount);
    }
    let user = user_in(line, m)?;
    if !is_channel(param_in(line, m, 0)) {
        return Err(Refusal::BadName);
    }
    let name = m.params[0];
    Ok(Request::Part { name, user })
}

// The user is to leave what a slot holds, if it is there; the ban list goes with the last member.
#[tactic(auto, unfolding(crate::specs::Private::Part::parts_held, crate::specs::Leaving::is_last))]
fn left(slot: usize, held: &Record, user: [u8; USER_ID]) -> Result<Change, Refusal>
    ensures { by_number result ≡ parts_held slot held.now user }
{
    if !has_member(held, user) {
        return Err(Refusal::NotOnChannel);
    }
    let record = without(held, user);
    Ok(Change {
        deed: Deed::Set {
            slot,
            record,
            emptied: held.count != 0 && record.count == 0,
        },
        sending: Sending::AsRead,
    })
}

// The user is to leave the channel that has the name, if there is one.
pub(crate) fn parts(found: Found, user: [u8; USER_ID]) -> Result<Change, Refusal>
    ensures { by_number result ≡ parts_found (as_found found.entry).slot (as_found found.entry).«record» user }
{
    match found {
        Found::Held(k, held) => left(k, held, user),
        Found::Free(_) | Found::Full => Err(Refusal::NoSuchChannel),
    }
}
