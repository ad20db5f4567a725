// The judgement: table, output and link first; and, of what a line asks for, what it comes to in the slot that its channel's name uses. Nothing is
// written.
ghost use Rattle.std.specs.Prelude.{◌≡◌};
ghost use Rattle.refusal.specs.Rules.{first_of};
ghost use Rattle.refusal.specs.Refusals.{answered};
ghost use Rattle.message.specs.Parts.{content_by};
ghost use Rattle.table.specs.Network.{network_of, table_with};
ghost use Rattle.table.specs.Slots.{as_found};
ghost use Rattle.relay.specs.Relay.{entry_rules};
ghost use Rattle.relay.specs.Private.Work.{by_number};
ghost use Rattle.relay.specs.Private.Commands.{looked_up, settled_in};

use crate::joining::joins;
use crate::masking::{MASKS_AT, masks};
use crate::parting::parts;
use crate::{Change, Deed, Request, Sending};
use bans::BanList;
use links::{Links, has_link};
use message::spans::param_in;
use message::{LINE_LIMIT, Message, Span};
use octets::part;
use refusal::Refusal;
use table::{Found, Head, find};

// The first of the refusals 1 to 3 that applies: by whether the table is well formed, n bytes of lent output, the registered links and the link that a line
// came by.
#[tactic(auto, unfolding(refusal::specs::Rules::first_of))]
pub(crate) fn entry(good: bool, n: usize, links: Links, link: u32) -> Result<(), Refusal>
    ensures { answered result ≡ first_of (entry_rules good n links link) }
{
    if !good {
        return Err(Refusal::NotWellFormed);
    }
    if n < LINE_LIMIT {
        return Err(Refusal::OutputTooShort);
    }
    if !has_link(links.set, link) {
        return Err(Refusal::BadLink);
    }
    Ok(())
}

// The slot that a channel's name uses, which is a part of the line.
fn slot_of<'a>(t: &'a Head, line: &[u8], name: Span) -> Found<'a>
    ensures { as_found result ≡ looked_up t.now.slots line.now name }
{
    find(t, part(line, name.start, name.end))
}

// What a request comes to in the slot that its channel's name uses, with the line's own parts and the ban lists: one of the refusals 19 to 22 and 27, or a change.
pub(crate) fn settled(
    t: &Head,
    bans: &[u8; BanList::BANS],
    line: &[u8],
    m: Message,
    request: &Request,
) -> Result<Change, Refusal>
    ensures { by_number result ≡ settled_in (network_of (table_with t.now bans.now)) line.now request.now (content_by line.now m) }
{
    match request {
        Request::Sjoin { name, incoming } => joins(slot_of(t, line, *name), incoming),
        Request::Part { name, user } => parts(slot_of(t, line, *name), *user),
        Request::Quit { user } => Ok(Change {
            deed: Deed::Drop { user: *user },
            sending: Sending::AsRead,
        }),
        Request::Bmask { name, time } => {
            masks(
                slot_of(t, line, *name),
                *time,
                param_in(line, m, MASKS_AT),
                bans,
            )
        }
    }
}
