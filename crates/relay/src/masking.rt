// BMASK: what its line asks for, and what that comes to in the slot that its channel uses. Nothing is written.
ghost use Rattle.std.specs.Prelude.{◌≡◌};
ghost use Rattle.message.specs.Parts.{content_by};
ghost use Rattle.table.specs.Slots.{as_found};
ghost use Rattle.relay.specs.Private.Work.{by_number, ruled};
ghost use Rattle.relay.specs.Private.Bmask.{masks_found, work};

use crate::{Change, Deed, Request, Sending};
use bans::{BanList, load};
use bmask::{add_listed, read_message};
use message::Message;
use refusal::Refusal;
use table::Found;

// The place of the masks among the parameters.
pub(crate) const MASKS_AT: usize = 3;

// BMASK: the channel's name, and the time of its masks.
pub(crate) fn mask_request(line: &[u8], m: Message) -> Result<Request, Refusal>
    ensures { by_number result ≡ ruled (work.own (content_by line.now m)) (work.asks m (content_by line.now m)) }
{
    let time = read_message(line, m)?;
    let name = m.params[1];
    Ok(Request::Bmask { name, time })
}

// The masks of a list are to be added to those of the channel that has the name, if there is one and there is room; where they are later than it, nothing is.
#[tactic(auto, unfolding(crate::specs::Private::Bmask::masks_held))]
pub(crate) fn masks(
    found: Found,
    time: u32,
    list: &[u8],
    bans: &[u8; BanList::BANS],
) -> Result<Change, Refusal>
    ensures { by_number result ≡ masks_found (as_found found.entry).slot (as_found found.entry).«record» time list.now bans.now }
{
    let Found::Held(slot, held) = found else {
        return Err(Refusal::NoSuchChannel);
    };
    if held.time < time {
        return Ok(Change {
            deed: Deed::Nothing,
            sending: Sending::Silent,
        });
    }
    if add_listed(load(bans, slot), list).is_none() {
        return Err(Refusal::TooManyMasks);
    }
    Ok(Change {
        deed: Deed::Add { slot },
        sending: Sending::AsRead,
    })
}
