// What is printed.
ghost use Rattle.std.specs.Prelude.{◌≡◌, length};
ghost use Rattle.octets.specs.Private.Additions.{Adds, AtFront};
ghost use Rattle.table.specs.Network.{network_of, table_with};
ghost use Rattle.day.specs.Printing.{refusal_line, day_text, day_room};

use bans::BanList;
use listing::{LISTING_LIMIT, write_listing};
use octets::decimals::put_decimal;
use octets::put;
use refusal::ACCEPTED;
use table::Head;

// Room for the line of a refusal: a number and a place of twenty digits at most, a SPACE and LF.
const REFUSAL: usize = 42;

// Room for all that is printed.
pub(crate) const ROOM: usize = LISTING_LIMIT + REFUSAL;

// Adds the line of number and place, if there is a number.
fn put_refusal(out: &mut [u8], at: usize, number: u8, place: u64) -> usize
    ensures { Adds out.old at out.new result (refusal_line number place) }
{
    if number == ACCEPTED {
        return at;
    }
    let numbered = put_decimal(out, at, number as u64);
    let spaced = put(out, numbered, b" ");
    let placed = put_decimal(out, spaced, place);
    put(out, placed, b"\n")
}

// Puts the lines of every used slot, and that of a refusal.
pub(crate) fn put_day(
    t: Head,
    bans: &[u8; BanList::BANS],
    number: u8,
    place: u64,
    out: &mut [u8],
) -> usize
    requires { length out.old ≡ day_room }
    ensures { AtFront out.new result (day_text (network_of (table_with t bans.now)) number place) }
{
    let listed = write_listing(t, bans, out);
    put_refusal(out, listed.len, number, place)
}
