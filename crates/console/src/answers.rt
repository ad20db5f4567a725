// Answers. Those to links' lines, and to what is no request, wait for the end of their group and are put behind one another in lent room; any other is written to
// standard output at once. A function that writes says why, where not all of it could be written.
ghost use Rattle.std.specs.Prelude.{◌≡◌, cond, [], ◌∷◌, map, ◌≤◌, length};
ghost use Rattle.octets.specs.Bytes.{comma};
ghost use Rattle.laws.specs.Bits.{has_bit};
ghost use Rattle.laws.specs.Lists.{prefixed};
ghost use Rattle.octets.specs.Decimals.{digits_of};
ghost use Rattle.octets.specs.Private.Additions.{Adds, AtFront};
ghost use Rattle.links.specs.Links.{links_in};
ghost use Rattle.message.specs.Grammar.{line_limit};
ghost use Rattle.wording.specs.Wording.{words_of};
ghost use Rattle.console.specs.Answers.{spaced, place_text, numbered_text, refused_text, IsPlaceIn, links_text, relayed_text, accepted_text};
ghost use Rattle.console.specs.Buffers.{answer_room};

use crate::showing::put_pointed;
use bans::BanList;
use links::{Links, count, has_link};
use listing::{LISTING_LIMIT, write_listing};
use octets::decimals::put_decimal;
use octets::{part, put};
use refusal::ACCEPTED;
use std::io;
use std::io::Print;
use table::{Banned, Head};
use wording::words;

// Room for any answer but the table: the longest has number, place and words, and a line of 512 bytes with a caret at its end.
pub(crate) const ROOM: usize = 1152;

pub(crate) fn print(out: &impl Print, s: &[u8]) -> io::Result<()> {
    out.write_all(s)
}

// Adds a SPACE and the words of a number, if they are asked for and there are any.
pub(crate) fn put_words(out: &mut [u8], at: usize, number: u8, worded: bool) -> usize
    ensures { Adds out.old at out.new result (cond worded (spaced (words_of number)) []) }
{
    if !worded {
        return at;
    }
    let text = words(number);
    if text.len == 0 {
        return at;
    }
    let bytes = text.bytes;
    let next = put(out, at, b" ");
    put(out, next, part(&bytes, 0, text.len))
}

// Adds a SPACE and a place, or nothing where it is 0: the relay answers 0 where it tells no place.
fn put_place(out: &mut [u8], at: usize, place: usize) -> usize
    ensures { Adds out.old at out.new result (place_text place) }
{
    if place == 0 {
        return at;
    }
    let next = put(out, at, b" ");
    put_decimal(out, next, place as u64)
}

// Adds a mark, a SPACE, a number, and a place where it isn't 0, with the number's words where they are asked for.
fn put_numbered(
    out: &mut [u8],
    at: usize,
    mark: u8,
    number: u8,
    place: usize,
    worded: bool,
) -> usize
    ensures { Adds out.old at out.new result (numbered_text mark number place worded) }
{
    let opening = [mark, b' '];
    let opened = put(out, at, &opening);
    let numbered = put_decimal(out, opened, number as u64);
    let placed = put_place(out, numbered, place);
    let told = put_words(out, placed, number, worded);
    put(out, told, b"\n")
}

// Adds the answer to a line that is refused. A place that isn't 0 is told, and shown to whoever reads the words.
pub(crate) fn put_refused(
    out: &mut [u8],
    at: usize,
    number: u8,
    place: usize,
    line: &[u8],
    worded: bool,
) -> usize
    requires { IsPlaceIn line.now place }
    ensures adds { Adds out.old at out.new result (refused_text number place line.now worded) }
    ensures few { length (refused_text number place line.now worded) ≤ answer_room }
{
    let told = put_numbered(out, at, b'!', number, place, worded);
    if place == 0 {
        return told;
    }
    if !worded {
        return told;
    }
    put_pointed(out, told, place, line)
}

// Adds the answer to what is no request.
pub(crate) fn put_input(out: &mut [u8], at: usize) -> usize {
    put(out, at, b"! input\n")
}

fn say_numbered(out: &impl Print, mark: u8, number: u8, worded: bool) -> io::Result<()> {
    let mut text = [0u8; ROOM];
    let n = put_numbered(&mut text, 0, mark, number, 0, worded);
    print(out, part(&text, 0, n))
}

// The answer to a link registered or dropped.
pub(crate) fn say_done(out: &impl Print, number: u8, worded: bool) -> io::Result<()> {
    say_numbered(out, b'=', number, worded)
}

// The answer to a question whether a text is banned.
pub(crate) fn say_banned(out: &impl Print, answer: Banned, worded: bool) -> io::Result<()> {
    if answer.number != ACCEPTED {
        return say_numbered(out, b'!', answer.number, worded);
    }
    if answer.yes {
        return print(out, b"yes\n");
    }
    print(out, b"no\n")
}

// The answer to '?': the table as text, and a line that says that there is no more.
pub(crate) fn say_channels(
    out: &impl Print,
    t: Head,
    bans: &[u8; BanList::BANS],
) -> io::Result<()> {
    let mut text = [0u8; LISTING_LIMIT];
    let listed = write_listing(t, bans, &mut text);
    print(out, part(&text, 0, listed.len))?;
    print(out, b".\n")
}

// The answer to `help`.
pub(crate) fn say_help(out: &impl Print) -> io::Result<()> {
    print(
        out,
        b"+N        registers link N\n-N        drops link N\nN LINE    takes LINE from link N\n?         prints the table\nbanned NAME TEXT\n          says whether TEXT is banned from channel NAME\nhelp      prints this\nCtrl-D    ends the program\n! NUMBER PLACE\n          answers a refused LINE; PLACE counts in LINE, from 0\n",
    )
}

// Adds a comma and the link, if it is in the set.
fn put_link(out: &mut [u8], at: usize, set: u32, link: u32) -> usize
    ensures { Adds out.old at out.new result (cond (has_bit set link) (comma ∷ digits_of link) []) }
{
    if !has_link(set, link) {
        return at;
    }
    let next = put(out, at, b",");
    put_decimal(out, next, link as u64)
}

// Adds a comma and the link for each link in the set, ascending.
fn put_links(out: &mut [u8], at: usize, set: u32) -> usize
    ensures { Adds out.old at out.new result (prefixed comma (map digits_of (links_in set))) }
{
    let mut next = at;
    let mut link = 0u32;
    while link < Links::COUNT {
        next = put_link(out, next, set, link);
        link += 1;
    }
    next
}

// Adds a comma and the links of the set, parted by commas, or '-' where there are none.
fn put_set(out: &mut [u8], at: usize, set: u32) -> usize
    ensures { Adds out.old at out.new result (comma ∷ links_text set) }
{
    if count(set) == 0 {
        return put(out, at, b",-");
    }
    put_links(out, at, set)
}

// A comma, which isn't printed, the links that a line goes to, and the line.
fn put_listed(set: u32, line: &[u8], out: &mut [u8]) -> usize
    requires { (length line.now ≤ line_limit) × (length out.old ≡ answer_room) }
    ensures { AtFront out.new result (comma ∷ relayed_text set line.now) }
{
    let linked = put_set(out, 0, set);
    let spaced = put(out, linked, b" ");
    put(out, spaced, line)
}

// Adds the answer to a line that is accepted. One of which nothing goes out has no link, and no line.
pub(crate) fn put_accepted(out: &mut [u8], at: usize, set: u32, line: &[u8]) -> usize
    requires { length line.now ≤ line_limit }
    ensures { Adds out.old at out.new result (accepted_text set line.now) }
{
    if line.len() == 0 {
        return put(out, at, b"-\n");
    }
    let mut text = [0u8; ROOM];
    let n = put_listed(set, line, &mut text);
    put(out, at, part(&text, 1, n))
}
