// The relay for programs in C and Rust: what they need of it under C names, each answer with its promise as the core gives them, but for the reader's
// answer and the place of a channel, which are structs here, a record's text, which has its numbers here, and the choice of a key. The header include/relay.h
// declares these functions and says what a caller must know. Structs go in and come back by value; the ban lists of a table, which are too large for that, are lent, as one pointer to an array of them all. An exported
// function can't return a reference, so the header makes the parts of a line from `relay_parts`, and hands back the greater of two keys by `relay_key_less`.
#![tactic(auto)]

mod layout;

ghost use Rattle.std.specs.Prelude.{◌≡◌, length, get_or};
ghost use Rattle.refusal.specs.Rules.{emitted};
ghost use Rattle.octets.specs.Room.{front};
ghost use Rattle.octets.specs.Order.{compare as compare_of, is_less};
ghost use Rattle.message.specs.Reading.{message_of};
ghost use Rattle.message.specs.Parts.{content_by};
ghost use Rattle.feed.specs.Lines.{nothing};
ghost use Rattle.feed.specs.Feeder.{state_of, feed_answer};
ghost use Rattle.writer.specs.Form.{written};
ghost use Rattle.writer.specs.Writing.{write_rules, written_of, written_answer};
ghost use Rattle.names.specs.Fold.{same_name};
ghost use Rattle.glob.specs.Mask.{match_answer};
ghost use Rattle.channel.specs.Record.{decode};
ghost use Rattle.merging.specs.Merging.{merge_answer};
ghost use Rattle.table.specs.Network.{head_of, table_with};
ghost use Rattle.table.specs.Table.{empty_table, register_answer, unregister_answer, registered_of};
ghost use Rattle.table.specs.Banned.{banned_answer};
ghost use Rattle.telling.specs.Telling.{described};
ghost use Rattle.relay.specs.Arrival.{arrival};
ghost use Rattle.relay.specs.Relay.{process_answer, taken_of, sent};
ghost use Rattle.journal.specs.Journal.{log_rules, record_of, logged_answer};
ghost use Rattle.journal.specs.Reading.{read_answer as record_answer};
ghost use Rattle.wording.specs.Wording.{text_of};
ghost use Rattle.capi.specs.Reading.{read_as, read_answer};
ghost use Rattle.table.specs.Slots.{as_found};
ghost use Rattle.capi.specs.Finding.{found_as, held_at, find_answer};
ghost use Rattle.capi.specs.Describing.{describe_rules};
ghost use Rattle.capi.specs.Layout.{layout as layout_of};

use bans::{BanList, WholeRecord};
use channel::Record;
use feed::{Fed, Feeder};
use glob::Match;
use journal::{Logged, RecordRead};
use merging::Merged;
use message::Message;
use refusal::Refusal;
use relay::Taken;
use table::{Banned, Found, Head, Registered};
use wording::Text;
use writer::Written;

// The reader's answer for a caller that has no enums: the number of a refusal, or ACCEPTED, and the count of parameters, 0 with a refusal.
#[repr(C)]
#[derive(Clone, Copy)]
pub struct LineRead {
    pub number: u8,
    pub count: usize,
}

// The slot that holds a channel, for a caller that has no enums: the number of a refusal, or ACCEPTED, and the slot's place, 0 with a refusal.
#[repr(C)]
#[derive(Clone, Copy)]
pub struct ChannelFound {
    pub number: u8,
    pub slot: usize,
}

// A line that is refused has no count.
impl From<Result<usize, Refusal>> for LineRead {
    ghost from_gives = { λ answer r. r ≡ read_as answer };

    fn from(answer: Result<usize, Refusal>) -> LineRead {
        LineRead {
            number: refusal::number(&answer),
            count: answer.unwrap_or(0),
        }
    }
}

// A channel that isn't there has no place.
impl From<Result<usize, Refusal>> for ChannelFound {
    ghost from_gives = { λ answer r. r ≡ found_as answer };

    fn from(answer: Result<usize, Refusal>) -> ChannelFound {
        ChannelFound {
            number: refusal::number(&answer),
            slot: answer.unwrap_or(0),
        }
    }
}

// What the line reads as.
#[unsafe(no_mangle)]
pub extern "C" fn relay_read(line: &[u8]) -> LineRead
    ensures { result ≡ read_answer line.now }
{
    message::read(line).into()
}

// The parts of the line, by their places.
#[unsafe(no_mangle)]
pub extern "C" fn relay_parts(line: &[u8]) -> Message
    ensures { result ≡ message_of line.now }
{
    message::parts(line)
}

// The feeder of a link that no byte has come by.
#[unsafe(no_mangle)]
pub extern "C" fn relay_empty_feeder() -> Feeder
    ensures { result ≡ state_of nothing }
{
    Feeder::empty()
}

// Makes bytes into lines: takes them up to and with the first that yields something, else all.
#[unsafe(no_mangle)]
pub extern "C" fn relay_feed(state: Feeder, bytes: &[u8]) -> Fed
    ensures { result ≡ feed_answer state bytes.now }
{
    feed::feed(state, bytes)
}

// Writes a message to the front of the output.
#[unsafe(no_mangle)]
pub extern "C" fn relay_write(text: &[u8], m: Message, out: &mut [u8]) -> Written
    ensures answer { result ≡ written_answer (write_rules text.now m out.old) (written (content_by text.now m)) }
    ensures output { out.new ≡ front (emitted (write_rules text.now m out.old) (written (content_by text.now m))) out.old }
{
    writer::write(text, m, out)
}

// Whether two names are equal.
#[unsafe(no_mangle)]
pub extern "C" fn relay_same_name(a: &[u8], b: &[u8]) -> bool
    ensures { result ≡ same_name a.now b.now }
{
    names::equal(a, b)
}

// Whether a mask matches a text.
#[unsafe(no_mangle)]
pub extern "C" fn relay_match(mask: &[u8], text: &[u8]) -> Match
    ensures { result ≡ match_answer mask.now text.now }
{
    glob::matches(mask, text)
}

// Whether the second of two keys is the greater one.
#[unsafe(no_mangle)]
pub extern "C" fn relay_key_less(a: &[u8], b: &[u8]) -> bool
    ensures { result ≡ is_less (compare_of a.now b.now) }
{
    octets::compare(a, b).is_lt()
}

// Two records of one channel merged, with their ban lists.
#[unsafe(no_mangle)]
pub extern "C" fn relay_merge(a: WholeRecord, b: WholeRecord) -> Merged
    ensures { result ≡ merge_answer a b }
{
    merging::merge(a, b)
}

// Writes what an SJOIN tells of a record, unless the record isn't well formed, or its text has no room.
fn describe(r: Record, out: &mut [u8]) -> Result<usize, Refusal>
    ensures answer { written_of result ≡ written_answer (describe_rules r out.old) (described (decode r)) }
    ensures output { out.new ≡ front (emitted (describe_rules r out.old) (described (decode r))) out.old }
{
    if !channel::is_well_formed(&r) {
        return Err(Refusal::NotWellFormed);
    }
    let len = telling::describe(r, out);
    if len == 0 {
        return Err(Refusal::NoRoom);
    }
    Ok(len)
}

// Writes what an SJOIN tells of a record, as a text of its own, to the front of the output.
#[unsafe(no_mangle)]
pub extern "C" fn relay_describe(r: Record, out: &mut [u8]) -> Written
    ensures answer { result ≡ written_answer (describe_rules r out.old) (described (decode r)) }
    ensures output { out.new ≡ front (emitted (describe_rules r out.old) (described (decode r))) out.old }
{
    describe(r, out).into()
}

// Every slot free, no link registered; and every byte of the lists is made zero.
#[unsafe(no_mangle)]
pub extern "C" fn relay_empty_head(bans: &mut [u8; BanList::BANS]) -> Head
    ensures answer { result ≡ head_of empty_table }
    ensures lists { bans.new ≡ empty_table.bans }
{
    Head::empty(bans)
}

// The head with a link registered.
#[unsafe(no_mangle)]
pub extern "C" fn relay_register(t: Head, bans: &[u8; BanList::BANS], link: u32) -> Registered
    ensures { result ≡ registered_of (register_answer (table_with t bans.now) link) }
{
    table::register(t, bans, link)
}

// The head with a link dropped.
#[unsafe(no_mangle)]
pub extern "C" fn relay_unregister(t: Head, bans: &[u8; BanList::BANS], link: u32) -> Registered
    ensures { result ≡ registered_of (unregister_answer (table_with t bans.now) link) }
{
    table::unregister(t, bans, link)
}

// The place of a channel that was looked for.
fn place_of(found: Found<'_>) -> Result<usize, Refusal>
    ensures { found_as result ≡ held_at (as_found found.entry).slot }
{
    match found {
        Found::Held(k, _) => Ok(k),
        Found::Free(_) | Found::Full => Err(Refusal::NoSuchChannel),
    }
}

// The slot that holds the channel of a name.
#[unsafe(no_mangle)]
pub extern "C" fn relay_find(t: Head, name: &[u8]) -> ChannelFound
    ensures { result ≡ find_answer t.slots name.now }
{
    place_of(table::find(&t, name)).into()
}

// Whether a text is banned from the channel of a name.
#[unsafe(no_mangle)]
pub extern "C" fn relay_is_banned(
    t: Head,
    bans: &[u8; BanList::BANS],
    name: &[u8],
    text: &[u8],
) -> Banned
    ensures { result ≡ banned_answer (table_with t bans.now) name.now text.now }
{
    table::is_banned(&t, bans, name, text)
}

// Takes a line that came from a link: the head after, the lent lists after, and the line that goes out at the front of the output. The link comes last: behind the
// answer's place five registers are left, for the lists, the line and the output. Were the link among them, this language would pass the output's length alone on
// the stack, but C would pass pointer and length there.
#[unsafe(no_mangle)]
pub extern "C" fn relay_process(
    t: Head,
    bans: &mut [u8; BanList::BANS],
    line: &[u8],
    out: &mut [u8],
    link: u32,
) -> Taken
    ensures answer { result ≡ taken_of (process_answer (table_with t bans.old) (arrival link line.now) (length out.old)) }
    ensures lists { bans.new ≡ (process_answer (table_with t bans.old) (arrival link line.now) (length out.old)).table.bans }
    ensures output { out.new ≡ front (sent (table_with t bans.old) (arrival link line.now) (length out.old)) out.old }
{
    relay::process(t, bans, link, line, out)
}

// Writes the day-log record of a line to the front of the log.
#[unsafe(no_mangle)]
pub extern "C" fn relay_log(link: u32, line: &[u8], log: &mut [u8]) -> Logged
    ensures answer { result ≡ logged_answer link line.now log.old }
    ensures log { log.new ≡ front (emitted (log_rules link line.now log.old) (record_of link line.now)) log.old }
{
    journal::write_record(link, line, log)
}

// Reads what stands at a place of the log.
#[unsafe(no_mangle)]
pub extern "C" fn relay_read_record(log: &[u8], at: usize) -> RecordRead
    ensures { result ≡ record_answer log.now at }
{
    journal::read_record(log, at)
}

// The words of a refusal's number; of any other number none.
#[unsafe(no_mangle)]
pub extern "C" fn relay_refusal_text(number: u8) -> Text
    ensures { result ≡ text_of number }
{
    wording::words(number)
}

// How many numbers tell the layout of the structs above (k is 0), or one of them; 0 past the last.
#[unsafe(no_mangle)]
pub extern "C" fn relay_layout(k: usize) -> usize
    ensures { result ≡ get_or layout_of k 0 }
{
    layout::number(k)
}
