// What an SJOIN line says (document 01, 'SJOIN'; document 02, §6): its time, name, modes with key and limit, and members, judged by the numbers 12 to 18, with 32 to 36 in
// the place of 17, and put into a record of their own.
#![tactic(auto)]

mod arguments;
mod entries;
mod letters;

ghost use Rattle.std.specs.Prelude.{◌≡◌, ◌≤◌, length, IfOk};
ghost use Rattle.refusal.specs.Rules.{first_of};
ghost use Rattle.refusal.specs.Refusals.{answered, told_fault};
ghost use Rattle.channel.specs.Record.{encode};
ghost use Rattle.octets.specs.Decimals.{value_of};
ghost use Rattle.message.specs.Parts.{content_by};
ghost use Rattle.sjoin.specs.Faults.{site_at};
ghost use Rattle.sjoin.specs.Join.{time_in, time_of, source_rules, head_rules, fault_in, channel_in, told_in, told_by, as_told};
ghost use Rattle.sjoin.specs.Private.Scanning.{placed, Parted, Tells};

use arguments::{MODES_AT, argument, check_arguments};
use channel::members::ordered;
use channel::{Record, Roster};
use entries::entries_of;
use letters::{check_letters, limit_in, modes_byte};
use message::spans::{param_in, prefix_in};
use message::{LINE_LIMIT, Message, parse};
use names::{is_channel, is_server_id};
use octets::decimals::decimal;
use octets::padded;
use refusal::{Fault, Refusal};

// The fewest parameters of a line.
const FEWEST: usize = 4;

// The most parameters of a line.
const MOST: usize = 6;

// The place of the time among the parameters.
const TIME_AT: usize = 0;

// The place of the name among the parameters.
const NAME_AT: usize = 1;

// The first of the numbers 12 and 13 that applies.
fn check_source(text: &[u8], m: Message) -> Result<(), Refusal>
    ensures { answered result ≡ first_of (source_rules (content_by text.now m)) }
{
    if !(FEWEST..=MOST).contains(&m.count) {
        return Err(Refusal::WrongParamCount);
    }
    if !is_server_id(prefix_in(text, m)) {
        return Err(Refusal::BadSource);
    }
    Ok(())
}

// The time that a message says, or the first of the numbers 14 to 16 that applies: of time and name, which lead the line of any command that has them.
#[tactic(auto, using(crate::proofs::Judged::time_zero), unfolding(crate::specs::Join::is_time, refusal::specs::Rules::first_of, octets::specs::Decimals::decimal_up_to))]
pub fn read_head(text: &[u8], m: Message) -> Result<u32, Refusal>
    ensures refusal { answered result ≡ first_of (head_rules (content_by text.now m)) }
    ensures time { IfOk result (λ time. time ≡ value_of (time_in (content_by text.now m))) }
{
    let time = decimal(param_in(text, m, TIME_AT), Record::TIME).ok_or(Refusal::BadTime)?;
    if time == 0 {
        return Err(Refusal::ZeroTime);
    }
    if !is_channel(param_in(text, m, NAME_AT)) {
        return Err(Refusal::BadName);
    }
    Ok(time)
}

// The time that a message says, 0 where it says none.
#[tactic(auto, unfolding(crate::specs::Join::time_of, crate::specs::Join::is_time))]
pub fn time_of(text: &[u8], m: Message) -> u32
    ensures { result ≡ time_of (time_in (content_by text.now m)) }
{
    decimal(param_in(text, m, TIME_AT), Record::TIME).unwrap_or(0)
}

// The first fault of the modes and their parameters, with its place in the text. The list is at `last`.
fn check_modes(text: &[u8], m: Message, last: usize) -> Result<(), Fault>
    requires { Parted (content_by text.now m) last × (2 ≤ length text.now) }
    ensures { told_fault result ≡ placed (site_at (length text.now) m) (fault_in (content_by text.now m)) }
{
    let modes = param_in(text, m, MODES_AT);
    if let Err(fault) = check_letters(modes) {
        return Err(fault.refusal.at(m.params[MODES_AT].start + fault.place));
    }
    check_arguments(text, m, modes, last)
}

// The record of the channel that is told of where no rule refuses it. The list is at `last`, and these are the time and the members that it names.
fn record_of(text: &[u8], m: Message, last: usize, time: u32, entries: &Roster) -> Record
    requires { Tells (content_by text.now m) last time entries.now }
    ensures { result ≡ encode (channel_in (content_by text.now m)) }
{
    let name = param_in(text, m, NAME_AT);
    let name_room = padded(name);
    let key = argument(text, m, b'k', last);
    let key_room = padded(key);
    let all = ordered(entries);
    let members = all.list;
    Record {
        name: name_room,
        name_len: name.len(),
        time,
        modes: modes_byte(param_in(text, m, MODES_AT)),
        key: key_room,
        key_len: key.len(),
        limit: limit_in(argument(text, m, b'l', last)).unwrap_or(0),
        members,
        count: all.count,
    }
}

// What a message says whose parts are spans of the text: number 4 of a text that is longer than a line, or the first of the numbers 12 to 16, 32 to 36 and 18 that
// applies, with its place in the text, or the record of the channel that it tells of.
pub fn read_message(text: &[u8], m: Message) -> Result<Record, Fault>
    ensures { as_told result ≡ told_in text.now m }
{
    if LINE_LIMIT < text.len() {
        return Err(Refusal::LineTooLong.into());
    }
    check_source(text, m)?;
    let last = m.count - 1;
    let time = read_head(text, m)?;
    check_modes(text, m, last)?;
    let entries = entries_of(param_in(text, m, last)).ok_or(Refusal::BadMembers)?;
    Ok(record_of(text, m, last, time, &entries))
}

// What the line says: the reader's own number, or the first of the numbers 12 to 16, 32 to 36 and 18 that applies, with its place in the line, or the record of the
// channel that it tells of.
pub fn read_join(line: &[u8]) -> Result<Record, Fault>
    ensures { as_told result ≡ told_by line.now }
{
    let answer = parse(line);
    let Ok(m) = answer else {
        return Err(answer.unwrap_err().into());
    };
    read_message(line, m)
}
