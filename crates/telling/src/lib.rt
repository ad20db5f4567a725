// What is told of a record (document 01, 'SJOIN'): the line by which a server tells of it, and the same as a text of its own.
#![tactic(auto)]

mod pieces;

ghost use Rattle.std.specs.Prelude.{◌≡◌, ◌≤◌, length};
ghost use Rattle.refusal.specs.Rules.{emitted};
ghost use Rattle.octets.specs.Room.{front};
ghost use Rattle.octets.specs.Pages.{added};
ghost use Rattle.channel.specs.Record.{decode};
ghost use Rattle.writer.specs.Form.{written};
ghost use Rattle.writer.specs.Writing.{written_of, written_answer};
ghost use Rattle.telling.specs.Telling.{described, description_limit, described_in, join_message, tell_rules};

use channel::Record;
use message::LINE_LIMIT;
use octets::pen::Pen;
use pieces::{put_entries, put_join, put_params};
use refusal::Refusal;
use writer::Written;

// The most bytes that are told of a record.
pub const DESCRIPTION_LIMIT: usize = 869;

// Writes the SJOIN by which a server tells of a record, to the front of the output.
pub fn write_join(source: &[u8], r: Record, out: &mut [u8]) -> Written
    ensures answer { result ≡ written_answer (tell_rules source.now (decode r) out.old) (written (join_message source.now (decode r))) }
    ensures output { out.new ≡ front (emitted (tell_rules source.now (decode r) out.old) (written (join_message source.now (decode r)))) out.old }
{
    join(source, r, out).into()
}

// The same. A list that is longer than a line has no room in one.
fn join(source: &[u8], r: Record, out: &mut [u8]) -> Result<usize, Refusal>
    ensures answer { written_of result ≡ written_answer (tell_rules source.now (decode r) out.old) (written (join_message source.now (decode r))) }
    ensures output { out.new ≡ front (emitted (tell_rules source.now (decode r) out.old) (written (join_message source.now (decode r)))) out.old }
{
    if out.len() < LINE_LIMIT {
        return Err(Refusal::OutputTooShort);
    }
    let mut room = [0u8; LINE_LIMIT];
    let mut list = Pen::new(&mut room);
    put_entries(&mut list, r);
    let Some(members) = list.text() else {
        return Err(Refusal::NoRoom);
    };
    let mut room = [0u8; LINE_LIMIT];
    let mut line = Pen::new(&mut room);
    put_join(&mut line, source, &r, members);
    line.copy_to(out).ok_or(Refusal::NoRoom)
}

// Puts what an SJOIN tells of a record, its parameters with one SPACE between them and no ':'. They may be longer than a line, and are DESCRIPTION_LIMIT bytes at most.
pub fn put_description(text: &mut Pen<'_>, r: Record)
    ensures told { text.new ≡ added text.old (described (decode r)) }
    ensures limit { (length (described (decode r)) ≤ description_limit) × (DESCRIPTION_LIMIT ≡ description_limit) }
{
    put_params(text, &r);
}

// Puts the same at the front of the output and answers how many bytes they are; 0 where there is no room for all of them.
pub fn describe(r: Record, out: &mut [u8]) -> usize
    ensures answer { result ≡ length (described_in out.old (decode r)) }
    ensures output { out.new ≡ front (described_in out.old (decode r)) out.old }
    ensures limit { (length (described (decode r)) ≤ description_limit) × (DESCRIPTION_LIMIT ≡ description_limit) }
{
    let mut room = [0u8; DESCRIPTION_LIMIT];
    let mut text = Pen::new(&mut room);
    put_description(&mut text, r);
    text.copy_to(out).unwrap_or(0)
}
