// What is told of a record, put together piece by piece.
ghost use Rattle.std.specs.Prelude.{◌≡◌, cond, [], ◌∷◌, ◌++◌, ltb, take};
ghost use Rattle.octets.specs.Bytes.{space};
ghost use Rattle.octets.specs.Decimals.{digits_of};
ghost use Rattle.octets.specs.Pages.{added};
ghost use Rattle.channel.specs.Modes.{key_mode, limit_mode, has_mode};
ghost use Rattle.channel.specs.Record.{decode};
ghost use Rattle.writer.specs.Form.{written};
ghost use Rattle.telling.specs.Telling.{modes_text, entry_of, list_text, described, join_message};
ghost use Rattle.telling.specs.Private.Pieces.{list_place, lead_text};

use channel::modes::{KEY_MODE, LIMIT_MODE, MODES, has_mode};
use channel::{Member, Record};
use octets::part;
use octets::pen::Pen;
use writer::form::put_param;

// The parameters that always come before the list: time, name and modes.
const FIXED: usize = 3;

// The letters of the modes, in the order of their places.
const LETTERS: [u8; MODES as usize] = *b"imnpstkl";

// The place of the list among the parameters: behind the time, the name, the modes, and the key and the limit where they are told. The rule for ':' asks for it, though no list is
// the fifteenth.
#[tactic(auto, unfolding(crate::specs::Private::Pieces::list_place))]
fn list_place(modes: u8) -> usize
    ensures { result ≡ list_place modes }
{
    FIXED + usize::from(has_mode(modes, KEY_MODE)) + usize::from(has_mode(modes, LIMIT_MODE))
}

// Puts a SPACE and the bytes.
#[tactic(auto, using(octets::proofs::Pages::pieces))]
fn put_spaced(line: &mut Pen<'_>, p: &[u8])
    ensures { line.new ≡ added line.old (space ∷ p.now) }
{
    line.put(b" ");
    line.put(p);
}

// Puts a SPACE, '+' and the letters of the modes.
fn put_modes(line: &mut Pen<'_>, modes: u8)
    ensures { line.new ≡ added line.old (space ∷ modes_text modes) }
{
    line.put(b" +");
    for place in 0..MODES {
        if has_mode(modes, place) {
            line.put(&[LETTERS[place as usize]]);
        }
    }
}

// Puts a SPACE and the key, if there is one.
#[tactic(auto, using(octets::proofs::Pages::pieces))]
fn put_key(line: &mut Pen<'_>, r: &Record)
    ensures { line.new ≡ added line.old (cond (has_mode r.now.modes key_mode) (space ∷ take r.now.key_len r.now.key) []) }
{
    if has_mode(r.modes, KEY_MODE) {
        put_spaced(line, part(&r.key, 0, r.key_len));
    }
}

// Puts a SPACE and the limit, if there is one.
#[tactic(auto, using(octets::proofs::Pages::pieces))]
fn put_limit(line: &mut Pen<'_>, r: &Record)
    ensures { line.new ≡ added line.old (cond (has_mode r.now.modes limit_mode) (space ∷ digits_of r.now.limit) []) }
{
    if has_mode(r.modes, LIMIT_MODE) {
        line.put(b" ");
        line.put_decimal(u64::from(r.limit));
    }
}

// Puts all that comes before the list, a SPACE between parameters: the time, the name and the settings.
#[tactic(auto, using(octets::proofs::Pages::pieces), unfolding(crate::specs::Private::Pieces::lead_text, channel::specs::Record::decode))]
fn put_lead(line: &mut Pen<'_>, r: &Record)
    ensures { line.new ≡ added line.old (lead_text (decode r.now)) }
{
    line.put_decimal(u64::from(r.time));
    put_spaced(line, part(&r.name, 0, r.name_len));
    put_modes(line, r.modes);
    put_key(line, r);
    put_limit(line, r);
}

// Puts a member's entry: '@' for an operator, '+' for voice, the id.
#[tactic(auto, using(octets::proofs::Pages::pieces), unfolding(crate::specs::Telling::entry_of))]
fn put_entry(line: &mut Pen<'_>, m: Member)
    ensures { line.new ≡ added line.old (entry_of m) }
{
    if has_mode(m.status, Member::OPERATOR_PLACE) {
        line.put(b"@");
    }
    if has_mode(m.status, Member::VOICE_PLACE) {
        line.put(b"+");
    }
    line.put(&m.id);
}

// Puts the entry in place k, behind a SPACE unless it is the first.
#[tactic(auto, using(octets::proofs::Pages::pieces))]
fn put_next(line: &mut Pen<'_>, k: usize, m: Member)
    ensures { line.new ≡ added line.old (cond (ltb 0 k) (space ∷ []) [] ++ entry_of m) }
{
    if 0 < k {
        line.put(b" ");
    }
    put_entry(line, m);
}

// Puts the entries of the members that are in use, one SPACE between them.
pub(crate) fn put_entries(line: &mut Pen<'_>, r: Record)
    ensures { line.new ≡ added line.old (list_text (decode r).members) }
{
    for k in 0..r.count.min(Record::MEMBERS) {
        put_next(line, k, r.members[k]);
    }
}

// Puts the line by which a server tells of a record, whose list is given: its text decides on the ':' before it.
#[tactic(auto, using(octets::proofs::Pages::pieces, crate::proofs::Lines::join_text), unfolding(channel::specs::Record::decode))]
pub(crate) fn put_join(line: &mut Pen<'_>, source: &[u8], r: &Record, list: &[u8])
    requires { list.now ≡ list_text (decode r.now).members }
    ensures { line.new ≡ added line.old (written (join_message source.now (decode r.now))) }
{
    line.put(b":");
    line.put(source);
    line.put(b" SJOIN ");
    put_lead(line, r);
    put_param(line, list, list_place(r.modes), true);
    line.put(b"\r\n");
}

// Puts what is told of a record, one SPACE between parameters.
#[tactic(auto, using(octets::proofs::Pages::pieces, crate::proofs::Described::described_text))]
pub(crate) fn put_params(text: &mut Pen<'_>, r: &Record)
    ensures { text.new ≡ added text.old (described (decode r.now)) }
{
    put_lead(text, r);
    text.put(b" ");
    put_entries(text, *r);
}
