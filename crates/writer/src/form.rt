// The fixed form, put together part by part.
ghost use Rattle.std.specs.Prelude.{◌≡◌, cond, ◌∷◌, map, ◌≤◌, take};
ghost use Rattle.std.proofs.Math.Option.{some, none};
ghost use Rattle.octets.specs.Bytes.{space, capital as capital_of};
ghost use Rattle.octets.specs.Pages.{added};
ghost use Rattle.message.specs.Grammar.{param_limit, is_bare};
ghost use Rattle.message.specs.Parts.{bytes_at, content_by};
ghost use Rattle.writer.specs.Form.{takes_colon, written_param, written_params, written_prefix, written};
ghost use Rattle.writer.specs.Private.Fit.{cased};

use crate::fit::is_middle;
use message::spans::command_in;
use message::{MIDDLE_LIMIT, Message};
use octets::pen::Pen;
use octets::{capital, part};

// What stands as the fifteenth without ':': one or more bytes, the first neither ':' nor SPACE.
#[tactic(auto, unfolding(message::specs::Grammar::is_bare))]
fn is_bare(p: &[u8]) -> bool
    ensures { result ≡ is_bare p.now }
{
    !matches!(p, [] | [b':' | b' ', ..])
}

// Whether parameter k, counted from 0, is written with ':' before it.
#[tactic(auto, using(crate::proofs::Parts::colons))]
pub fn takes_colon(p: &[u8], k: usize, last: bool) -> bool
    ensures { result ≡ takes_colon k last p.now }
{
    if k == MIDDLE_LIMIT {
        return last && !is_bare(p);
    }
    last && !is_middle(p)
}

// Puts a SPACE and parameter k.
#[tactic(auto, using(octets::proofs::Pages::pieces), unfolding(crate::specs::Form::written_param))]
pub fn put_param(line: &mut Pen<'_>, p: &[u8], k: usize, last: bool)
    ensures { line.new ≡ added line.old (space ∷ written_param k last p.now) }
{
    line.put(b" ");
    if takes_colon(p, k, last) {
        line.put(b":");
    }
    line.put(p);
}

// Puts the parameters.
fn put_params(line: &mut Pen<'_>, text: &[u8], m: Message)
    requires { m.count ≤ param_limit }
    ensures { line.new ≡ added line.old (written_params 0 (map (bytes_at text.now) (take m.count m.params))) }
{
    for k in 0..m.count {
        let s = m.params[k];
        put_param(line, part(text, s.start, s.end), k, k + 1 == m.count);
    }
}

// Puts ':', the prefix and one SPACE, or nothing.
#[tactic(auto, using(octets::proofs::Pages::pieces), unfolding(crate::specs::Form::written_prefix))]
fn put_prefix(line: &mut Pen<'_>, text: &[u8], m: Message)
    ensures { line.new ≡ added line.old (written_prefix (cond m.has_prefix (some (bytes_at text.now m.prefix)) none)) }
{
    if m.has_prefix {
        line.put(b":");
        line.put(part(text, m.prefix.start, m.prefix.end));
        line.put(b" ");
    }
}

// Puts the bytes, every small letter in capitals.
#[tactic(auto, using(octets::proofs::Pages::added_map_more, octets::proofs::Pages::added_nothing))]
fn put_capitals(line: &mut Pen<'_>, p: &[u8])
    ensures { line.new ≡ added line.old (map capital_of p.now) }
{
    for b in p {
        line.put(&[capital(*b)]);
    }
}

// Puts the command, in capitals if they are asked for.
fn put_command(line: &mut Pen<'_>, p: &[u8], capitals: bool)
    ensures { line.new ≡ added line.old (cond capitals (map capital_of p.now) p.now) }
{
    if capitals {
        put_capitals(line, p);
    } else {
        line.put(p);
    }
}

// Puts the message, its command in capitals if they are asked for, and CR LF.
#[tactic(auto, using(octets::proofs::Pages::pieces), unfolding(crate::specs::Form::written, crate::specs::Form::written_body, crate::specs::Form::with_command, message::specs::Parts::content_by))]
pub(crate) fn put_message(line: &mut Pen<'_>, text: &[u8], m: Message, capitals: bool)
    requires { m.count ≤ param_limit }
    ensures { line.new ≡ added line.old (written (cased capitals (content_by text.now m))) }
{
    put_prefix(line, text, m);
    put_command(line, command_in(text, m), capitals);
    put_params(line, text, m);
    line.put(b"\r\n");
}
