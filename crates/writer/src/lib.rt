// Writes a message in the one fixed form (document 01, 'Reading one line'; document 02, §7): one SPACE between parts, ':' before the last parameter exactly if
// it is empty, starts with ':' or holds a SPACE, before a fifteenth exactly if it is empty or starts with ':' or SPACE, CR LF at the end. A line is put together
// apart, and goes to the front of the lent output only if nothing refuses it.
#![tactic(auto)]

mod fit;
pub mod form;

ghost use Rattle.std.specs.Prelude.{◌≡◌};
ghost use Rattle.refusal.specs.Rules.{emitted};
ghost use Rattle.octets.specs.Room.{front};
ghost use Rattle.message.specs.Parts.{content_by};
ghost use Rattle.writer.specs.Form.{written, in_capitals};
ghost use Rattle.writer.specs.Writing.{write_rules, forward_rules, forwarded, written_of, written_answer};
ghost use Rattle.writer.specs.Private.Fit.{cased};

use fit::fit;
use form::put_message;
use message::{LINE_LIMIT, Message};
use octets::pen::Pen;
use refusal::Refusal;

// The number of a refusal, or ACCEPTED, and how many bytes were written.
#[repr(C)]
#[derive(Clone, Copy)]
pub struct Written {
    pub number: u8,
    pub len: usize,
}

// A refusal writes nothing.
impl From<Result<usize, Refusal>> for Written {
    ghost from_gives = { λ answer w. w ≡ written_of answer };

    fn from(answer: Result<usize, Refusal>) -> Written
        ensures { result ≡ written_of answer }
    {
        Written {
            number: refusal::number(&answer),
            len: answer.unwrap_or(0),
        }
    }
}

// Writes the message, its command in capitals if they are asked for.
fn write_cased(text: &[u8], m: Message, capitals: bool, out: &mut [u8]) -> Result<usize, Refusal>
    ensures answer { written_of result ≡ written_answer (write_rules text.now m out.old) (written (cased capitals (content_by text.now m))) }
    ensures output { out.new ≡ front (emitted (write_rules text.now m out.old) (written (cased capitals (content_by text.now m)))) out.old }
{
    if out.len() < LINE_LIMIT {
        return Err(Refusal::OutputTooShort);
    }
    if !fit(text, m) {
        return Err(Refusal::Unwritable);
    }
    let mut room = [0u8; LINE_LIMIT];
    let mut line = Pen::new(&mut room);
    put_message(&mut line, text, m, capitals);
    line.copy_to(out).ok_or(Refusal::NoRoom)
}

// Writes the message, whose parts are spans of the text, to the front of the output.
#[tactic(auto, unfolding(crate::specs::Form::with_command))]
pub fn write(text: &[u8], m: Message, out: &mut [u8]) -> Written
    ensures answer { result ≡ written_answer (write_rules text.now m out.old) (written (content_by text.now m)) }
    ensures output { out.new ≡ front (emitted (write_rules text.now m out.old) (written (content_by text.now m))) out.old }
{
    write_cased(text, m, false, out).into()
}

// The same, with the command in capitals: how a line goes out that is passed on unchanged, by the parts that the reader found.
#[tactic(auto, unfolding(crate::specs::Form::with_command))]
pub fn forward_message(text: &[u8], m: Message, out: &mut [u8]) -> Written
    ensures answer { result ≡ written_answer (write_rules text.now m out.old) (written (in_capitals (content_by text.now m))) }
    ensures output { out.new ≡ front (emitted (write_rules text.now m out.old) (written (in_capitals (content_by text.now m)))) out.old }
{
    write_cased(text, m, true, out).into()
}

// Writes a line as it was read, its command in capitals, to the front of the output.
pub fn forward(line: &[u8], out: &mut [u8]) -> Written
    ensures answer { result ≡ written_answer (forward_rules line.now out.old) (forwarded line.now) }
    ensures output { out.new ≡ front (emitted (forward_rules line.now out.old) (forwarded line.now)) out.old }
{
    forward_line(line, out).into()
}

// The same: what is read of the line is written.
fn forward_line(line: &[u8], out: &mut [u8]) -> Result<usize, Refusal>
    ensures answer { written_of result ≡ written_answer (forward_rules line.now out.old) (forwarded line.now) }
    ensures output { out.new ≡ front (emitted (forward_rules line.now out.old) (forwarded line.now)) out.old }
{
    if out.len() < LINE_LIMIT {
        return Err(Refusal::OutputTooShort);
    }
    let answer = message::parse(line);
    let Ok(m) = answer else {
        return Err(answer.unwrap_err());
    };
    write_cased(line, m, true, out)
}
