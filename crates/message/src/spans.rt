// Parts of a text by a message's spans: each is taken by its span, and the text isn't scanned for it again. Any spans are taken: what lies past the
// text's end is left off.
ghost use Rattle.std.specs.Prelude.{◌≡◌, [], length, get_or};
ghost use Rattle.std.proofs.Math.Option;
ghost use Rattle.octets.specs.Room.{place_in};
ghost use Rattle.message.specs.Parts.{content_by, prefix_span, param_span, start_in};

use crate::{Message, PARAM_LIMIT};
use octets::part;

// The prefix, or the empty part at the text's end.
pub fn prefix_in(text: &[u8], m: Message) -> &[u8]
    ensures bytes { result.now ≡ Option.get_or (content_by text.now m).prefix [] }
    ensures place { result.ref_ptr ≡ place_in text.entry (start_in (length text.now) (prefix_span (length text.now) m)) }
{
    let n = text.len();
    if !m.has_prefix {
        return part(text, n, n);
    }
    let s = m.prefix;
    part(text, s.start, s.end)
}

// The command.
pub fn command_in(text: &[u8], m: Message) -> &[u8]
    ensures bytes { result.now ≡ (content_by text.now m).command }
    ensures place { result.ref_ptr ≡ place_in text.entry (start_in (length text.now) m.command) }
{
    let s = m.command;
    part(text, s.start, s.end)
}

// The parameter k, counted from 0, or the empty part at the text's end.
pub fn param_in(text: &[u8], m: Message, k: usize) -> &[u8]
    ensures bytes { result.now ≡ get_or (content_by text.now m).params k [] }
    ensures place { result.ref_ptr ≡ place_in text.entry (start_in (length text.now) (param_span (length text.now) m k)) }
{
    let n = text.len();
    if PARAM_LIMIT <= k {
        return part(text, n, n);
    }
    if m.count <= k {
        return part(text, n, n);
    }
    let s = m.params[k];
    part(text, s.start, s.end)
}
