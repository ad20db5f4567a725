// Which messages can be written, their length apart: tests of the parts, which the proof shows to be exactly that the written form reads
// back as the message and the parts lie in the text.
ghost use Rattle.std.specs.Prelude.{◌≡◌, ◌≤◌, take};
ghost use Rattle.message.specs.Grammar.{param_limit, is_middle};
ghost use Rattle.writer.specs.Form.{lies_in};
ghost use Rattle.writer.specs.Private.Fit.{good_param, good_prefix, fit_prefix, fit_command, fit_param, fit_params, fit as fit_of};

use message::{Message, PARAM_LIMIT, Span};
use octets::{Class, all_in, part};

// Whether the span is a part of n bytes.
#[tactic(auto, unfolding(crate::specs::Form::lies_in))]
fn lies(s: Span, n: usize) -> bool
    ensures { result ≡ lies_in n s }
{
    s.start <= s.end && s.end <= n
}

// A middle: one or more bytes, no SPACE, not starting with ':'.
#[tactic(auto, unfolding(message::specs::Grammar::is_middle))]
pub(crate) fn is_middle(p: &[u8]) -> bool
    ensures { result ≡ is_middle p.now }
{
    !matches!(p, [] | [b':', ..]) && all_in(p, Class::NonSpace)
}

// Whether a parameter can be written: no NUL, CR or LF, and a middle unless it is the last.
#[tactic(auto, unfolding(crate::specs::Private::Fit::good_param))]
fn good_param(p: &[u8], last: bool) -> bool
    ensures { result ≡ good_param last p.now }
{
    all_in(p, Class::Plain) && (last || is_middle(p))
}

// Whether the prefix can be written: one or more bytes, none of them NUL, CR, LF or SPACE.
#[tactic(auto, unfolding(crate::specs::Private::Fit::good_prefix))]
fn good_prefix(p: &[u8]) -> bool
    ensures { result ≡ good_prefix p.now }
{
    !p.is_empty() && all_in(p, Class::Plain) && all_in(p, Class::NonSpace)
}

// Whether the prefix, if there is one, lies in the text and can be written.
#[tactic(auto, unfolding(crate::specs::Private::Fit::fit_prefix))]
fn fit_prefix(text: &[u8], m: Message) -> bool
    ensures { result ≡ fit_prefix text.now m }
{
    let s = m.prefix;
    !m.has_prefix || lies(s, text.len()) && good_prefix(part(text, s.start, s.end))
}

// Whether the command lies in the text and can be written.
#[tactic(auto, unfolding(crate::specs::Private::Fit::fit_command))]
fn fit_command(text: &[u8], m: Message) -> bool
    ensures { result ≡ fit_command text.now m }
{
    let s = m.command;
    lies(s, text.len()) && message::is_command(part(text, s.start, s.end))
}

// Whether a parameter lies in the text and can be written.
#[tactic(auto, unfolding(crate::specs::Private::Fit::fit_param))]
fn fit_param(text: &[u8], s: Span, last: bool) -> bool
    ensures { result ≡ fit_param text.now last s }
{
    lies(s, text.len()) && good_param(part(text, s.start, s.end), last)
}

// Whether every parameter lies in the text and can be written.
fn fit_params(text: &[u8], m: Message) -> bool
    requires { m.count ≤ param_limit }
    ensures { result ≡ fit_params text.now (take m.count m.params) }
{
    for k in 0..m.count {
        if !fit_param(text, m.params[k], k + 1 == m.count) {
            return false;
        }
    }
    true
}

// Whether the message can be written, its length apart.
#[tactic(auto, unfolding(crate::specs::Private::Fit::fit))]
pub(crate) fn fit(text: &[u8], m: Message) -> bool
    ensures { result ≡ fit_of text.now m }
{
    m.count <= PARAM_LIMIT && fit_prefix(text, m) && fit_command(text, m) && fit_params(text, m)
}
