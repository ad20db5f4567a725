// What a line asks for by itself: its command, and the channel and the user that it is about, or why it is refused. No table is looked at, and nothing is
// written.
ghost use Rattle.std.specs.Prelude.{◌≡◌, ◌≤◌, cond, length, Ok, Err};
ghost use Rattle.refusal.specs.Numbers.{bad_source};
ghost use Rattle.names.specs.Names.{is_user_id as is_user_of};
ghost use Rattle.message.specs.Grammar.{line_limit};
ghost use Rattle.message.specs.Content.{prefix_is, source_in};
ghost use Rattle.message.specs.Parts.{content_by};
ghost use Rattle.relay.specs.Commands.{command_of};
ghost use Rattle.relay.specs.Private.Work.{by_number, by_place};
ghost use Rattle.relay.specs.Private.Commands.{asked_by};

use crate::Request;
use crate::joining::join_request;
use crate::masking::mask_request;
use crate::parting::part_request;
use crate::quitting::quit_request;
use message::Message;
use message::spans::{command_in, prefix_in};
use names::{USER_ID, is_user_id, user_id};
use refusal::{Fault, Refusal};

// The user that a line comes from.
pub(crate) fn user_in(line: &[u8], m: Message) -> Result<[u8; USER_ID], Refusal>
    ensures { by_number result ≡ cond (prefix_is is_user_of (content_by line.now m).prefix) (Ok (source_in (content_by line.now m))) (Err bad_source) }
{
    let source = prefix_in(line, m);
    if is_user_id(source) {
        Ok(user_id(source))
    } else {
        Err(Refusal::BadSource)
    }
}

// What a line asks for, by its parts: the first of the refusals 11 to 16, 32 to 36, 18 and 26 that applies, or the request.
pub(crate) fn requested(line: &[u8], m: Message) -> Result<Request, Fault>
    requires { length line.now ≤ line_limit }
    ensures { by_place result ≡ asked_by (command_of (content_by line.now m).command) line.now m }
{
    let word = command_in(line, m);
    if word.eq_ignore_ascii_case(b"SJOIN") {
        join_request(line, m)
    } else if word.eq_ignore_ascii_case(b"PART") {
        Ok(part_request(line, m)?)
    } else if word.eq_ignore_ascii_case(b"QUIT") {
        Ok(quit_request(line, m)?)
    } else if word.eq_ignore_ascii_case(b"BMASK") {
        Ok(mask_request(line, m)?)
    } else {
        Err(Refusal::UnknownCommand.into())
    }
}
