// QUIT: what its line asks for. It names no channel. Nothing is written.
ghost use Rattle.std.specs.Prelude.{◌≡◌};
ghost use Rattle.message.specs.Parts.{content_by};
ghost use Rattle.relay.specs.Private.Work.{by_number, ruled};
ghost use Rattle.relay.specs.Private.Quit.{work};

use crate::Request;
use crate::requests::user_in;
use message::Message;
use refusal::Refusal;

// QUIT: the user who leaves every channel.
pub(crate) fn quit_request(line: &[u8], m: Message) -> Result<Request, Refusal>
    ensures { by_number result ≡ ruled (work.own (content_by line.now m)) (work.asks m (content_by line.now m)) }
{
    if 1 < m.count {
        return Err(Refusal::WrongParamCount);
    }
    let user = user_in(line, m)?;
    Ok(Request::Quit { user })
}
