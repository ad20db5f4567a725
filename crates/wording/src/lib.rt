// The words of refusals: those of documents 01 and 02, shortened, for people to read beside the number. Each text stands once here, and once in specs/Wording.antt with
// the number that it belongs to; a function that answers one where its contract says the other isn't proved. Any later number adds its text to both.
#![tactic(auto)]

ghost use Rattle.std.specs.Prelude.{◌≡◌, ◌≤◌, length};
ghost use Rattle.wording.specs.Wording.{text_limit, holding, text_of};

use octets::put;
use refusal::{
    BAD_COMMAND, BAD_KEY, BAD_LIMIT, BAD_LINK, BAD_LOG_LENGTH, BAD_LOG_LINK, BAD_MASKS,
    BAD_MEMBERS, BAD_NAME, BAD_SOURCE, BAD_TIME, EMPTY_LINE, EMPTY_PREFIX, FORBIDDEN_BYTE,
    LINE_TOO_LONG, LOG_CUT, MODE_TWICE, NO_FREE_SLOT, NO_LINE_END, NO_MARK, NO_ROOM,
    NO_SUCH_CHANNEL, NOT_ON_CHANNEL, NOT_WELL_FORMED, OUTPUT_TOO_SHORT, TEXT_TOO_LONG,
    TOO_MANY_MASKS, TOO_MANY_MEMBERS, UNKNOWN_COMMAND, UNKNOWN_MODE, UNWRITABLE, WRONG_MODE_PARAMS,
    WRONG_PARAM_COUNT, ZERO_TIME,
};

// The most bytes of a text.
pub const TEXT_LIMIT: usize = 48;

// A text at the front of its room, the rest of which is zero.
// Kept (6): C's struct.
#[repr(C)]
#[derive(Clone, Copy)]
pub struct Text {
    pub bytes: [u8; TEXT_LIMIT],
    pub len: usize,
}

// The words at the front of a room.
// Kept (2): by `padded` a text takes 1.4 times as long (docs/DESIGN-PASS.md).
fn held(words: &[u8]) -> Text
    requires { length words.now ≤ text_limit }
    ensures { result ≡ holding words.now }
{
    let mut bytes = [0u8; TEXT_LIMIT];
    put(&mut bytes, 0, words);
    Text {
        bytes,
        len: words.len(),
    }
}

// The words of a refusal's number; of any other number none.
// Kept (7): the archive for C needs no data that a loader has to relocate; a table of lent texts does (docs/LOOK-BACK.md, c3).
pub fn words(number: u8) -> Text
    ensures { result ≡ text_of number }
{
    match number {
        NOT_WELL_FORMED => held(b"table, record or feeder not well formed"),
        OUTPUT_TOO_SHORT => held(b"output under 512 bytes"),
        BAD_LINK => held(b"link above 31, or not registered"),
        LINE_TOO_LONG => held(b"line over 512 bytes"),
        NO_LINE_END => held(b"no CR LF at the end"),
        FORBIDDEN_BYTE => held(b"NUL, CR or LF before the end"),
        EMPTY_LINE => held(b"only CR LF"),
        EMPTY_PREFIX => held(b"prefix empty"),
        BAD_COMMAND => held(b"command malformed or missing"),
        UNKNOWN_COMMAND => held(b"command not SJOIN, PART, QUIT or BMASK"),
        WRONG_PARAM_COUNT => held(b"too few or too many parameters"),
        BAD_SOURCE => held(b"prefix missing or no id of its kind"),
        BAD_TIME => held(b"time malformed or too large"),
        ZERO_TIME => held(b"time is 0"),
        BAD_NAME => held(b"bad channel name, or names differ"),
        UNKNOWN_MODE => held(b"mode letter unknown, or '+' missing"),
        MODE_TWICE => held(b"mode letter twice"),
        WRONG_MODE_PARAMS => held(b"mode parameter missing, or too many"),
        BAD_KEY => held(b"bad key: 1 to 23 bytes of 33 to 126, no comma"),
        BAD_LIMIT => held(b"bad limit: not 1 to 65535"),
        BAD_MEMBERS => held(b"bad member list"),
        BAD_MASKS => held(b"bad type or mask list"),
        NO_SUCH_CHANNEL => held(b"channel not in the table"),
        NOT_ON_CHANNEL => held(b"user not in it"),
        NO_FREE_SLOT => held(b"all 16 slots used"),
        TOO_MANY_MEMBERS => held(b"more than 64 members would result"),
        TOO_MANY_MASKS => held(b"more than 32 masks would result"),
        TEXT_TOO_LONG => held(b"mask or text over 512 bytes"),
        UNWRITABLE => held(b"message would not read back"),
        NO_ROOM => held(b"no room for what is written"),
        NO_MARK => held(b"no mark where a record of the log begins"),
        BAD_LOG_LINK => held(b"link above 31 in a record of the log"),
        BAD_LOG_LENGTH => held(b"length over 512 in a record of the log"),
        LOG_CUT => held(b"the log ends inside a record"),
        _ => held(b""),
    }
}
