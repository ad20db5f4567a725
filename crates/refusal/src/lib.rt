// Why bad input is refused: each refusal with the words of document 01's table ("given exactly when") or of 02's requests, and the number that it has there.
// No other source file writes such a number as a literal. specs/Numbers.antt has the numbers under the same names.
#![tactic(auto)]

ghost use Rattle.std.specs.Prelude.{◌≡◌};
ghost use Rattle.refusal.specs.Refusals.{number_of, answered, unplaced};

// The number that says that nothing is refused: it isn't in the table.
pub const ACCEPTED: u8 = 0;

// What is refused, and why. The places of a refusal in the order in which they are looked for aren't those of its number (specs/Numbers.antt, `order`).
#[derive(Clone, Copy, Debug, PartialEq, Eq)]
pub enum Refusal {
    // table or record not well formed; a feeder's state that no bytes reach
    NotWellFormed = 1,

    // lent output under 512 bytes (line writer, commands)
    OutputTooShort = 2,

    // link above 31 (commands, registering, dropping, log), or (commands) not registered
    BadLink = 3,

    // line over 512 bytes (reader, log); the feeder yields it for such a line
    LineTooLong = 4,

    // no CR LF at the end
    NoLineEnd = 5,

    // NUL, CR or LF before it
    ForbiddenByte = 6,

    // only CR LF
    EmptyLine = 7,

    // prefix empty
    EmptyPrefix = 8,

    // command malformed or missing
    BadCommand = 9,

    // a sixteenth parameter: given no longer, all after the fourteenth is the fifteenth (02 §7)
    TooManyParams = 10,

    // command not one of the three, nor of those that 02 adds
    UnknownCommand = 11,

    // parameters not 4 to 6 (SJOIN), 1 to 2 (PART), 0 to 1 (QUIT), 4 (BMASK)
    WrongParamCount = 12,

    // prefix missing or not a server id (SJOIN, BMASK), user id (PART, QUIT)
    BadSource = 13,

    // time malformed or too large
    BadTime = 14,

    // time is `0`
    ZeroTime = 15,

    // bad channel name; two records' names differ
    BadName = 16,

    // bad modes, key, limit, or their number: given no longer, 32 to 36 have taken its place (02 §6)
    BadModes = 17,

    // bad member list
    BadMembers = 18,

    // channel not in the table (PART, BMASK, a question about a ban, a channel looked for)
    NoSuchChannel = 19,

    // user not in it (PART)
    NotOnChannel = 20,

    // new name, all 16 slots used
    NoFreeSlot = 21,

    // more than 64 distinct members would result
    TooManyMembers = 22,

    // mask or text over 512 bytes
    TextTooLong = 23,

    // message whose written form, length apart, would not read back as it, or whose parts lie outside the lent bytes
    Unwritable = 24,

    // written line over 512 bytes; log buffer shorter than the line and 5
    NoRoom = 25,

    // a BMASK's type or mask list is bad (02 §2); after 18
    BadMasks = 26,

    // more than 32 masks would result (02 §2); after 22
    TooManyMasks = 27,

    // the day log has no mark where a record begins (02 §5); 28 to 31 are the log reader's, each with the place of the first byte at fault
    NoMark = 28,

    // the link of a record of the day log is above 31 (02 §5)
    BadLogLink = 29,

    // the length of a record of the day log is over 512 (02 §5)
    BadLogLength = 30,

    // the day log ends inside a record (02 §5)
    LogCut = 31,

    // a letter of the modes is none of the eight, or no '+' stands before them (02 §6); 32 to 36 stand in 17's place, and of them the earliest place in the line decides
    UnknownMode = 32,

    // a letter of the eight stands twice in the modes (02 §6)
    ModeTwice = 33,

    // a parameter of the modes is missing, or there are too many (02 §6)
    WrongModeParams = 34,

    // bad key (02 §6)
    BadKey = 35,

    // bad limit (02 §6)
    BadLimit = 36,
}

impl Refusal {
    // The number that it has in the papers.
    pub fn number(self) -> u8
        ensures { result ≡ number_of self }
    {
        self as u8
    }

    // The refusal with the place of what is at fault.
    pub fn at(self, place: usize) -> Fault
        ensures { result ≡ record { refusal = self; place = place } }
    {
        Fault {
            refusal: self,
            place,
        }
    }
}

// The number that tells of an answer to a caller that has no enums: ACCEPTED, or that of the refusal.
pub fn number<T>(answer: &Result<T, Refusal>) -> u8
    ensures { result ≡ answered answer.now }
{
    match answer {
        Ok(_) => ACCEPTED,
        Err(refusal) => refusal.number(),
    }
}

// A refusal with the place of what is at fault, or 0 where it tells none.
#[derive(Clone, Copy, Debug, PartialEq, Eq)]
pub struct Fault {
    pub refusal: Refusal,
    pub place: usize,
}

impl From<Refusal> for Fault {
    ghost from_gives = { λ e f. f ≡ unplaced e };

    fn from(refusal: Refusal) -> Fault {
        Fault { refusal, place: 0 }
    }
}

// The numbers by name, for what is not turned to `Refusal` yet.
pub const NOT_WELL_FORMED: u8 = 1;

pub const OUTPUT_TOO_SHORT: u8 = 2;

pub const BAD_LINK: u8 = 3;

pub const LINE_TOO_LONG: u8 = 4;

pub const NO_LINE_END: u8 = 5;

pub const FORBIDDEN_BYTE: u8 = 6;

pub const EMPTY_LINE: u8 = 7;

pub const EMPTY_PREFIX: u8 = 8;

pub const BAD_COMMAND: u8 = 9;

pub const TOO_MANY_PARAMS: u8 = 10;

pub const UNKNOWN_COMMAND: u8 = 11;

pub const WRONG_PARAM_COUNT: u8 = 12;

pub const BAD_SOURCE: u8 = 13;

pub const BAD_TIME: u8 = 14;

pub const ZERO_TIME: u8 = 15;

pub const BAD_NAME: u8 = 16;

pub const BAD_MODES: u8 = 17;

pub const BAD_MEMBERS: u8 = 18;

pub const NO_SUCH_CHANNEL: u8 = 19;

pub const NOT_ON_CHANNEL: u8 = 20;

pub const NO_FREE_SLOT: u8 = 21;

pub const TOO_MANY_MEMBERS: u8 = 22;

pub const TEXT_TOO_LONG: u8 = 23;

pub const UNWRITABLE: u8 = 24;

pub const NO_ROOM: u8 = 25;

pub const BAD_MASKS: u8 = 26;

pub const TOO_MANY_MASKS: u8 = 27;

pub const NO_MARK: u8 = 28;

pub const BAD_LOG_LINK: u8 = 29;

pub const BAD_LOG_LENGTH: u8 = 30;

pub const LOG_CUT: u8 = 31;

pub const UNKNOWN_MODE: u8 = 32;

pub const MODE_TWICE: u8 = 33;

pub const WRONG_MODE_PARAMS: u8 = 34;

pub const BAD_KEY: u8 = 35;

pub const BAD_LIMIT: u8 = 36;
