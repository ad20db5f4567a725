// What makes the program stop, and what is said of it.
use crate::daylog::put_refused;
use logfile::fail;
use octets::{part, put};
use std::io;
use std::io::Print;

// Room for what is said of a file, its name included.
const SAYING: usize = 4200;

// Why the program stops.
#[derive(Drop)]
pub(crate) enum Stop {
    // standard input can't be read
    Input(io::Error),

    // standard output can't be written: whoever waits for an answer can't be told
    Output(io::Error),

    // the day log can't be read or written
    DayLog(io::Error),

    // records can't be added to the day log, nor can it be cut back to its length before them: of the first it was said already
    CutBack(io::Error),

    // the day can't go on where its log ends
    Refused { number: u8, place: u64 },

    // what it is was said already
    Said,
}

// Says that the day can't go on where its log ends.
fn say_refused(to: &impl Print, number: u8, place: u64) {
    let mut text = [0u8; SAYING];
    let n = put_refused(&mut text, number, place);
    let _ = to.write_all(part(&text, 0, n));
}

impl Stop {
    // Says it. Whether that is heard can't be told.
    pub(crate) fn say(self, to: &impl Print) {
        match self {
            Stop::Input(why) => fail(to, b"relay: standard input", why),
            Stop::Output(why) => fail(to, b"relay: standard output", why),
            Stop::DayLog(why) => fail(to, b"relay: day log", why),
            Stop::CutBack(why) => fail(to, b"relay: day log, cutting it back", why),
            Stop::Refused { number, place } => say_refused(to, number, place),
            Stop::Said => {}
        }
    }
}

// Why there is no day log to go on with.
#[derive(Drop)]
pub(crate) enum Unusable<'a> {
    // a file or a folder can't be used
    Path { path: &'a [u8], why: io::Error },

    // the name of the file has no room
    LongName,

    // standard input, output or error is closed
    Closed,
}

// Says why a file or a folder can't be used.
fn say_path(to: &impl Print, path: &[u8], why: io::Error) {
    let mut text = [0u8; SAYING];
    let opened = put(&mut text, 0, b"relay: ");
    let n = put(&mut text, opened, path);
    fail(to, part(&text, 0, n), why);
}

impl Unusable<'_> {
    // Says it. Whether that is heard can't be told.
    pub(crate) fn say(self, to: &impl Print) {
        let _ = match self {
            Unusable::Path { path, why } => {
                say_path(to, path, why);
                Ok(())
            }
            Unusable::LongName => to.write_all(b"relay: the day log's name: File name too long\n"),
            Unusable::Closed => to.write_all(b"relay: standard input, output or error is closed\n"),
        };
    }
}
