// What a program says where a file, its input or its output fails.
ghost use Rattle.std.specs.Prelude.{◌≡◌, OnOk, IfErr};
ghost use Rattle.std.specs.Io.{ReadsAtMost};
ghost use Rattle.std.specs.Io.KnownBytes.{ReadConsumes};
ghost use Rattle.logfile.specs.Failing.{source_reader, source_why, source_remaining};

use std::fmt::InlineText;
use std::io;
use std::io::{Print, Read};

// Room for what the system says of a failure.
const REASON: usize = 256;

// A reader that keeps why reading it failed: of some failures the last.
#[derive(Drop)]
pub struct Source<R> {
    reader: R,
    why: io::Error,
}

impl<R: Read> Source<R> {
    // Nothing has failed yet. If a replay fails all the same, it has read more often than it can.
    pub fn new(reader: R) -> Source<R>
        ensures { source_reader result ≡ reader }
    {
        Source {
            reader,
            why: io::Error::other("too many reads"),
        }
    }

    // Why reading failed.
    pub fn why(&self) -> io::Error
        ensures { result ≡ source_why self.now }
    {
        self.why
    }
}

impl<R: Read> Read for Source<R> {
    ghost remaining = { source_remaining R.remaining };

    fn read(&mut self, buf: &mut [u8]) -> io::Result<usize>
        ensures bound { ReadsAtMost result buf.new }
        ensures bytes { ReadConsumes (source_remaining R.remaining self.old) (source_remaining R.remaining self.new) result buf.new }
        ensures kept { IfErr result (λ e. source_why self.new ≡ e) }
        ensures same { OnOk result (source_why self.new ≡ source_why self.old) }
    {
        match self.reader.read(buf) {
            Ok(n) => Ok(n),
            Err(e) => {
                self.why = e;
                Err(e)
            }
        }
    }
}

// Says what failed, ": ", why, in the system's words, which end before the error's number, and LF. Whether that is heard can't be told.
pub fn fail(to: &impl Print, what: &[u8], why: io::Error) {
    let text = InlineText::<REASON>::of(why);
    let all = text.as_str();
    let words = all
        .rsplit_once(" (os error ")
        .map_or(all, |(words, _)| words);
    let _ = to.write_all(what);
    let _ = to.write_all(b": ");
    let _ = to.write_all(words.as_bytes());
    let _ = to.write_all(b"\n");
}
