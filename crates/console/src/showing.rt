// A refused line as it is shown to whoever typed it, with a caret under the place that is at fault.
ghost use Rattle.std.specs.Prelude.{◌≡◌, map, ◌≤◌, length, replicate};
ghost use Rattle.octets.specs.Bytes.{space};
ghost use Rattle.octets.specs.Private.Additions.{Adds};
ghost use Rattle.console.specs.Showing.{shown_byte, pointed_line};

use octets::{part, put};

// The byte, or '?' where a terminal would do something else than show it in one column.
fn shown_byte(b: u8) -> u8
    ensures { result ≡ shown_byte b }
{
    if b < b' ' {
        return b'?';
    }
    if b'~' < b {
        return b'?';
    }
    b
}

// Adds bytes as they are shown.
fn put_shown(out: &mut [u8], at: usize, bytes: &[u8]) -> usize
    ensures { Adds out.old at out.new result (map shown_byte bytes.now) }
{
    let mut next = at;
    let mut i = 0;
    while i < bytes.len() {
        let column = [shown_byte(bytes[i])];
        next = put(out, next, &column);
        i += 1;
    }
    next
}

// Adds some SPACEs.
fn put_spaces(out: &mut [u8], at: usize, count: usize) -> usize
    ensures { Adds out.old at out.new result (replicate count space) }
{
    let mut next = at;
    let mut left = count;
    while left > 0 {
        next = put(out, next, b" ");
        left -= 1;
    }
    next
}

// Adds a line without its CR LF, and a caret under a place of it.
pub(crate) fn put_pointed(out: &mut [u8], at: usize, place: usize, line: &[u8]) -> usize
    requires { 2 ≤ length line.now }
    ensures { Adds out.old at out.new result (pointed_line place line.now) }
{
    let shown = put_shown(out, at, part(line, 0, line.len() - 2));
    let under = put(out, shown, b"\n");
    let indented = put_spaces(out, under, place);
    put(out, indented, b"^\n")
}
