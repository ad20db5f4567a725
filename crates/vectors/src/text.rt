// Parts of a record's bytes.
ghost use Rattle.std.specs.Prelude.{◌<◌, length, IfSome};

// The bytes before the last.
pub(crate) fn without_end(s: &[u8]) -> &[u8] {
    match s {
        [rest @ .., _] => rest,
        [] => s,
    }
}

// The line without its CR LF.
pub(crate) fn body(line: &[u8]) -> &[u8] {
    match line {
        [body @ .., _, _] => body,
        _ => line,
    }
}

// The place of the first SPACE.
fn first_space(s: &[u8]) -> Option<usize>
    ensures { IfSome result (λ at. at < length s.now) }
{
    s.iter().position(|b| *b == b' ')
}

// What stands before the first SPACE, or all.
pub(crate) fn before_space(s: &[u8]) -> &[u8] {
    match first_space(s) {
        Some(at) => &s[..at],
        None => s,
    }
}

// What follows the first SPACE.
pub(crate) fn after_space(s: &[u8]) -> &[u8] {
    match first_space(s) {
        Some(at) => &s[at + 1..],
        None => b"",
    }
}
