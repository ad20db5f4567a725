// The day log: the file that keeps the record of each accepted line, from one start of the program to the next. At a start it is replayed; then records are added
// in groups, each of which is on the disk before it counts as kept.
ghost use Rattle.std.specs.Prelude.{◌≡◌, true, OnOk};
ghost use Rattle.octets.specs.Private.Additions.{Adds};
ghost use Rattle.console.specs.Daylog.{placed_text, refused_line, cut_line, unlinked as unlinked_of, goes_on, OfSomeStart};

use crate::answers::put_words;
use crate::stopping::{Stop, Unusable};
use bans::BanList;
use links::Links;
use logfile::{FileReplay, replay_file};
use octets::decimals::put_decimal;
use octets::{part, put};
use refusal::{ACCEPTED, LOG_CUT};
use std::env::{Env, FillError};
use std::fs::{File, OpenOptions};
use std::io;
use std::io::{ErrorKind, Print, Seek, SeekFrom, Write};
use std::os::fd::AsRawFd;
use std::str::from_utf8;
use table::Head;

// Room for what is said of a torn record.
const SAYING: usize = 4200;

// Room for a path.
pub(crate) const PATH: usize = 4096;

// The number of standard error, and the last of the three that every program has.
const STDERR: i32 = 2;

// A name as the system is asked for it.
fn name_of(path: &[u8]) -> io::Result<&str> {
    from_utf8(path).map_err(|_| io::Error::new(ErrorKind::InvalidInput, "the name isn't UTF-8"))
}

// Opens the file for reading and writing, and makes it where it is missing.
fn open_or_make(rt: &HostRuntime, path: &[u8]) -> io::Result<File> {
    let name = name_of(path)?;
    match OpenOptions::new().read(true).write(true).open(rt, name) {
        Err(e) if e.kind() == ErrorKind::NotFound => File::create_new(rt, name),
        opened => opened,
    }
}

// The folder of a path: all up to and including its last '/', or else the one in which the program runs.
fn folder_of(path: &[u8]) -> &[u8] {
    match path.iter().rposition(|b| *b == b'/') {
        Some(last) => &path[..last + 1],
        None => b".",
    }
}

// Syncs a folder, which keeps the names of its files.
fn sync_folder(rt: &HostRuntime, path: &[u8]) -> io::Result<()> {
    File::open(rt, name_of(path)?)?.sync_all()
}

// Whether the file has a number of its own. Where standard input, output or error is closed, it has got theirs.
fn is_apart(file: &File) -> bool {
    file.as_raw_fd() > STDERR
}

// The file, if it can be used: what it holds is on the disk, and its name. A pipe or a terminal can't be synced, and is no day log. Where standard input, output or
// error is closed, the file has got its number, and what is written there would stand in the day log: then it is closed.
fn usable<'a>(rt: &HostRuntime, path: &'a [u8]) -> Result<File, Unusable<'a>> {
    let file = open_or_make(rt, path).map_err(|why| Unusable::Path { path, why })?;
    if !is_apart(&file) {
        return Err(Unusable::Closed);
    }
    file.sync_data()
        .map_err(|why| Unusable::Path { path, why })?;
    let folder = folder_of(path);
    sync_folder(rt, folder).map_err(|why| Unusable::Path { path: folder, why })?;
    Ok(file)
}

// Opens the day log that the first argument names, and puts its path into the room. Without an argument there is none.
pub(crate) fn open_journal<'a>(
    rt: &HostRuntime,
    room: &'a mut [u8],
) -> Result<Option<File>, Unusable<'a>> {
    match rt.arg(1, room) {
        Ok(n) => usable(rt, &room[..n]).map(Some),
        Err(FillError::NotPresent) => Ok(None),
        Err(FillError::TooLong) => Err(Unusable::LongName),
    }
}

// Adds a number and a place.
fn put_placed(out: &mut [u8], at: usize, number: u8, place: u64) -> usize
    ensures { Adds out.old at out.new result (placed_text number place) }
{
    let numbered = put_decimal(out, at, number as u64);
    let joined = put(out, numbered, b" at ");
    put_decimal(out, joined, place)
}

// What is said of a log that can't be gone on with.
pub(crate) fn put_refused(out: &mut [u8], number: u8, place: u64) -> usize
    ensures { Adds out.old 0 out.new result (refused_line number place) }
{
    let opened = put(out, 0, b"relay: day log: refused by ");
    let placed = put_placed(out, opened, number, place);
    let parted = put(out, placed, b":");
    let told = put_words(out, parted, number, true);
    put(out, told, b"\n")
}

// What is said of a record that is cut off.
fn put_cut(out: &mut [u8], place: u64) -> usize
    ensures { Adds out.old 0 out.new result (cut_line place) }
{
    let opened = put(out, 0, b"note: day log: a torn record is cut off at ");
    let placed = put_decimal(out, opened, place);
    put(out, placed, b"\n")
}

// Makes the file as long as that, on the disk.
fn cut(file: &File, length: u64) -> io::Result<()> {
    file.set_len(length)?;
    file.sync_data()
}

// Cuts off the torn record at a place, with which the log ends, and says so.
fn cut_off(rt: &HostRuntime, file: &File, place: u64) -> io::Result<()> {
    cut(file, place)?;
    let mut text = [0u8; SAYING];
    let n = put_cut(&mut text, place);
    let _ = Print::write_all(&rt.stderr(), part(&text, 0, n));
    Ok(())
}

// Sees to it that the day can go on where its log ends. A last record that is torn is cut off: its line wasn't answered. Any other fault leaves the file alone.
fn mend(rt: &HostRuntime, file: &File, r: FileReplay) -> Result<(), Stop>
    ensures { OnOk result (goes_on r.number ≡ true) }
{
    match r.number {
        ACCEPTED => Ok(()),
        LOG_CUT => cut_off(rt, file, r.used).map_err(Stop::DayLog),
        number => Err(Stop::Refused {
            number,
            place: r.place,
        }),
    }
}

// The head with no link registered.
fn unlinked(head: Head) -> Head
    ensures { result ≡ unlinked_of head }
{
    Head {
        links: Links::none(),
        ..head
    }
}

// The table that the log leaves; no link is registered, as at any start.
pub(crate) fn restore(
    rt: &HostRuntime,
    journal: Option<&File>,
    bans: &mut [u8; BanList::BANS],
) -> Result<Head, Stop>
    ensures { OfSomeStart result bans.new }
{
    let Some(file) = journal else {
        return Ok(Head::empty(bans));
    };
    let mut log = file;
    let r = replay_file(&mut log, bans).map_err(Stop::DayLog)?;
    mend(rt, file, r)?;
    Ok(unlinked(r.head))
}

// Writes records at the end of the file, in one go, and on the disk.
fn write_synced(mut file: &File, records: &[u8]) -> io::Result<()> {
    file.write_all(records)?;
    file.sync_data()
}

// Keeps a group's records in the file. Where they can't be kept, why is said, and then the file is cut back to its length before them: whoever ends the program in
// between knows that they aren't kept.
fn keep_in(rt: &HostRuntime, mut file: &File, records: &[u8]) -> Result<(), Stop> {
    let before = file.seek(SeekFrom::End(0)).map_err(Stop::DayLog)?;
    let Err(added) = write_synced(file, records) else {
        return Ok(());
    };
    Stop::DayLog(added).say(&rt.stderr());
    Err(cut(file, before).map_or_else(Stop::CutBack, |()| Stop::Said))
}

// Keeps a group's records, where there is a day log.
pub(crate) fn keep(rt: &HostRuntime, journal: Option<&File>, records: &[u8]) -> Result<(), Stop> {
    match journal {
        Some(file) if !records.is_empty() => keep_in(rt, file, records),
        _ => Ok(()),
    }
}
