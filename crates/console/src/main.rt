// The relay on standard input and output, for a person at a terminal, a script, or socat. Input, a line each: `+N` registers link N, `-N` drops it, `N `
// and the bytes up to and including LF are a line from link N, `?` asks for the table, and `banned NAME TEXT` whether a text is banned from a channel. Answers come
// in the order of the input. A refused line gets `! NUMBER`, or `! NUMBER PLACE` where the relay tells the place at fault: how many bytes of the link's line, without
// the `N ` before it, stand before that. At a terminal the number has its words, and the line is shown with a caret under the place. The links' lines of one read are a
// group: they are answered together, at its end. Any other request closes the group before it.
// With an argument, the file of that name is the day log. Its records are taken first, so that the day goes on where it was; then the records of each group's accepted
// lines are added, and on the disk, before any line of the group is answered. What makes the program stop is said on standard error in a line that begins with
// 'relay: ', by which bin/relay knows: the program's own status is 0 whatever it says.
#![tactic(auto)]

mod answers;
mod daylog;
mod groups;
mod lines;
mod requests;
mod showing;
mod stopping;

ghost use Rattle.std.specs.Prelude.{◌≡◌, true, OnOk};
ghost use Rattle.console.specs.Groups.{has_room, no_lines, Takes};

use answers::{
    ROOM, print, put_accepted, put_refused, say_banned, say_channels, say_done, say_help,
};
use bans::BanList;
use daylog::{PATH, keep, open_journal, restore};
use groups::Group;
use lines::{Lines, Pending, ends_in_lf};
use message::LINE_LIMIT;
use octets::part;
use refusal::ACCEPTED;
use relay::process;
use requests::{Request, line_from, name_in, request_in, text_in, typed, typed_request};
use std::fs::File;
use std::io::{IsTerminal, Print, Read};
use std::{io, mem};
use stopping::Stop;
use table::{Head, Registered, is_banned, register, unregister};

// The most bytes that are read at once.
const PIECE: usize = 4096;

// What is kept from one line to the next: the table's head and its ban lists, the group that is put together, the line under way, the file of the day log, if there is
// one, and whether the input is typed. It is large, so it is lent.
#[derive(Drop)]
struct Session {
    head: Head,
    bans: [u8; BanList::BANS],
    group: Group,
    pending: Pending,
    journal: Option<File>,
    typed: bool,
}

impl Session {
    // The table is empty, and nothing has come.
    fn new(journal: Option<File>) -> Session {
        let mut bans = [0u8; BanList::BANS];
        let head = Head::empty(&mut bans);
        Session {
            head,
            bans,
            group: Group::empty(),
            pending: Pending::empty(),
            journal,
            typed: false,
        }
    }

    // Closes the group: its records are kept, and then it is answered.
    fn close_group(&mut self, rt: &HostRuntime) -> Result<(), Stop>
        ensures { OnOk result (self.new.group ≡ no_lines) }
    {
        keep(rt, self.journal.as_ref(), self.group.records())?;
        print(rt, self.group.answers()).map_err(Stop::Output)?;
        self.group.clear();
        Ok(())
    }

    // Closes the group unless there is room in it for another line.
    fn make_room(&mut self, rt: &HostRuntime) -> Result<(), Stop>
        ensures { OnOk result (has_room self.new.group ≡ true) }
    {
        if !self.group.has_room() {
            self.close_group(rt)?;
        }
        Ok(())
    }

    // A line came from a link. Its answer joins the group, and so does its record where it is accepted.
    fn take(&mut self, link: u32, line: &[u8])
        requires { has_room self.old.group ≡ true }
        ensures { Takes self.old link line.now self.new }
    {
        let mut out = [0u8; LINE_LIMIT];
        let taken = process(self.head, &mut self.bans, link, line, &mut out);
        let mut text = [0u8; ROOM];
        if taken.number != ACCEPTED {
            let n = put_refused(&mut text, 0, taken.number, taken.place, line, self.typed);
            self.group.put_answer(part(&text, 0, n));
            return;
        }
        self.head = taken.head;
        self.group.put_record(link, line);
        let n = put_accepted(&mut text, 0, taken.set, part(&out, 0, taken.len));
        self.group.put_answer(part(&text, 0, n));
    }

    // A link is registered or dropped, or can't be: that is answered.
    fn done(&mut self, rt: &HostRuntime, r: Registered) -> io::Result<()> {
        self.head = r.head;
        say_done(rt, r.number, self.typed)
    }

    // Answers a request that joins no group, the one before it being closed.
    fn reply(&mut self, rt: &HostRuntime, request: Request, input: &[u8]) -> io::Result<()> {
        match request {
            Request::Register(link) => {
                let r = register(self.head, &self.bans, link);
                self.done(rt, r)
            }
            Request::Unregister(link) => {
                let r = unregister(self.head, &self.bans, link);
                self.done(rt, r)
            }
            Request::Banned { end, start } => {
                let answer = is_banned(
                    &self.head,
                    &self.bans,
                    name_in(input, end),
                    text_in(input, start),
                );
                say_banned(rt, answer, self.typed)
            }
            Request::Channels => say_channels(rt, self.head, &self.bans),
            Request::Help => say_help(rt),
            Request::Take { .. } | Request::Unknown | Request::Nothing => Ok(()),
        }
    }

    // Answers an input line: a whole one, or the last one, which is taken as it is.
    fn respond(&mut self, rt: &HostRuntime, request: Request, input: &[u8]) -> Result<(), Stop> {
        match request {
            Request::Take { link, start } => {
                self.make_room(rt)?;
                self.take(link, line_from(input, start));
                Ok(())
            }
            Request::Unknown => {
                self.make_room(rt)?;
                self.group.put_answer(b"! input\n");
                Ok(())
            }
            Request::Nothing => Ok(()),
            _ => {
                self.close_group(rt)?;
                self.reply(rt, request, input).map_err(Stop::Output)
            }
        }
    }

    // Answers a line that was typed, whose CR may be missing.
    fn respond_typed(&mut self, rt: &HostRuntime, line: &Pending) -> Result<(), Stop> {
        let text = typed(line);
        let input = text.as_slice();
        self.respond(rt, typed_request(input), input)
    }

    // The line under way is at its end: it is answered, and the next one begins.
    fn finish(&mut self, rt: &HostRuntime) -> Result<(), Stop> {
        let line = mem::replace(&mut self.pending, Pending::empty());
        if self.typed {
            return self.respond_typed(rt, &line);
        }
        let input = line.bytes();
        self.respond(rt, request_in(input), input)
    }

    // A piece of the input, which may begin and end anywhere in a line.
    fn take_piece(&mut self, rt: &HostRuntime, piece: &[u8]) -> Result<(), Stop> {
        for part in Lines::of(piece) {
            self.pending.extend(part);
            if ends_in_lf(part) {
                self.finish(rt)?;
            }
        }
        Ok(())
    }

    // The input is at its end. A line that is under way is the last one.
    fn close(&mut self, rt: &HostRuntime) -> Result<(), Stop> {
        if !self.pending.bytes().is_empty() {
            self.finish(rt)?;
        }
        self.close_group(rt)
    }

    // Reads until the input ends; the lines of one read are a group. The turns are counted since nothing else says that the loop ends: the input could go on forever.
    // Where a read fails the program stops: what is under way isn't the last line, but a torn one.
    fn serve(&mut self, rt: &HostRuntime) -> Result<(), Stop> {
        let mut piece = [0u8; PIECE];
        for _ in 0..u64::MAX {
            let n = rt.stdin().read(&mut piece).map_err(Stop::Input)?;
            if n == 0 {
                return self.close(rt);
            }
            self.take_piece(rt, &piece[..n])?;
            self.close_group(rt)?;
        }
        Ok(())
    }
}

// Whether the input is typed, at a terminal. If so, whoever types is told how to begin.
fn is_typed(rt: &HostRuntime) -> bool {
    let typed = rt.stdin().is_terminal();
    if typed {
        let _ = Print::write_all(&rt.stderr(), b"note: help prints the requests\n");
    }
    typed
}

// Goes on with the day, until the input ends or the program has to stop.
fn run(rt: &HostRuntime, journal: Option<File>) -> Result<(), Stop> {
    let mut s = Session::new(journal);
    s.head = restore(rt, s.journal.as_ref(), &mut s.bans)?;
    s.typed = is_typed(rt);
    s.serve(rt)
}

fn main(rt: HostRuntime) {
    let mut path = [0u8; PATH];
    match open_journal(&rt, &mut path) {
        Ok(journal) => {
            if let Err(stop) = run(&rt, journal) {
                stop.say(&rt.stderr());
            }
        }
        Err(unusable) => unusable.say(&rt.stderr()),
    }
}
