// A group of lines: the records of the accepted ones, and the answers to all, put together until the group is closed.
ghost use Rattle.std.specs.Prelude.{◌≡◌, true, [], ◌+◌, ◌≤◌, length};
ghost use Rattle.links.specs.Links.{is_link};
ghost use Rattle.message.specs.Grammar.{line_limit};
ghost use Rattle.journal.specs.Journal.{record_of};
ghost use Rattle.console.specs.Buffers.{answers_room};
ghost use Rattle.console.specs.Groups.{records_in, answers_in, no_lines, group_with, has_room};

use crate::answers::ROOM;
use arrayvec::ArrayVec;
use journal::{RECORD_LIMIT, write_record};
use octets::part;

// Room for the records of a group, and for its answers. From a pipe or a file the lines of one read always have room: it brings 4,096 bytes behind at most 573 that
// are kept of the line under way; an accepted line of n bytes, with the number and the SPACE before it, has a record of at most n + 3; and no answer is longer than
// eight times its input line, the longest being `! input` to an empty one. At a terminal, where a number has its words and a line is shown with its place at fault, a
// group may be closed sooner.
const RECORDS: usize = 8192;

const ANSWERS: usize = 40960;

#[derive(Drop)]
pub(crate) struct Group {
    records: ArrayVec<u8, RECORDS>,
    answers: ArrayVec<u8, ANSWERS>,
}

impl Group {
    // A group of no lines.
    pub(crate) fn empty() -> Group
        ensures { result ≡ no_lines }
    {
        Group {
            records: ArrayVec::new(),
            answers: ArrayVec::new(),
        }
    }

    // The records, behind one another.
    pub(crate) fn records(&self) -> &[u8]
        ensures { result.now ≡ records_in self.now }
    {
        self.records.as_slice()
    }

    // The answers, behind one another.
    pub(crate) fn answers(&self) -> &[u8]
        ensures { result.now ≡ answers_in self.now }
    {
        self.answers.as_slice()
    }

    // Whether there is room for the record and the answer of another line.
    pub(crate) fn has_room(&self) -> bool
        ensures { result ≡ has_room self.now }
    {
        RECORD_LIMIT <= self.records.remaining_capacity()
            && ROOM <= self.answers.remaining_capacity()
    }

    // Adds the record of a line that was accepted: it came from one of the links and isn't too long, so it isn't refused here.
    pub(crate) fn put_record(&mut self, link: u32, line: &[u8])
        requires accepted { (is_link link ≡ true) × (length line.now ≤ line_limit) }
        requires room { has_room self.old ≡ true }
        ensures { self.new ≡ group_with self.old (record_of link line.now) [] }
    {
        let mut record = [0u8; RECORD_LIMIT];
        let logged = write_record(link, line, &mut record);
        let _ = self
            .records
            .try_extend_from_slice(part(&record, 0, logged.size));
    }

    // Adds an answer.
    pub(crate) fn put_answer(&mut self, answer: &[u8])
        requires { length (answers_in self.old) + length answer.now ≤ answers_room }
        ensures { self.new ≡ group_with self.old [] answer.now }
    {
        let _ = self.answers.try_extend_from_slice(answer);
    }

    // The lines are answered: the next group begins.
    pub(crate) fn clear(&mut self)
        ensures { self.new ≡ no_lines }
    {
        self.records.clear();
        self.answers.clear();
    }
}
