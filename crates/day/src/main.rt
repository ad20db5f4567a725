// Prints what a day log leaves (document 02, §5). The log comes on standard input and is of any size. Each used slot is printed, in order, and where the log is at
// fault, or a line of it is refused, a line with the number and the place.
// What keeps the program from an answer is said on standard error in a line that begins with 'replay: ', by which bin/replay knows: the program's own status is 0
// whatever it says.
#![tactic(auto)]

mod printing;

use bans::BanList;
use logfile::{fail, replay_file};
use octets::part;
use printing::{ROOM, put_day};
use std::io::Print;

// Prints what the log has come to, unless it wasn't read to its end.
fn main(rt: HostRuntime) {
    let mut bans = [0u8; BanList::BANS];
    let r = match replay_file(&mut rt.stdin(), &mut bans) {
        Ok(r) => r,
        Err(why) => return fail(&rt.stderr(), b"replay: standard input", why),
    };
    let mut text = [0u8; ROOM];
    let n = put_day(r.head, &bans, r.number, r.place, &mut text);
    if let Err(why) = rt.write_all(part(&text, 0, n)) {
        fail(&rt.stderr(), b"replay: standard output", why);
    }
}
