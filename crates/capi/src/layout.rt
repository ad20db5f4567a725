// The layout of the structs that cross the C interface. The language can't ask for a struct's size or a field's place, so the numbers stand here,
// and the contract says that they are what C's rules give for the fields' types; the tests of the interface see that these are the structs' own.
ghost use Rattle.std.specs.Prelude.{◌≡◌, get_or};
ghost use Rattle.capi.specs.Layout.{layout};

// How many numbers there are, this one counted.
const COUNT: usize = 144;

// The number k, or 0 past the last: how many there are after it, then of each struct the place and the size of each field, a line each, and its own size.
pub fn number(k: usize) -> usize
    ensures { result ≡ get_or layout k 0 }
{
    if COUNT <= k {
        return 0;
    }
    let numbers = [
        143usize, // how many follow
        0, 8, // Span.start
        8, 8, // Span.end
        16, // Span
        0, 1, // Message.has_prefix
        8, 16, // Message.prefix
        24, 16, // Message.command
        40, 8, // Message.count
        48, 240, // Message.params
        288, // Message
        0, 1, // LineRead.number
        8, 8, // LineRead.count
        16, // LineRead
        0, 1, // Written.number
        8, 8, // Written.len
        16, // Written
        0, 1, // Match.number
        1, 1, // Match.yes
        2, // Match
        0, 9, // Member.id
        9, 1, // Member.status
        10, // Member
        0, 50, // Record.name
        56, 8, // Record.name_len
        64, 4, // Record.time
        68, 1, // Record.modes
        69, 23, // Record.key
        96, 8, // Record.key_len
        104, 2, // Record.limit
        106, 640, // Record.members
        752, 8, // Record.count
        760, // Record
        0, 3233, // BanList.room
        3233, // BanList
        0, 760, // WholeRecord.record
        760, 3233, // WholeRecord.bans
        4000, // WholeRecord
        0, 1, // Merged.number
        8, 4000, // Merged.result
        4008, // Merged
        0, 4, // Links.set
        4, // Links
        0, 12160, // Head.slots
        12160, 4, // Head.links
        12168, // Head
        0, 12168, // Registered.head
        12168, 1, // Registered.number
        12176, // Registered
        0, 12168, // Taken.head
        12168, 8, // Taken.len
        12176, 8, // Taken.place
        12184, 4, // Taken.set
        12188, 4, // Taken.count
        12192, 1, // Taken.number
        12200, // Taken
        0, 1, // Banned.number
        1, 1, // Banned.yes
        2, // Banned
        0, 1, // Logged.number
        8, 8, // Logged.size
        16, // Logged
        0, 1, // ChannelFound.number
        8, 8, // ChannelFound.slot
        16, // ChannelFound
        0, 48, // Text.bytes
        48, 8, // Text.len
        56, // Text
        0, 512, // Feeder.bytes
        512, 8, // Feeder.len
        520, 1, // Feeder.dropping
        528, // Feeder
        0, 528, // Fed.state
        528, 8, // Fed.used
        536, 512, // Fed.line
        1048, 8, // Fed.len
        1056, 1, // Fed.number
        1064, // Fed
        0, 16, // RecordRead.line
        16, 8, // RecordRead.place
        24, 4, // RecordRead.link
        28, 1, // RecordRead.number
        29, 1, // RecordRead.found
        32, // RecordRead
    ];
    numbers[k]
}
