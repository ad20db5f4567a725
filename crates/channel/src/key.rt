// Keys: which bytes are one.
ghost use Rattle.std.specs.Prelude.{◌≡◌};
ghost use Rattle.channel.specs.Key.{is_key};

use crate::Record;
use octets::{Class, all_in};

// A key: 1 to 23 bytes from 33 to 126 without comma, not starting with ':'.
#[tactic(auto, unfolding(crate::specs::Key::is_key, laws::specs::Lists::starts_with))]
pub fn is_key(key: &[u8]) -> bool
    ensures { result ≡ is_key key.now }
{
    !key.is_empty() && key.len() <= Record::KEY && key[0] != b':' && all_in(key, Class::Key)
}
