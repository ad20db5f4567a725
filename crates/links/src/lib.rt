// The registered links, numbered 0 to 31 (document 01, 'What the relay holds' and 'What goes out'): a set of them as 32 bits, link i being bit i, the
// relay set, and how many links a set has. Every set is well formed, and any number is taken: one above 31 is no link.
#![tactic(auto)]

ghost use Rattle.std.specs.Prelude.{◌≡◌, length};
ghost use Rattle.laws.specs.Bits.{has_bit};
ghost use Rattle.links.specs.Links.{link_count, no_links, all_links, with_link, without_link, less_link, relay_set, links_in};

// The registered links.
#[repr(C)]
#[derive(Clone, Copy)]
pub struct Links {
    pub set: u32,
}

impl Links {
    // How many links there can be.
    pub const COUNT: u32 = 32;

    // No link is registered. The count of the code is that of the definitions.
    pub fn none() -> Links
        ensures value { result ≡ no_links }
        ensures count { Links.COUNT ≡ link_count }
    {
        Links { set: 0 }
    }

    // Every link is registered.
    pub fn all() -> Links
        ensures { result ≡ all_links }
    {
        Links { set: u32::MAX }
    }
}

// Whether the link is in the set.
// Kept (2): beside `channel::modes::has_mode`, and so are `with_link` and `with_mode`: at two widths each is one expression, and a trait of bits would be longer.
pub fn has_link(set: u32, link: u32) -> bool
    ensures { result ≡ has_bit set link }
{
    link < Links::COUNT && (set >> link) & 1 == 1
}

// The links with one more registered.
pub fn with_link(mut links: Links, link: u32) -> Links
    ensures { result ≡ with_link links link }
{
    if link < Links::COUNT {
        links.set |= 1 << link;
    }
    links
}

// The set without a link.
fn less(set: u32, link: u32) -> u32
    ensures { result ≡ less_link set link }
{
    if has_link(set, link) {
        set - (1 << link)
    } else {
        set
    }
}

// The links with one dropped.
pub fn without_link(links: Links, link: u32) -> Links
    ensures { result ≡ without_link links link }
{
    Links {
        set: less(links.set, link),
    }
}

// The relay set: the registered links without the source.
pub fn relay_set(links: Links, source: u32) -> u32
    ensures { result ≡ relay_set links source }
{
    less(links.set, source)
}

// How many links are in a set: its ones.
pub fn count(set: u32) -> u32
    ensures { result ≡ length (links_in set) }
{
    set.count_ones()
}
