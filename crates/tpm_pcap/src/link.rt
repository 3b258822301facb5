//! What stands before a packet of the internet.

ghost use Rattle.std.specs.Prelude.{◌≡◌, length};
ghost use Rattle.tpm_pcap.specs.Links.{link_of, head_size, is_internet, carries_internet};

use crate::numbers::number2;

/// A kind of link, by what stands before each packet of it (libpcap, "Link-layer header types").
#[derive(Clone, Copy)]
pub(crate) enum Link {
    /// Nothing.
    Raw,
    /// The family of its addresses.
    Loopback,
    /// The header of Ethernet.
    Ethernet,
    /// What Linux tells of any of its devices.
    Cooked,
    /// What Linux tells of any of its devices in its second version, the protocol first.
    Cooked2,
}

/// The kind of link with this number.
pub(crate) fn link_of(number: u32) -> Option<Link>
    ensures { result ≡ link_of number }
{
    match number {
        0 | 108 => Some(Link::Loopback),
        1 => Some(Link::Ethernet),
        101 | 228 | 229 => Some(Link::Raw),
        113 => Some(Link::Cooked),
        276 => Some(Link::Cooked2),
        _ => None,
    }
}

/// How many bytes stand before a packet.
pub(crate) fn head_size(link: Link) -> usize
    ensures { result ≡ head_size link }
{
    match link {
        Link::Raw => 0,
        Link::Loopback => 4,
        Link::Ethernet => 14,
        Link::Cooked => 16,
        Link::Cooked2 => 20,
    }
}

fn is_internet(kind: u16) -> bool
    ensures { result ≡ is_internet kind }
{
    kind == 0x0800 || kind == 0x86dd
}

/// Whether a packet of the internet stands behind this.
pub(crate) fn carries_internet(link: Link, head: &[u8]) -> bool
    requires { length head.now ≡ head_size link }
    ensures { result ≡ carries_internet link head.now }
{
    match link {
        Link::Ethernet => is_internet(number2(head, 12)),
        Link::Cooked => is_internet(number2(head, 14)),
        Link::Cooked2 => is_internet(number2(head, 0)),
        Link::Raw | Link::Loopback => true,
    }
}
