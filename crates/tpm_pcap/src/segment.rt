//! Segments of TCP.

ghost use Rattle.std.specs.Prelude.{◌≡◌, ◌<◌, take, drop, IfOk};
ghost use Rattle.tpm_pcap.specs.Segments.{carried_by, carried_in, in_internet, in_tcp, in_version4, in_version6};
ghost use Rattle.tpm_pcap.specs.inner.Segments.{carried_as, IsSmall};
ghost use Rattle.tpm_pcap.specs.inner.Numbers.{read_by};

use crate::entry::Reason;
use crate::link::{Link, carries_internet, head_size};
use crate::numbers::{cut, number2, number4};

/// A segment on the port.
#[derive(Drop, Clone, Copy)]
pub(crate) struct Segment<'a> {
    /// Whether it goes to the TPM.
    pub(crate) to_tpm: bool,
    /// The client's address.
    pub(crate) client: &'a [u8],
    /// The simulator's address.
    pub(crate) simulator: &'a [u8],
    /// The client's port.
    pub(crate) port: u16,
    /// The number of its first byte.
    pub(crate) number: u32,
    /// Whether it opens its way of the connection.
    pub(crate) opens: bool,
    /// How many bytes it carries.
    pub(crate) size: usize,
    /// Those of them that were captured.
    pub(crate) payload: &'a [u8],
}

/// What a packet carries.
#[derive(Drop, Clone, Copy)]
pub(crate) enum Carried<'a> {
    /// Nothing of the port.
    Other,
    /// Too little of it was captured.
    Lacking,
    /// A part of a packet.
    Fragment,
    /// A packet of a kind of link that is not known.
    UnknownLink,
    /// A segment on the port.
    Segment(Segment<'a>),
}

// ---- TCP

/// The first bytes, so many of them or all.
pub(crate) fn front(bytes: &[u8], most: usize) -> &[u8]
    ensures { result.now ≡ take most bytes.now }
{
    if bytes.len() < most {
        bytes
    } else {
        &bytes[..most]
    }
}

/// All but the first `count` bytes; none where there are fewer.
pub fn behind(bytes: &[u8], count: usize) -> &[u8]
    ensures { result.now ≡ drop count bytes.now }
{
    if bytes.len() < count {
        &[]
    } else {
        &bytes[count..]
    }
}

// What is in so many bytes of TCP between these addresses, of which these were captured.
#[tactic(auto, unfolding(crate::specs::Segments::in_tcp))]
fn in_tcp<'a>(
    port: u16,
    source: &'a [u8],
    target: &'a [u8],
    size: usize,
    tcp: &'a [u8],
) -> Result<Carried<'a>, Reason>
    requires { size < 65536 }
    ensures carried { read_by carried_as result ≡ in_tcp port source.now target.now size tcp.now }
    ensures small { IfOk result (λ carried. IsSmall (carried_as carried)) }
{
    let (fields, _) = cut(tcp, 20)?;
    // Source Port, Destination Port, Sequence Number, Acknowledgment Number, Data Offset, the control bits, Window,
    // Checksum, and Urgent Pointer
    let source_port = number2(fields, 0);
    let target_port = number2(fields, 2);
    let to_tpm = target_port == port;
    let head = fields[12] as usize / 16 * 4;
    if !to_tpm && source_port != port || head < 20 || size < head {
        return Ok(Carried::Other);
    }
    let size = size - head;
    let (client, simulator, port) = if to_tpm {
        (source, target, source_port)
    } else {
        (target, source, target_port)
    };
    Ok(Carried::Segment(Segment {
        to_tpm,
        client,
        simulator,
        port,
        number: number4(fields, 4),
        opens: fields[13] / 2 % 2 == 1,
        size,
        payload: front(behind(tcp, head), size),
    }))
}

// ---- IP

// What is in a packet of IPv4.
#[tactic(auto, unfolding(crate::specs::Segments::in_version4))]
fn in_version4<'a>(port: u16, bytes: &'a [u8]) -> Result<Carried<'a>, Reason>
    ensures carried { read_by carried_as result ≡ in_version4 port bytes.now }
    ensures small { IfOk result (λ carried. IsSmall (carried_as carried)) }
{
    let (fields, rest) = cut(bytes, 12)?;
    let (source, rest) = cut(rest, 4)?;
    let (target, _) = cut(rest, 4)?;
    // Version and Internet Header Length, Type of Service, Total Length, Identification, Flags and Fragment Offset,
    // Time to Live, Protocol, and Header Checksum
    if fields[9] != 6 {
        return Ok(Carried::Other);
    }
    if number2(fields, 6) % 16384 != 0 {
        return Ok(Carried::Fragment);
    }
    let head = fields[0] as usize % 16 * 4;
    let size = (number2(fields, 2) as usize).saturating_sub(head);
    in_tcp(port, source, target, size, behind(bytes, head))
}

// What is in a packet of IPv6.
#[tactic(auto, unfolding(crate::specs::Segments::in_version6))]
fn in_version6<'a>(port: u16, bytes: &'a [u8]) -> Result<Carried<'a>, Reason>
    ensures carried { read_by carried_as result ≡ in_version6 port bytes.now }
    ensures small { IfOk result (λ carried. IsSmall (carried_as carried)) }
{
    let (fields, rest) = cut(bytes, 8)?;
    let (source, rest) = cut(rest, 16)?;
    let (target, packet) = cut(rest, 16)?;
    // Version, Traffic Class and Flow Label, Payload Length, Next Header, and Hop Limit
    let size = number2(fields, 4) as usize;
    match (fields[6], packet) {
        (6, _) => in_tcp(port, source, target, size, packet),
        (44, [6, ..]) => Ok(Carried::Fragment),
        (44, []) => Err(Reason::CutShort),
        _ => Ok(Carried::Other),
    }
}

// What is in a packet of the internet.
#[tactic(auto, unfolding(crate::specs::Segments::in_internet))]
fn in_internet<'a>(port: u16, bytes: &'a [u8]) -> Result<Carried<'a>, Reason>
    ensures carried { read_by carried_as result ≡ in_internet port bytes.now }
    ensures small { IfOk result (λ carried. IsSmall (carried_as carried)) }
{
    match bytes {
        [0x40..=0x4f, ..] => in_version4(port, bytes),
        [0x60..=0x6f, ..] => in_version6(port, bytes),
        [] => Err(Reason::CutShort),
        _ => Ok(Carried::Other),
    }
}

// ---- a packet

// What is in a packet of this kind of link.
#[tactic(auto, unfolding(crate::specs::Segments::carried_in))]
fn carried_in<'a>(link: Link, port: u16, bytes: &'a [u8]) -> Result<Carried<'a>, Reason>
    ensures carried { read_by carried_as result ≡ carried_in link port bytes.now }
    ensures small { IfOk result (λ carried. IsSmall (carried_as carried)) }
{
    let (head, packet) = cut(bytes, head_size(link))?;
    if carries_internet(link, head) {
        in_internet(port, packet)
    } else {
        Ok(Carried::Other)
    }
}

/// What is in a packet of this kind of link, if that is known, all of which was captured or not.
pub(crate) fn carried_by<'a>(
    link: Option<Link>,
    port: u16,
    whole: bool,
    bytes: &'a [u8],
) -> Carried<'a>
    ensures carried { carried_as result ≡ carried_by link port whole bytes.now }
    ensures small { IsSmall (carried_as result) }
{
    let Some(link) = link else {
        return Carried::UnknownLink;
    };
    match carried_in(link, port, bytes) {
        Ok(carried) => carried,
        Err(_) if whole => Carried::Other,
        Err(_) => Carried::Lacking,
    }
}
