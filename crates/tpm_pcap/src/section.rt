//! A section of a file.

ghost use Rattle.std.specs.Prelude.{◌≡◌, slice_get};
ghost use Rattle.tpm_pcap.specs.inner.Blocks.{packet_as};
ghost use Rattle.tpm_pcap.specs.Sections.{carried_of, new_section, packet_time, simple_packet};
ghost use Rattle.tpm_pcap.specs.inner.Sections.{section_as};
ghost use Rattle.tpm_pcap.specs.Sections.{with_interface};
ghost use Rattle.tpm_pcap.specs.inner.Segments.{carried_as, IsSmall};

use crate::block::{Interface, Packet, Ticks};
use crate::numbers::Order;
use crate::segment::{Carried, carried_by, front};
use crate::time::time_of;
use arrayvec::ArrayVec;

/// The order of a section's numbers, and the first of its interfaces.
#[derive(Drop)]
pub(crate) struct Section {
    /// The order of its numbers.
    pub(crate) order: Order,
    interfaces: ArrayVec<Interface, 64>,
}

impl Section {
    /// A section without interfaces.
    pub(crate) fn new(order: Order) -> Self
        ensures { section_as result ≡ new_section order }
    {
        Section {
            order,
            interfaces: ArrayVec::new(),
        }
    }

    /// Takes a description of the next interface.
    pub(crate) fn describe(&mut self, interface: Interface)
        ensures { section_as self.new ≡ with_interface (section_as self.old) interface }
    {
        if !self.interfaces.is_full() {
            self.interfaces.push(interface);
        }
    }

    // The interface with this number.
    fn interface(&self, number: u32) -> Option<Interface>
        ensures { result ≡ slice_get (section_as self.now).interfaces number }
    {
        self.interfaces.as_slice().get(number as usize).copied()
    }

    /// A packet of so many bytes on the first interface, of which as many as were captured are the first of these.
    pub(crate) fn simple_packet<'a>(&self, size: u32, bytes: &'a [u8]) -> Packet<'a>
        ensures { packet_as result ≡ simple_packet (section_as self.now) size bytes.now }
    {
        let captured = match self.interface(0) {
            Some(interface) if interface.limit != 0 => interface.limit.min(size),
            _ => size,
        };
        Packet {
            interface: 0,
            ticks: Ticks::Untold,
            size,
            bytes: front(bytes, captured as usize),
        }
    }

    /// When a packet was captured, where that is known.
    pub(crate) fn time_of(&self, packet: &Packet<'_>) -> Option<u128>
        ensures { result ≡ packet_time (section_as self.now) (packet_as packet.now) }
    {
        time_of(self.interface(packet.interface)?.per_second, packet.ticks)
    }

    /// What is in a packet on an interface of the section, of a simulator on this port.
    pub(crate) fn carried_of<'a>(&self, port: u16, packet: &Packet<'a>) -> Carried<'a>
        ensures carried { carried_as result
            ≡ carried_of port (section_as self.now) (packet_as packet.now) }
        ensures small { IsSmall (carried_as result) }
    {
        let link = match self.interface(packet.interface) {
            Some(interface) => interface.link,
            None => None,
        };
        let whole = packet.bytes.len() == packet.size as usize;
        carried_by(link, port, whole, packet.bytes)
    }
}
