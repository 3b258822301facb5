//! What is told in place of a frame.

/// What is told in place of a frame.
#[derive(Clone, Copy)]
pub(crate) enum Remark {
    /// That the line of this number has no frame, and why.
    Fault(u64, &'static str),
    /// That the frame of this number does not come, why, and how many bytes precede it.
    Stop(u64, &'static str, usize),
    /// That this packet is not told, and why.
    Packet(u64, &'static str),
    /// That a file is no capture.
    NoCapture,
    /// That it has no packet of this port.
    NoPacket(u16),
    /// That the link of a capture is of this type, which is not known.
    OtherLink(u32),
}
