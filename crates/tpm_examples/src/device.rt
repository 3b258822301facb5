//! A device in memory.

use crate::print_bytes;
use std::io;
use tpm_device::Device;
use tpm_types::AuthValue;

/// A device answers each buffer with a buffer. The nonce is for the sessions: 64 bytes, fresh and random at each call.
pub fn run(rt: &impl Print) -> io::Result<()> {
    let mut device = Device::new(&AuthValue::default(), 0);
    let startup = [
        0x80, 0x01, 0x00, 0x00, 0x00, 0x0c, 0x00, 0x00, 0x01, 0x44, 0x00, 0x00,
    ];
    let nonce = [0; 64];
    print_bytes(rt, device.execute(&startup, &nonce).as_slice())?;
    print_bytes(rt, device.execute(&startup, &nonce).as_slice())
}
