//! Hashes and MACs, stores, sessions, policies and authorization; callers alone, and with a device.

mod caller_both_ends;
mod caller_ends;
mod caller_scripts;
mod caller_sealed;
mod caller_waiting;
mod device_kept;
mod hmac_hashes;
mod hmac_macs;
mod nv_values;
mod pcr_values;
mod session_authorize;
mod session_calls;
mod session_policies;
mod session_scripts;
mod session_slots;
