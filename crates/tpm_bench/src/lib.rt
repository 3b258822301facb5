//! What `bench/run` measures, for C: each function here calls one of the library's, over slices and numbers.
#![tactic(auto)]

mod buffers;
mod caller;
mod device;
mod hashes;
mod out;
mod sessions;
mod sizes;
mod streams;

pub use buffers::{
    tpm_bench_decode_command, tpm_bench_decode_pcr_read_reply, tpm_bench_encode_command,
};
pub use caller::{tpm_bench_both_ends, tpm_bench_open, tpm_bench_seal};
pub use device::{tpm_bench_execute, tpm_bench_start};
pub use hashes::{tpm_bench_hash, tpm_bench_hmac, tpm_bench_same, tpm_bench_session_hashes};
pub use sessions::tpm_bench_authorize;
pub use sizes::tpm_bench_size;
pub use streams::{tpm_bench_push_frames, tpm_bench_read_frames, tpm_bench_read_frames_into};
