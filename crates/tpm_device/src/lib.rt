//! The device end: it answers the bytes of a command with the bytes of a response.
#![tactic(auto)]

mod actions;
mod device;
mod kept;
mod laws;
mod nv;
mod policies;
mod reading;
mod registers;
mod reply;
mod sessions;

pub use device::Device;
pub use kept::changes_nv;
pub use laws::{
    answers_are_the_run, no_counter_goes_back, no_counter_goes_back_over_lives, no_replay,
    no_replay_over_lives, nv_memory_stays_fair,
};
pub use reply::{RESPONSE_BYTES, ResponseBuffer};
