//! The model of a device: what it answers, by the history of what it has accepted, and what holds of every run.
//!
//! The definitions stand in `specs/`, and there is no code but laws: functions that do nothing, whose contracts
//! are proved.
#![tactic(auto)]

mod laws;

pub use laws::{
    accepted_is_spelled, cut_by_the_grammar, done_with_code_zero, in_step, no_counter_goes_back,
    no_counter_goes_back_over_lives, no_mixed_replies, no_mixed_replies_over_lives, no_replay,
    no_replay_over_lives, nv_changes_are_told, nv_memory_stays_fair, policy_starts_again,
    refused_with_a_code, restored_is_cycled, worked_examples,
};
