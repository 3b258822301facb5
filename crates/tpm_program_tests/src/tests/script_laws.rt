//! Laws do nothing, and return.

use std::test::*;

#[test]
fn the_laws_return(_rt: HostRuntime) {
    tpm_model::cut_by_the_grammar();
    tpm_model::accepted_is_spelled();
    tpm_model::no_replay();
    tpm_model::no_counter_goes_back();
    tpm_model::no_replay_over_lives();
    tpm_model::no_counter_goes_back_over_lives();
    tpm_model::policy_starts_again();
    tpm_model::worked_examples();
    tpm_model::done_with_code_zero();
    tpm_model::refused_with_a_code();
    tpm_model::in_step();
    tpm_model::no_mixed_replies();
    tpm_model::no_mixed_replies_over_lives();
    tpm_model::nv_memory_stays_fair();
    tpm_model::restored_is_cycled();
    tpm_device::answers_are_the_run();
    tpm_device::no_replay();
    tpm_device::no_counter_goes_back();
    tpm_device::no_replay_over_lives();
    tpm_device::no_counter_goes_back_over_lives();
    tpm_device::nv_memory_stays_fair();
    tpm_script::no_replay_in_a_script();
    tpm_check::laws::allowed_where_done();
}
