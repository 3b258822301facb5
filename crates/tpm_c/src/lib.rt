//! The library for C: each function works in memory that the caller hands in.
#![tactic(auto)]

mod allowed;
mod answer_name;
mod attest;
mod builder;
mod caller;
mod code_name;
mod command;
mod content;
mod device;
mod entry;
mod event_json;
mod framer;
mod handed;
mod hash;
mod image;
mod kept;
mod load_option;
mod log;
mod log_event;
mod log_pieces;
mod measured;
mod part;
mod policy;
mod quote;
mod record_text;
mod response;
mod rooms;
mod secure_boot;
mod selection;
mod signature;
mod signature_list;
mod variable;
mod vouched;

pub use allowed::{TpmAllowed, tpm_log_allowed};
pub use answer_name::tpm_log_answer_name;
pub use attest::{TpmAttest, TpmAttestFault, tpm_attest_decode, tpm_log_check_attest};
pub use builder::tpm_command_build;
pub use caller::{
    tpm_caller_give_up, tpm_caller_init, tpm_caller_open, tpm_caller_seal, tpm_caller_start,
};
pub use code_name::tpm_code_name;
pub use command::{TpmCommandAreas, TpmCommandSession, tpm_command_cut, tpm_command_decode};
pub use content::{
    TpmContent, TpmEvidence, TpmFirmware, TpmMeasurement, TpmPartitions, TpmTables, TpmTag,
    tpm_log_event_content,
};
pub use device::{tpm_device_execute, tpm_device_init, tpm_device_power_cycle};
pub use entry::{TpmPartition, TpmTable, tpm_log_partition, tpm_log_table};
pub use event_json::{tpm_log_event_json, tpm_log_path_json};
pub use framer::{tpm_framer_frame, tpm_framer_init, tpm_framer_next, tpm_framer_push};
pub use hash::tpm_hash;
pub use image::{TpmImage, TpmPathNode, tpm_log_image, tpm_log_path_node};
pub use kept::{
    TpmCounter, tpm_device_changes_nv, tpm_device_counter, tpm_device_counters,
    tpm_device_greatest, tpm_device_keep, tpm_device_restore, tpm_device_session_hash,
};
pub use load_option::{TpmLoadOption, tpm_log_device_path, tpm_log_load_option};
pub use log::tpm_log_replay;
pub use log_event::{TpmLogDigest, TpmLogEvent, TpmLogPlace, tpm_log_event};
pub use log_pieces::{tpm_log_replay_end, tpm_log_replay_feed, tpm_log_replay_init};
pub use measured::tpm_log_measured;
pub use part::{TpmPart, TpmRefusal};
pub use policy::{
    TpmPolicy, tpm_policy_auth_value, tpm_policy_command_code, tpm_policy_or, tpm_policy_pcr,
    tpm_policy_restart, tpm_policy_start,
};
pub use quote::tpm_log_check_quote;
pub use record_text::{tpm_event_type_name, tpm_log_text};
pub use response::{TpmResponseAreas, TpmResponseSession, tpm_response_cut, tpm_response_decode};
pub use rooms::{
    tpm_caller_align, tpm_caller_size, tpm_device_align, tpm_device_size, tpm_framer_align,
    tpm_framer_size, tpm_log_replay_align, tpm_log_replay_size,
};
pub use secure_boot::{TpmSecureBoot, tpm_log_secure_boot};
pub use selection::tpm_selection;
pub use signature::{TpmSignature, tpm_signature_decode};
pub use signature_list::{TpmOwned, TpmSignatureList, tpm_log_owned, tpm_log_signature_list};
pub use variable::{TpmVariable, tpm_log_variable};
pub use vouched::tpm_log_vouched;
