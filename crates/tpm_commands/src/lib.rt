//! The table of commands, the values of commands and responses, and how handles,
//! parameters and replies are read and written.
#![tactic(auto)]

mod command;
mod command_handles;
mod command_parameters;
mod commands;
mod response;

pub use command::{
    Command, CommandBody, Header, Params, ReplyBody, StartAuth, read_reply_params,
    take_reply_handle,
};
pub use command_handles::{
    CommandTable, bind_in, first_handle, index_in, nv_auth_in, pcr_or_null_in, policy_in,
    register_in, second_handle, take_handles,
};
pub use command_parameters::{decode_params, decode_params_into, decode_start_into};
pub use commands::{
    EVENT_BYTES, Event, NvDefineSpace, NvRead, PolicyPcr, StartParams, read_pcr_extend,
    take_startup,
};
pub use response::{ErrorCode, NvData, Response, StartReply};
