//! Commands and responses in buffers.
#![tactic(auto)]

mod command_areas;
mod command_decode;
mod command_encode;
mod command_join;
mod laws;
mod response_areas;
mod response_decode;
mod response_encode;
mod sessions;

pub use command_areas::{Areas, Handled, Headed, NO_SESSIONS, SESSIONS, header, tag_for};
pub use command_decode::{areas, decode_command, one_spelling};
pub use command_encode::{encode_command, put_command};
pub use command_join::{UnjoinedCommand, join_command};
pub use laws::{
    areas_of_a_response, command_or_fault, fault_before_params, no_prefix, no_response_prefix,
    parameters_in_command, response_or_fault,
};
pub use response_areas::{RSP_COMMAND, ReplyAreas, reply_areas};
pub use response_decode::decode_response;
pub use response_encode::{encode_response, put_code, put_reply, put_reply_in, put_reply_params};
pub use sessions::{AuthRef, ReplyRef, take_authorization, take_parameter_size};
