//! What stands behind the header of a frame.

ghost use Rattle.std.specs.Prelude.{◌≡◌, ◌++◌, OnOk, flat_map, map};
ghost use Rattle.tpm_show.specs.Areas.{areas_told, parameters_told};
ghost use Rattle.tpm_show.specs.Sessions.{of_command};

use crate::handle_names::tell_handles;
use crate::piece::{LINE_END, in_line, says};
use crate::sessions::tell_sessions;
use crate::teller::{Teller, tell_pieces};
use tpm_buffer::AuthRef;
use tpm_output::text::Pushed;

/// Tells parameters as they came.
#[tactic(auto, unfolding(crate::specs::Areas::parameters_told))]
pub(crate) fn tell_parameters<T: Teller>(teller: &mut T, bytes: &[u8]) -> Pushed
    ensures { OnOk result
        (T.told teller.new ≡ T.told teller.old ++ flat_map T.marks (parameters_told bytes.now)) }
{
    tell_pieces!(teller; in_line!(Alone Word "parameters"),
        says!(Behind "parameters" Bytes bytes), LINE_END)
}

/// Tells what stands behind a command's header: its handles, its sessions, and its parameters as they came.
pub(crate) fn tell_areas<T: Teller>(
    teller: &mut T,
    handles: &[u32],
    auths: &[AuthRef<'_>],
    params: &[u8],
) -> Pushed
    ensures { OnOk result (T.told teller.new ≡ T.told teller.old
        ++ flat_map T.marks (areas_told handles.now (map of_command auths.now) params.now)) }
{
    tell_handles(teller, handles)?;
    tell_sessions(teller, &auths)?;
    tell_parameters(teller, params)
}
