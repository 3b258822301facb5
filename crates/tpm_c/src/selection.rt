//! Registers of banks by their text.

ghost use Rattle.std.specs.Prelude.{◌≡◌, length, Some};
ghost use Rattle.tpm_wire.specs.Spelling.{spelling};
ghost use Rattle.tpm_types.specs.Tpml.{selections as selections_layout};
ghost use Rattle.tpm_c.specs.Selections.{IsSelectionTold};
ghost use Rattle.tpm_c.specs.Written.{in_room, IsIn};

use crate::handed::put_in_room;
use tpm_names::selection::selections;
use tpm_types::Selections;
use tpm_wire::{Buffer, Wire};

fn put_spelling(out: &mut [u8], listed: &Selections) -> usize
    ensures { IsIn (in_room (length out.old) (Some (spelling selections_layout listed.now)))
        out.old out.new result }
{
    let mut spelled = Buffer::new();
    prove!(listed.len() <= 22);
    listed.put(&mut spelled);
    put_in_room(out, spelled.as_slice())
}

/// Writes the registers that a text lists as tpm2-tools do, `sha1:7+sha256:0,1,2` or `sha256:all`, or from one to
/// another, `sha256:0-7`, to the beginning of `out` as a TPML_PCR_SELECTION (Part 2, 10.9.7), and says how many bytes
/// it has: 22, with an entry for each bank. It answers 0, and nothing is written, for any other text and where there is
/// less room.
#[unsafe(no_mangle)]
pub extern "C" fn tpm_selection(text: &[u8], out: &mut [u8]) -> usize
    ensures { IsSelectionTold text.now (record { answer = result; old = out.old; new = out.new }) }
{
    let Ok(text) = std::str::from_utf8(text) else {
        return 0;
    };
    match selections(text) {
        Some(listed) => put_spelling(out, &listed),
        None => 0,
    }
}
