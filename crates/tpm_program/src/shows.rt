//! The subcommand `show` of a capture, of packets and of kept NV memory, and `run`.

ghost use Rattle.std.specs.Prelude.{ℕ, List, Option, IfOk, IfErr, IsErrOf};
ghost use Rattle.std.specs.Io.KnownBytes.{Appends};
ghost use Rattle.tpm_output.specs.declared.fault.ToolFault.TheVariants.{InputTooLong};
ghost use Rattle.tpm_output.specs.InputLines.{CountsRead};
ghost use Rattle.tpm_show.specs.Capture.{ReadsTooMuchCapture};
ghost use Rattle.tpm_args.specs.declared.task.Task.TheVariants.{Run, ShowCapture, ShowNv, ShowPackets};
ghost use Rattle.tpm_program.specs.Performs.{Performs, TellsFrames};
ghost use Rattle.tpm_program.specs.Fails.{Fails};

use crate::fault::Fault;
use crate::files::{bytes_at, of_reading, opened};
use crate::inputs::Inputs;
use std::alloc::Global;
use std::io::Write;
use tpm_device::Device;
use tpm_options::{CaptureTask, PacketsTask};
use tpm_output::fault::ToolFault;
use tpm_output::status::Status;
use tpm_script::{MOST_READ, run_script, show_nv};
use tpm_show::{Telling, show_lines, show_packets, show_stream};
use tpm_types::AuthValue;
use tpm_wire::Source;

// Tells the frames of a capture: of a stream where it is binary, and else of its lines.
fn show_frames<S: Source, W: Write>(
    alloc: Global,
    input: &mut S,
    out: &mut W,
    task: &CaptureTask<'_>,
) -> Result<Status, ToolFault>
    ensures failures { CountsRead (S.failed input.old) (S.failed input.new) result }
    ensures ok { IfOk result (λ status. (text : List ℕ)
        × TellsFrames task.now.binary (record { fields = task.now.fields; form = task.now.form })
        (S.coming input.old) status text
        × Appends (W.contents out.old) (W.contents out.new) text) }
    ensures too_long { IsErrOf result InputTooLong → (rest : Option (List ℕ))
        × ReadsTooMuchCapture (S.coming input.old) rest }
{
    let how = Telling {
        fields: task.fields,
        form: task.form,
    };
    if task.binary {
        show_stream(alloc, input, out, how)
    } else {
        show_lines(alloc, input, out, how)
    }
}

/// Tells the frames of a capture, in a file or, where there is no path, on standard input.
pub(crate) fn show_capture<'a, I: Inputs, W: Write>(
    alloc: Global,
    inputs: &I,
    out: &mut W,
    task: &CaptureTask<'a>,
) -> Result<Status, Fault<'a>>
    ensures ok { IfOk result (λ status. (text : List ℕ)
        × Performs (I.offers inputs.now) (ShowCapture task.now) status text
        × Appends (W.contents out.old) (W.contents out.new) text) }
    ensures err { IfErr result (λ fault. Fails (I.offers inputs.now) (ShowCapture task.now) fault) }
{
    let Some(path) = task.file else {
        let mut input = inputs.standard();
        return Ok(show_frames(alloc, &mut input, out, task)?);
    };
    let mut input = opened(inputs, path)?;
    match show_frames(alloc, &mut input, out, task) {
        Ok(status) => Ok(status),
        Err(fault) => Err(of_reading(inputs, fault, path)),
    }
}

/// Tells what went over a port of a simulator, by the packets in a file.
pub(crate) fn show_traffic<'a, I: Inputs, W: Write>(
    alloc: Global,
    inputs: &I,
    out: &mut W,
    task: &PacketsTask<'a>,
) -> Result<Status, Fault<'a>>
    ensures ok { IfOk result (λ status. (text : List ℕ)
        × Performs (I.offers inputs.now) (ShowPackets task.now) status text
        × Appends (W.contents out.old) (W.contents out.new) text) }
    ensures err { IfErr result (λ fault. Fails (I.offers inputs.now) (ShowPackets task.now) fault) }
{
    let how = Telling {
        fields: task.fields,
        form: task.form,
    };
    let mut packets = opened(inputs, task.file)?;
    match show_packets(alloc, &mut packets, out, task.port, how) {
        Ok(status) => Ok(status),
        Err(fault) => Err(of_reading(inputs, fault, task.file)),
    }
}

/// Tells what the kept NV memory in a file holds.
pub(crate) fn show_memory<'a, I: Inputs, W: Write>(
    alloc: Global,
    inputs: &I,
    out: &mut W,
    path: &'a str,
) -> Result<Status, Fault<'a>>
    ensures ok { IfOk result (λ status. (text : List ℕ)
        × Performs (I.offers inputs.now) (ShowNv path.entry) status text
        × Appends (W.contents out.old) (W.contents out.new) text) }
    ensures err { IfErr result (λ fault. Fails (I.offers inputs.now) (ShowNv path.entry) fault) }
{
    let bytes = bytes_at(alloc, inputs, path, MOST_READ)?;
    Ok(show_nv(alloc, out, bytes.as_slice())?)
}

/// Runs the script on standard input, on a new device.
pub(crate) fn run_input<'a, I: Inputs, W: Write>(
    alloc: Global,
    inputs: &I,
    out: &mut W,
    owner: &AuthValue,
    greatest: u64,
) -> Result<Status, Fault<'a>>
    ensures ok { IfOk result (λ status. (text : List ℕ)
        × Performs (I.offers inputs.now) (Run owner.now greatest) status text
        × Appends (W.contents out.old) (W.contents out.new) text) }
    ensures err { IfErr result (λ fault.
        Fails (I.offers inputs.now) (Run owner.now greatest) fault) }
{
    let device = Device::new(owner, greatest);
    let mut script = inputs.standard();
    Ok(run_script(alloc, &mut script, out, device)?)
}
