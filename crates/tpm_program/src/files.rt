//! Files that are opened, and what is told where reading them fails.

ghost use Rattle.std.specs.Prelude.{◌≡◌, ◌<◌, Ok, IfOk, IfErr, option_map};
ghost use Rattle.tpm_output.specs.declared.fault.ToolFault.TheVariants.{Read};
ghost use Rattle.tpm_events.specs.ListEvents.{most_read};
ghost use Rattle.tpm_lists.specs.AllowFiles.{list_said};
ghost use Rattle.tpm_program.specs.Offered.{OfFile, OfFileIf};
ghost use Rattle.tpm_program.specs.Performs.{OfFirst, OfFirstIf};
ghost use Rattle.tpm_program.specs.inner.Fails.{FailsAt, FailsAtIf, IsNotOpened, IsNotOpenedIf, IsOfReading};

use crate::cause::Cause;
use crate::fault::Fault;
use crate::inputs::Inputs;
use std::alloc::Global;
use tpm_lists::{AllowFile, read_list};
use tpm_output::fault::ToolFault;
use tpm_output::reads::read_up_to;

/// The file at a path, opened for reading.
pub(crate) fn opened<'a, I: Inputs>(inputs: &I, path: &'a str) -> Result<I::Source, Fault<'a>>
    ensures opened { IfOk result (λ source.
        (I.offers inputs.now).opens path.now (Ok (I.Source.coming source))) }
    ensures fresh { IfOk result (λ source. I.Source.failed source ≡ 0) }
    ensures fails { (source : I.Source) → 0 < I.Source.failed source
        → (I.offers inputs.now).fails }
    ensures err { IfErr result (λ fault. IsNotOpened (I.offers inputs.now) path.now fault) }
{
    match inputs.open(path) {
        Ok(source) => Ok(source),
        Err(cause) => Err(Fault::File { path, cause }),
    }
}

/// The same, where there is a path.
pub(crate) fn opened_if<'a, I: Inputs>(
    inputs: &I,
    path: Option<&'a str>,
) -> Result<Option<I::Source>, Fault<'a>>
    ensures opened { IfOk result (λ source. OfFileIf (I.offers inputs.now) path.entry
        (λ coming. coming ≡ option_map I.Source.coming source)) }
    ensures err { IfErr result (λ fault. IsNotOpenedIf (I.offers inputs.now) path.entry fault) }
{
    match path {
        Some(path) => Ok(Some(opened(inputs, path)?)),
        None => Ok(None),
    }
}

/// The fault of a subcommand of whose files the one at this path was the last that was read. Where it is `Read`, a read
/// failed.
pub(crate) fn of_reading<'a, I: Inputs>(inputs: &I, fault: ToolFault, path: &'a str) -> Fault<'a>
    requires { fault ≡ Read → (I.offers inputs.now).fails }
    ensures { IsOfReading (I.offers inputs.now) path.now fault result }
{
    match fault {
        ToolFault::Read => {
            let cause = if inputs.is_directory(path) {
                Cause::Directory
            } else {
                Cause::Other
            };
            Fault::File { path, cause }
        }
        other => Fault::Tool(other),
    }
}

/// The bytes of the file at a path, or the first of them, so many.
pub(crate) fn bytes_at<'a, I: Inputs>(
    alloc: Global,
    inputs: &I,
    path: &'a str,
    most: usize,
) -> Result<Vec<u8>, Fault<'a>>
    ensures ok { IfOk result (λ bytes. OfFile (I.offers inputs.now) path.now
        (OfFirst most (λ read. read ≡ bytes.items))) }
    ensures err { IfErr result (λ fault. FailsAt (I.offers inputs.now) path.now fault) }
{
    let mut source = opened(inputs, path)?;
    match read_up_to(alloc, &mut source, most) {
        Ok(bytes) => Ok(bytes),
        Err(fault) => Err(of_reading(inputs, fault, path)),
    }
}

/// The same, where there is a path.
pub(crate) fn bytes_if<'a, I: Inputs>(
    alloc: Global,
    inputs: &I,
    path: Option<&'a str>,
    most: usize,
) -> Result<Option<Vec<u8>>, Fault<'a>>
    ensures ok { IfOk result (λ bytes. OfFirstIf (I.offers inputs.now) most path.entry
        (λ read. read ≡ option_map (λ v. v.items) bytes)) }
    ensures err { IfErr result (λ fault. FailsAtIf (I.offers inputs.now) path.entry fault) }
{
    match path {
        Some(path) => Ok(Some(bytes_at(alloc, inputs, path, most)?)),
        None => Ok(None),
    }
}

/// What the list of allowed digests at a path says.
fn list_at<'a, I: Inputs>(alloc: Global, inputs: &I, path: &'a str) -> Result<AllowFile, Fault<'a>>
    ensures ok { IfOk result (λ list. OfFile (I.offers inputs.now) path.now
        (OfFirst most_read (λ read. list ≡ list_said read))) }
    ensures err { IfErr result (λ fault. FailsAt (I.offers inputs.now) path.now fault) }
{
    let mut source = opened(inputs, path)?;
    match read_list(alloc, &mut source) {
        Ok(list) => Ok(list),
        Err(fault) => Err(of_reading(inputs, fault, path)),
    }
}

/// The same, where there is a path.
pub(crate) fn list_if<'a, I: Inputs>(
    alloc: Global,
    inputs: &I,
    path: Option<&'a str>,
) -> Result<Option<AllowFile>, Fault<'a>>
    ensures ok { IfOk result (λ list. OfFirstIf (I.offers inputs.now) most_read path.entry
        (λ read. list ≡ option_map list_said read)) }
    ensures err { IfErr result (λ fault. FailsAtIf (I.offers inputs.now) path.entry fault) }
{
    match path {
        Some(path) => Ok(Some(list_at(alloc, inputs, path)?)),
        None => Ok(None),
    }
}
