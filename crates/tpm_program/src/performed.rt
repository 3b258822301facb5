//! What the program does for a task.

ghost use Rattle.std.specs.Prelude.{◌≡◌, [], ℕ, List, IfOk, IfErr, string_bytes};
ghost use Rattle.std.specs.Io.KnownBytes.{Appends};
ghost use Rattle.tpm_output.specs.Faults.{FailsByMemoryOrWrite};
ghost use Rattle.tpm_program.specs.Performs.{ExplainsName, Performs};
ghost use Rattle.tpm_program.specs.Ends.{Remarks};
ghost use Rattle.tpm_program.specs.Fails.{Fails};

use crate::fault::Fault;
use crate::inputs::Inputs;
use crate::logs::{check, check_banks, events, events_header};
use crate::shows::{run_input, show_capture, show_memory, show_traffic};
use std::alloc::Global;
use std::io::Write;
use tpm_args::Task;
use tpm_check::explain_kind;
use tpm_names::codes::code_of_name;
use tpm_output::fault::ToolFault;
use tpm_output::status::Status;
use tpm_show::{build, explain, show, show_fields};

/// How a task ended that has an answer.
#[derive(Drop)]
pub struct Answered {
    /// Whether all was done.
    pub status: Status,
    /// What is told beside the answer: of parts that `build` refuses a line, and else nothing.
    pub remark: String,
}

// Prints what a response code of this name says, or the kind of a log's fault.
fn explain_name<W: Write>(alloc: Global, out: &mut W, name: &str) -> Result<Status, ToolFault>
    ensures ok { IfOk result (λ status. (text : List ℕ) × ExplainsName name.now status text
        × Appends (W.contents out.old) (W.contents out.new) text) }
    ensures err { FailsByMemoryOrWrite result }
{
    match code_of_name(name) {
        Some(code) => explain(alloc, out, code),
        None => explain_kind(alloc, out, name),
    }
}

// Prints what a task asks for, and answers whether all was done. The remark becomes what is told beside it.
fn print_task<'a, I: Inputs, W: Write>(
    alloc: Global,
    inputs: &I,
    out: &mut W,
    task: Task<'a>,
    remark: &mut String,
) -> Result<Status, Fault<'a>>
    requires { string_bytes remark.old ≡ [] }
    ensures ok { IfOk result (λ status. (text : List ℕ)
        × Performs (I.offers inputs.now) task.entry status text
        × Remarks task.entry (string_bytes remark.new)
        × Appends (W.contents out.old) (W.contents out.new) text) }
    ensures err { IfErr result (λ fault. Fails (I.offers inputs.now) task.entry fault) }
{
    match task {
        Task::Show {
            reply,
            fields: true,
            hex,
        } => Ok(show_fields(alloc, out, reply, hex)?),
        Task::Show {
            reply,
            fields: false,
            hex,
        } => Ok(show(alloc, out, reply, hex)?),
        Task::ShowCapture(task) => show_capture(alloc, inputs, out, &task),
        Task::ShowPackets(task) => show_traffic(alloc, inputs, out, &task),
        Task::ShowNv { file } => show_memory(alloc, inputs, out, file),
        Task::Build {
            name,
            handles,
            sessions,
            parameters,
        } => {
            let built = build(alloc, out, name, handles, sessions, parameters)?;
            *remark = built.remark;
            Ok(built.status)
        }
        Task::Run { owner, greatest } => run_input(alloc, inputs, out, &owner, greatest),
        Task::Explain { code } => Ok(explain(alloc, out, code)?),
        Task::ExplainName { name } => Ok(explain_name(alloc, out, name)?),
        Task::Check(task) => check(alloc, inputs, out, &task),
        Task::CheckListed(task) => check_banks(alloc, inputs, out, &task),
        Task::EventsHeader(task) => events_header(alloc, inputs, out, &task),
        Task::Events(task) => events(alloc, inputs, out, &task),
    }
}

/// Performs a task: prints what it asks for, and answers whether all was done, with what is told beside it.
///
/// What is printed is what the subcommand prints: `show` and `show_fields`, `show_lines` and `show_stream`,
/// `show_packets`, `show_nv`, `build`, `run_script`, `explain` and `explain_kind`, `check_log`, `check_boot`,
/// `check_extends` and `check_listed`, and `list_vouched` and `print_header`. The files
/// of a check are opened in this order: the log, the list of registers, the quote as it was signed, of which at most
/// 4,096 bytes are read before the log, and the list of allowed digests, of which at most 16,777,217 are; and so are
/// those of events. Of packets at most 2^30 bytes are read.
///
/// The remark is what `build` tells of parts that it refuses. Where a file can't be opened or read, the answer is
/// `File` with its path; else a fault of the subcommand is `Tool`.
pub fn perform<'a, I: Inputs, W: Write>(
    alloc: Global,
    inputs: &I,
    out: &mut W,
    task: Task<'a>,
) -> Result<Answered, Fault<'a>>
    ensures ok { IfOk result (λ answered. (text : List ℕ)
        × Performs (I.offers inputs.now) task.entry answered.status text
        × Remarks task.entry (string_bytes answered.remark)
        × Appends (W.contents out.old) (W.contents out.new) text) }
    ensures err { IfErr result (λ fault. Fails (I.offers inputs.now) task.entry fault) }
{
    let mut remark = String::new(alloc);
    let status = print_task(alloc, inputs, out, task, &mut remark)?;
    Ok(Answered { status, remark })
}
