//! The subcommand `explain` of the kind of a log's fault.

ghost use Rattle.std.specs.Prelude.{◌≡◌, ℕ, List, IfOk, map, option_map, string_bytes};
ghost use Rattle.std.specs.Io.KnownBytes.{Appends};
ghost use Rattle.tpm_output.specs.declared.status.Status.TheVariants.{Done};
ghost use Rattle.tpm_output.specs.Faults.{FailsByMemoryOrWrite};
ghost use Rattle.tpm_check.specs.Kinds.{ExplainsKind, kind_line, spelled};
ghost use Rattle.tpm_check.specs.inner.Kinds.{as_row, row_named};

use std::alloc::{AllocError, Global};
use std::io::Write;
use tpm_output::answer::Answer;
use tpm_output::fault::ToolFault;
use tpm_output::status::Status;

// A kind of fault: its name, and what it says.
type Kind = (&'static str, &'static str);

// The kinds of faults by name, with what each says.
const KINDS: [Kind; 27] = [
    ("Truncated", "the log ends within its header or a record"),
    (
        "TooLong",
        "a field would end behind byte 16,777,216, up to which a log is read",
    ),
    (
        "NotCryptoAgile",
        "the first record is no header of a log with digests of several hashes (Spec ID Event03)",
    ),
    (
        "BadHeader",
        "the header's event has too few or too many bytes, or lists no hash or more than eight",
    ),
    ("DuplicateAlgorithm", "the header lists a hash twice"),
    (
        "WrongDigestSize",
        "the header gives a hash another size than its digests have, or one outside of 1 to 64 bytes",
    ),
    (
        "UnknownAlgorithm",
        "the record has a digest of a hash that the header does not list",
    ),
    ("RepeatedDigest", "the record has two digests of one hash"),
    (
        "BadRegister",
        "the record is not EV_NO_ACTION, and names a register other than 0 to 16 and 23",
    ),
    ("BadLocality", "the start-up locality is not 0, 3 or 4"),
    (
        "LateLocality",
        "the start-up locality stands behind another, or behind a record that extends register 0",
    ),
    ("Device", "a read of the log failed"),
    (
        "NotMeasured",
        "the bank's digest of the record is not the hash of its data, nor, of an authority, of all but their last byte",
    ),
    (
        "OtherType",
        "before the separator, the record is no variable, none of the profile's actions and no separator",
    ),
    (
        "NoVariable",
        "the data of the variable's record are no UEFI_VARIABLE_DATA to their end",
    ),
    (
        "Twice",
        "SecureBoot, PK, KEK, db, dbx, dbt or dbr was measured before",
    ),
    ("OtherValue", "SecureBoot has a value other than 0 and 1"),
    (
        "Debugger",
        "the firmware could be debugged, as the action UEFI Debug Mode says",
    ),
    (
        "BadSeparator",
        "the separator is neither 00000000 nor FFFFFFFF, as of firmware that failed",
    ),
    (
        "NoSeparator",
        "the log ends without a separator in register 7",
    ),
    (
        "Late",
        "behind the separator, the record is no EV_EFI_VARIABLE_AUTHORITY",
    ),
    (
        "NoKey",
        "Secure Boot is on, and PK, KEK or db holds nothing",
    ),
    (
        "NoAuthority",
        "Secure Boot is on, and the log ends without an authority",
    ),
    (
        "NoSecureBoot",
        "the log ends, and SecureBoot was not measured, as by a BIOS without UEFI",
    ),
    (
        "ListSize",
        "a list has fewer bytes than its type and sizes, or more than are left",
    ),
    ("HeaderSize", "a list's header has more bytes than the list"),
    (
        "SignatureSize",
        "a list's signatures have no room for their owner, or are no whole number",
    ),
];

// The first of these kinds that has the name, in any letter case.
fn kind_named(kinds: &'static [Kind], name: &str) -> Option<&'static Kind>
    ensures { option_map (λ k. as_row k.now) result ≡ row_named (map as_row kinds.now) name.now }
{
    kinds.iter().find(|kind| kind.0.eq_ignore_ascii_case(name))
}

#[tactic(auto, unfolding(crate::specs::Kinds::kind_line))]
fn explained(alloc: Global, name: &str, words: &str) -> Result<Answer, AllocError>
    ensures { IfOk result (λ a. (a.status ≡ Done)
        × (string_bytes a.text ≡ kind_line name.now words.now)) }
{
    let mut text = String::new(alloc);
    writeln!(text, "{name}: {words}")?;
    Ok(Answer::done(text))
}

fn answer(alloc: Global, name: &str) -> Result<Answer, AllocError>
    ensures { IfOk result (λ a. ExplainsKind (spelled name.now) a.status (string_bytes a.text)) }
{
    match kind_named(&KINDS, name) {
        Some(kind) => explained(alloc, kind.0, kind.1),
        None => Answer::of(
            alloc,
            Status::Refused,
            "unknown name of a code or of a fault\n",
        ),
    }
}

/// Prints what the kind of a log's fault says, as `check` and `events` name it (`LogFaultKind`), or that of a fault
/// of Secure Boot or of lists of signatures, as `check --secure-boot` does (`SecureBootFaultKind`,
/// `SignatureFaultKind`): `KIND: WORDS`.
///
/// The name may be in any letter case. For any other it is `unknown name of a code or of a fault`, and the status
/// `Refused`. Where a request for memory is refused the answer is `Memory`, and where the writer fails it is `Write`.
/// What was written before is then left open.
pub fn explain_kind<W: Write>(alloc: Global, out: &mut W, name: &str) -> Result<Status, ToolFault>
    ensures ok { IfOk result (λ status. (text : List ℕ) × ExplainsKind (spelled name.now) status text
        × Appends (W.contents out.old) (W.contents out.new) text) }
    ensures err { FailsByMemoryOrWrite result }
{
    answer(alloc, name)?.print(out)
}
