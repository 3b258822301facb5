//! The words of the subcommand `run`.

ghost use Rattle.std.specs.Prelude.{ℕ, List, MatchResult, codes};
ghost use Rattle.tpm_names.specs.Numbers.{IsDecimal};
ghost use Rattle.tpm_args.specs.Owner.{IsOwner};
ghost use Rattle.tpm_args.specs.inner.Stop.{IsAsked, IsMemoryOr};

use crate::bytes::bytes_in;
use crate::invalid::{Usage, invalid_value};
use crate::stop::Stop;
use crate::task::{Asked, Task};
use clap::ArgMatches;
use tpm_names::number::decimal;
use tpm_types::{AuthValue, DIGEST_BYTES};

/// The task of the words of `run`.
pub(crate) fn run_task<'a>(usage: Usage, words: &ArgMatches<'a>) -> Asked<'a>
    ensures { IsAsked (codes "run") words.now result }
{
    let owner = owner(usage, words.get_str("owner").unwrap_or(""))?;
    let greatest = greatest(usage, words.get_str("greatest").unwrap_or("0"))?;
    Ok(Task::Run { owner, greatest })
}

// The owner's authorization value (TPM2B_AUTH; Part 2, 10.4.5) that hexadecimal digits are. A usage fault where the
// text is not hexadecimal, or has too many bytes.
fn owner(usage: Usage, text: &str) -> Result<AuthValue, Stop>
    ensures { MatchResult result (λ owner. IsOwner text.now owner)
        (IsMemoryOr ((owner : List ℕ) → IsOwner text.now owner → ⊥)) }
{
    let word = "--owner <HEX>";
    let bytes = bytes_in(usage, text, word)?;
    match AuthValue::new(bytes.as_slice()) {
        Some(owner) => Ok(owner),
        None => {
            let reason = format!(in usage.alloc; "it has more than {DIGEST_BYTES} bytes")?;
            Err(invalid_value(usage, text, word, reason.as_str())?)
        }
    }
}

// A number of decimal digits alone, without a sign. A usage fault where it is none, or not below 2^64.
fn greatest(usage: Usage, text: &str) -> Result<u64, Stop>
    ensures { MatchResult result (λ greatest. IsDecimal text.now greatest)
        (IsMemoryOr ((greatest : ℕ) → IsDecimal text.now greatest → ⊥)) }
{
    if let Some(greatest) = decimal(text) {
        return Ok(greatest);
    }
    let reason = "it is no decimal number up to 18446744073709551615";
    Err(invalid_value(usage, text, "--greatest <N>", reason)?)
}
