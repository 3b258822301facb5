//! The words of the subcommand `check`, of which those on a quote as it was signed are those of `events`, too.

ghost use Rattle.std.specs.Prelude.{◌≡◌, ℕ, Option, List, MatchOption, MatchResult, Some, codes, false, is_some, true};
ghost use Rattle.std.specs.Global.{Vec as VecValue};
ghost use Rattle.clap.specs.Words.{first_value, found_of};
ghost use Rattle.tpm_types.specs.Alg.{alg_name};
ghost use Rattle.tpm_types.specs.declared.alg.Alg.{Alg as AlgValue};
ghost use Rattle.tpm_types.specs.declared.tpms.Selection.{Selection as SelectionValue};
ghost use Rattle.tpm_options.specs.declared.CheckOptions.{CheckOptions as CheckOptionsValue};
ghost use Rattle.tpm_args.specs.inner.Stop.{IsAsked, IsMemoryOr};
ghost use Rattle.tpm_args.specs.Task.{AreFiles, AreOptions, DigestsGoTogether, GoTogether, form_asked, goes_with};
ghost use Rattle.tpm_args.specs.Task.{has_neither, is_alone, is_uncompared, IsExpected, IsHashExpected, IsRequired};

use crate::bytes::bytes_in;
use crate::given::{form_asked, has, is_given};
use crate::invalid::{Usage, check_value, check_words, invalid_value, nothing_asked, wrong_words};
use crate::stop::Stop;
use crate::task::{Asked, Task};
use clap::ArgMatches;
use tpm_names::selection::selections;
use tpm_options::{CheckFiles, CheckOptions, CheckTask, LogTask};
use tpm_types::{Alg, Selections};
use tpm_words::Subcommand;

/// The task of the words of `check`.
pub(crate) fn check_task<'a>(usage: Usage, words: &ArgMatches<'a>) -> Asked<'a>
    ensures { IsAsked (codes "check") words.now result }
{
    let Some(log) = words.get_str("LOG") else {
        return Err(nothing_asked(usage.alloc)?);
    };
    let options = options(usage, words)?;
    if is_given(words, "listed") {
        let alone = is_uncompared(words) & !is_given(words, "extends");
        check_words(usage, alone, "--listed goes with --json alone")?;
        return Ok(Task::CheckListed(log_task(words, log)));
    }
    Ok(Task::Check(CheckTask {
        files: files(words, log),
        options,
    }))
}

// This log, and what it is compared with.
fn files<'a>(words: &ArgMatches<'a>, log: &'a str) -> CheckFiles<'a>
    requires { first_value (found_of words.now) (codes "LOG") ≡ Some log.now }
    ensures { AreFiles (first_value (found_of words.now)) result }
{
    CheckFiles {
        log,
        registers: words.get_str("registers"),
        attest: words.get_str("attest"),
        allow: words.get_str("allow"),
    }
}

/// This log, by itself.
pub(crate) fn log_task<'a>(words: &ArgMatches<'a>, log: &'a str) -> LogTask<'a>
    ensures { (result.log ≡ log.entry)
        × (result.form ≡ form_asked (first_value (found_of words.now))) }
{
    LogTask {
        log,
        form: form_asked(words),
    }
}

/// What is asked of the files of this subcommand. A usage fault where the words are not in order.
pub(crate) fn options<'a>(usage: Usage, words: &ArgMatches<'a>) -> Result<CheckOptions<'a>, Stop>
    ensures { MatchResult result
        (λ options. AreOptions (first_value (found_of words.now)) options)
        (IsMemoryOr ((options : CheckOptionsValue)
        → AreOptions (first_value (found_of words.now)) options → ⊥)) }
{
    check_together(usage, words)?;
    let nonce = bytes_expected(usage, words, "nonce", "--nonce <HEX>")?;
    let required = required(usage, words)?;
    let signer = bytes_expected(usage, words, "signer", "--signer <HEX>")?;
    let hash = hash_expected(usage, words)?;
    Ok(CheckOptions {
        nonce,
        any_nonce: is_given(words, "any-nonce"),
        required,
        any_selection: is_given(words, "any-selection") | has(words, "allow"),
        signer,
        quote: words.get_str("quote"),
        hash,
        secure_boot: is_given(words, "secure-boot"),
        any_state: is_given(words, "any-state"),
        extends: is_given(words, "extends"),
        form: form_asked(words),
    })
}

// A flag is not given, or this holds.
fn goes_with(flag: bool, holds: bool) -> bool
    ensures { result ≡ goes_with flag holds }
{
    !flag | holds
}

// Why flags don't go with the words beside them, if they don't.
fn flags_fault(words: &ArgMatches<'_>) -> Option<&'static str>
    ensures { MatchOption result (GoTogether (first_value (found_of words.now)))
        (λ _. GoTogether (first_value (found_of words.now)) → ⊥) }
{
    let attest = has(words, "attest");
    let secure_boot = is_given(words, "secure-boot");
    if !goes_with(secure_boot, has_neither(words)) {
        return Some("--secure-boot goes with neither --registers nor --quote");
    }
    if !goes_with(is_given(words, "any-state"), secure_boot) {
        return Some("--any-state goes with --secure-boot");
    }
    if !goes_with(is_given(words, "any-nonce"), attest & !has(words, "nonce")) {
        return Some("--any-nonce goes with --attest, and not with --nonce");
    }
    if !goes_with(
        is_given(words, "any-selection"),
        attest & !has(words, "require"),
    ) {
        return Some("--any-selection goes with --attest, and not with --require");
    }
    None
}

// The same of a list of allowed digests, and of what a log extends.
fn digests_fault(words: &ArgMatches<'_>) -> Option<&'static str>
    ensures { MatchOption result (DigestsGoTogether (first_value (found_of words.now)))
        (λ _. DigestsGoTogether (first_value (found_of words.now)) → ⊥) }
{
    if !goes_with(
        has(words, "allow"),
        has(words, "attest") & has_neither(words),
    ) {
        return Some("--allow goes with --attest, and with neither --registers nor --quote");
    }
    if !goes_with(is_given(words, "extends"), is_alone(words)) {
        return Some("--extends goes alone");
    }
    None
}

// A usage fault where words don't go together.
fn check_together(usage: Usage, words: &ArgMatches<'_>) -> Result<(), Stop>
    ensures { MatchResult result
        (λ _. GoTogether (first_value (found_of words.now))
        × DigestsGoTogether (first_value (found_of words.now)))
        (IsMemoryOr (GoTogether (first_value (found_of words.now))
        × DigestsGoTogether (first_value (found_of words.now)) → ⊥)) }
{
    match flags_fault(words).or(digests_fault(words)) {
        Some(reason) => Err(wrong_words(usage, reason)?),
        None => Ok(()),
    }
}

// Whether neither a list of registers nor the information of a quote is given.
fn has_neither(words: &ArgMatches<'_>) -> bool
    ensures { result ≡ has_neither (first_value (found_of words.now)) }
{
    !has(words, "registers") & !has(words, "quote")
}

// Whether that is so, and neither a quote as it was signed is given nor Secure Boot asked for.
fn is_uncompared(words: &ArgMatches<'_>) -> bool
    ensures { result ≡ is_uncompared (first_value (found_of words.now)) }
{
    has_neither(words) & !has(words, "attest") & !is_given(words, "secure-boot")
}

// Whether that is so, and no JSON is asked for.
fn is_alone(words: &ArgMatches<'_>) -> bool
    ensures { result ≡ is_alone (first_value (found_of words.now)) }
{
    is_uncompared(words) & !is_given(words, "json")
}

// The bytes that are expected of a quote, where a word is given. A usage fault where it has none, or no quote as it was
// signed is given.
fn bytes_expected(
    usage: Usage,
    words: &ArgMatches<'_>,
    name: &str,
    word: &str,
) -> Result<Option<Vec<u8>>, Stop>
    ensures { MatchResult result
        (λ bytes. IsExpected (first_value (found_of words.now)) name.now bytes)
        (IsMemoryOr ((bytes : Option (VecValue ℕ))
        → IsExpected (first_value (found_of words.now)) name.now bytes → ⊥)) }
{
    let Some(text) = words.get_str(name) else {
        return Ok(None);
    };
    check_value(usage, has(words, "attest"), text, word, NO_ATTEST)?;
    Ok(Some(bytes_in(usage, text, word)?))
}

const NO_ATTEST: &str = "no --attest is given";

// The registers that have to be selected, where a list is given. A usage fault where it is none, or no quote as it was
// signed is given.
fn required(usage: Usage, words: &ArgMatches<'_>) -> Result<Option<Selections>, Stop>
    ensures { MatchResult result
        (λ required. IsRequired (first_value (found_of words.now)) required)
        (IsMemoryOr ((required : Option (List SelectionValue))
        → IsRequired (first_value (found_of words.now)) required → ⊥)) }
{
    let Some(text) = words.get_str("require") else {
        return Ok(None);
    };
    let word = "--require <LIST>";
    check_value(usage, has(words, "attest"), text, word, NO_ATTEST)?;
    if let Some(required) = selections(text) {
        return Ok(Some(required));
    }
    let reason = "it is no list of registers, as sha1:7+sha256:0,1,2 or sha256:all";
    Err(invalid_value(usage, text, word, reason)?)
}

// The hash of this name.
fn hash_named(text: &str) -> Option<Alg>
    ensures { MatchOption result ((hash : AlgValue) → text.now ≡ alg_name hash → ⊥)
        (λ hash. text.now ≡ alg_name hash) }
{
    Alg::ALL.iter().copied().find(|hash| hash.name() == text)
}

// Why a hash is at fault without a quote.
fn without_quote(of: Subcommand) -> &'static str {
    match of {
        Subcommand::Check => "no --quote or --attest is given",
        _ => NO_ATTEST,
    }
}

// The hash that is expected of a quote, where a word is given. A usage fault where it names none, or no quote is given.
fn hash_expected(usage: Usage, words: &ArgMatches<'_>) -> Result<Option<Alg>, Stop>
    ensures { MatchResult result (λ hash. IsHashExpected (first_value (found_of words.now)) hash)
        (IsMemoryOr ((hash : Option AlgValue)
        → IsHashExpected (first_value (found_of words.now)) hash → ⊥)) }
{
    let Some(text) = words.get_str("hash") else {
        return Ok(None);
    };
    let word = "--hash <NAME>";
    let Some(hash) = hash_named(text) else {
        let reason = "it is none of sha1, sha256 and sha384";
        return Err(invalid_value(usage, text, word, reason)?);
    };
    let quoted = has(words, "quote") | has(words, "attest");
    check_value(usage, quoted, text, word, without_quote(usage.of))?;
    Ok(Some(hash))
}
