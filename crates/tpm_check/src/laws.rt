//! What holds of a log, and of every log that its quote vouches for, where all was done beside a list.

ghost use Rattle.std.specs.Prelude.{ℕ, List, Some};
ghost use Rattle.tpm_options.specs.declared.CheckOptions.{CheckOptions};
ghost use Rattle.tpm_output.specs.declared.status.Status.TheVariants.{Done};
ghost use Rattle.tpm_lists.specs.AllowFiles.{list_said};
ghost use Rattle.tpm_check.specs.AllowedLogs.{AllowedByQuote};
ghost use Rattle.tpm_check.specs.QuotedBoot.{ChecksBoot};

/// Let `check_boot` have answered `Done` of a log, beside a quote as it was signed and a list of allowed digests. Then
/// the quote is the one that the options ask for, beside the registers that the log gives. It selects each register
/// that the list names, and the list names one. Each digest by which the log extends such a register is on the list.
/// So is each of every other log beside which the quote is accepted. For those logs what
/// `tpm_vouched::laws::allowed_by_the_quote` says of texts has to hold.
///
/// It doesn't say who signed the quote. Nor does it say in which order the digests came, how often, or that all of the
/// list did.
pub fn allowed_where_done()
    ensures { (o : CheckOptions) (attest allow bytes text : List ℕ)
        → ChecksBoot (record { options = o; attest = Some attest; allow = Some (list_said allow) }) bytes Done text
        → AllowedByQuote o attest allow bytes }
{}
