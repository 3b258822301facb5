//! What holds of logs with one value in a register, and of those that a quote vouches for.

ghost use Rattle.std.specs.Prelude.{◌≡◌, ◌<◌, ℕ, List, map, true};
ghost use Rattle.tpm_types.specs.declared.alg.Alg.{Alg};
ghost use Rattle.tpm_types.specs.declared.attest.Attest.{Attest};
ghost use Rattle.tpm_types.specs.declared.tpms.Selection.{Selection};
ghost use Rattle.tpm_quote.specs.Attests.{is_among, register_of};
ghost use Rattle.tpm_vouched.specs.declared.allowed.AllowedDigest.{AllowedDigest};
ghost use Rattle.tpm_vouched.specs.Allowed.{AreAllowed, NoneIsUnknown, names};
ghost use Rattle.tpm_vouched.specs.Extends.{value_left};
ghost use Rattle.tpm_vouched.specs.Vouched.{AreApart, QuoteApart, QuotedLog, ReadLog, SameMeasured};
ghost use Rattle.tpm_vouched.specs.Vouched.{measured, vouched_part, vouched_parts};

/// Two logs that leave the same value in a register of a bank have the same digests extended there, in the same order,
/// from the same value: of register 0 that of the locality that they tell. So they measured the same there, record by
/// record: where a record's digest is the hash of its data, of a variable's value, of the text behind GRUB's prefix or
/// of all data but the last byte, the record at that place in the other log measured the same text. For this no two
/// different texts that are hashed in the two may have the same hash, and none a value as its hash with which the
/// register begins.
pub fn records_of_the_register()
    ensures { (bank : Alg) (register : ℕ) (one other : ReadLog)
        → value_left bank register one.records ≡ value_left bank register other.records
        → AreApart bank register one.records other.records
        → SameMeasured bank register one.records other.records }
{}

/// Two logs beside which one quote is the one that was asked for (`tpm_quote::check_attest` of `replay`) measured the
/// same in each register that the quote selects, whatever nonce was sent and whatever was required. For this the
/// selected values after the two may not be different texts with the same hash, and what `records_of_the_register`
/// says of texts has to hold.
pub fn records_of_the_quote()
    ensures { (bank hash : Alg) (a : Attest) (register : ℕ) (one other : QuotedLog hash a)
        → register < 24
        → is_among a.quote.selections (register_of bank register) ≡ true
        → QuoteApart hash a.quote.selections one.registers other.registers
        → AreApart bank register one.read.records other.read.records
        → SameMeasured bank register one.read.records other.read.records }
{}

/// What `vouched` tells of the records of a register that is selected, in a bank and in the log's order, is the part
/// that was measured there, one by one, as the laws above have it. So of two logs beside which one quote is the one
/// that was asked for, record by record, what is told as vouched is the same text, where both tell some part of their
/// data.
pub fn vouched_of_the_log()
    ensures { (selections : List Selection) (bank : Alg) (register : ℕ) (log : ReadLog)
        → is_among selections (register_of bank register) ≡ true
        → vouched_parts selections bank register log.records
        ≡ map vouched_part (measured bank register log.records) }
{}

/// Where a list names a register of a bank, and `AllowList::unknown` tells the bank of no record of that register, each
/// digest by which the log extends the register there is on the list.
pub fn allowed_by_the_log()
    ensures { (list : List AllowedDigest) (bank : Alg) (register : ℕ) (log : ReadLog)
        → names list bank register ≡ true
        → NoneIsUnknown list bank register log.records
        → AreAllowed list bank register log.records }
{}

/// Where each digest by which one log extends a register of a bank is on a list, so is each of every other log beside
/// which the quote is the one that was asked for, of a register that it selects. For this what `records_of_the_quote`
/// says of texts has to hold.
pub fn allowed_by_the_quote()
    ensures { (list : List AllowedDigest) (bank hash : Alg) (a : Attest) (register : ℕ)
        (one other : QuotedLog hash a)
        → register < 24
        → is_among a.quote.selections (register_of bank register) ≡ true
        → QuoteApart hash a.quote.selections one.registers other.registers
        → AreApart bank register one.read.records other.read.records
        → AreAllowed list bank register one.read.records
        → AreAllowed list bank register other.read.records }
{}
