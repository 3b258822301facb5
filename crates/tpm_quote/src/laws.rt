//! Laws on quotes.

ghost use Rattle.std.specs.Prelude.{ℕ, List};
ghost use Rattle.tpm_wire.specs.Path.{ExactlyOne};
ghost use Rattle.tpm_types.specs.Attest.{attest};

/// Bytes spell one quote as it is signed, or have one fault.
pub fn attest_or_fault()
    ensures { (bytes : List ℕ) → ExactlyOne attest bytes }
{}
