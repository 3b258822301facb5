//! Numbers by their digits.

ghost use Rattle.std.specs.Prelude.{ℕ, ◌≤◌, ◌^◌, MatchOption};
ghost use Rattle.tpm_names.specs.Numbers.{IsDecimal, IsHexadecimal, IsNumber, IsPort, IsShortDecimal};

/// The number that these decimal digits are, leading zeros too; none for any other text, as one
/// with a sign, and for a number above 2^64 - 1.
pub fn decimal(text: &str) -> Option<u64>
    ensures { MatchOption result ((number : ℕ) → IsDecimal text.now number → ⊥)
        (λ number. IsDecimal text.now number) }
{
    number(text, 10)
}

/// The number that these decimal digits are, leading zeros too; none for any other text, as one
/// with a sign, and for a number above 2^32 - 1.
pub fn short_decimal(text: &str) -> Option<u32>
    ensures { MatchOption result ((number : ℕ) → IsShortDecimal text.now number → ⊥)
        (λ number. IsShortDecimal text.now number) }
{
    u32::try_from(number(text, 10)?).ok()
}

/// The number of a port that these decimal digits are, leading zeros too; none for any other text, as
/// one with a sign, and for a number above 65535.
pub fn port(text: &str) -> Option<u16>
    ensures { MatchOption result ((port : ℕ) → IsPort text.now port → ⊥)
        (λ port. IsPort text.now port) }
{
    u16::try_from(number(text, 10)?).ok()
}

/// The number that these hexadecimal digits are, in either letter case, leading zeros too; none for
/// any other text, as one with a sign or with `0x`, and for a number above 2^32 - 1.
pub fn hexadecimal(text: &str) -> Option<u32>
    ensures { MatchOption result ((number : ℕ) → IsHexadecimal text.now number → ⊥)
        (λ number. IsHexadecimal text.now number) }
{
    u32::try_from(number(text, 16)?).ok()
}

// The number below 2^64 of these digits, without a sign.
fn number(text: &str, radix: u32) -> Option<u64>
    requires least { 2 ≤ radix }
    requires most { radix ≤ 36 }
    ensures { MatchOption result ((number : ℕ) → IsNumber radix (2 ^ 64) text.now number → ⊥)
        (λ number. IsNumber radix (2 ^ 64) text.now number) }
{
    if text.starts_with('+') {
        return None;
    }
    u64::from_str_radix(text, radix).ok()
}
