//! What a device attests (Part 2, 10.11 and 10.12).

ghost use Rattle.std.specs.Prelude.{◌≡◌, ◌≤◌, ◌+◌, ◌++◌, ℕ, length, IfOk};
ghost use Rattle.tpm_wire.specs.Buffers.{Takes};
ghost use Rattle.tpm_wire.specs.Spelling.{spelling, Fits};
ghost use Rattle.tpm_types.specs.Attest.{yes_no};

use crate::tpm2b::{Digest, Lent};
use crate::tpml::Selections;
use tpm_wire::response_code::VALUE;
use tpm_wire::{Cursor, Refusal, Room, Wire};

/// What a quote says of the registers: TPMS_QUOTE_INFO (Part 2, 10.12.4).
#[derive(Drop)]
pub struct QuoteInfo {
    /// The registers.
    pub selections: Selections,
    /// pcrDigest, the digest of their values.
    pub digest: Digest,
}

/// The fields in their order.
#[tactic(auto, unfolding(crate::specs::Attest::quote_info))]
impl Wire for QuoteInfo {
    ghost use Rattle.std.specs.Prelude.{◌+◌, ◌*◌};
    ghost use Rattle.tpm_types.specs.Limits.{digest_bytes, banks};
    ghost use Rattle.tpm_types.specs.Attest.{quote_info};

    ghost layout = { quote_info };

    ghost most = { (4 + banks * 6) + (2 + digest_bytes) };

    fn has_spelling(&self) {
        self.selections.has_spelling();
        self.digest.has_spelling();
    }

    fn len(&self) -> usize {
        self.selections.len() + self.digest.len()
    }

    fn put<R: Room>(&self, out: &mut R) {
        self.selections.put(out);
        self.digest.put(out);
    }

    fn take(cursor: &mut Cursor<'_>) -> Result<Self, Refusal> {
        Ok(QuoteInfo {
            selections: Selections::take(cursor)?,
            digest: Digest::take(cursor)?,
        })
    }
}

/// Answers a TPMI_YES_NO (Part 2, 9.2), else VALUE.
#[tactic(auto, unfolding(crate::specs::Attest::yes_no))]
fn take_yes_no(cursor: &mut Cursor<'_>) -> Result<bool, Refusal>
    ensures reads { Takes yes_no cursor.old cursor.new result }
    ensures spelled { IfOk result
        (λ x. cursor.old.here.rest ≡ spelling yes_no x ++ cursor.new.here.rest) }
{
    let refusal = cursor.refusal(VALUE);
    match u8::take(cursor)? {
        0 => Ok(false),
        1 => Ok(true),
        _ => Err(refusal),
    }
}

#[tactic(auto, unfolding(crate::specs::Attest::yes_no))]
fn known_yes_no(x: bool)
    ensures { (left : ℕ) → Fits left yes_no x }
{
    match x {
        false => {}
        true => {}
    }
}

#[tactic(auto, unfolding(crate::specs::Attest::yes_no))]
fn put_yes_no<R: Room>(x: bool, out: &mut R)
    requires { length (R.written out.old) + length (spelling yes_no x) ≤ R.size }
    ensures { R.written out.new ≡ R.written out.old ++ spelling yes_no x }
{
    match x {
        false => 0u8.put(out),
        true => 1u8.put(out),
    }
}

/// The time of a device: TPMS_CLOCK_INFO (Part 2, 10.11.1).
#[derive(Clone, Copy, Debug, PartialEq, Eq)]
pub struct ClockInfo {
    /// clock: for how many milliseconds the device has had power.
    pub clock: u64,
    /// resetCount: how often it was reset.
    pub reset_count: u32,
    /// restartCount: how often it was restarted or resumed since the last reset.
    pub restart_count: u32,
    /// safe: no greater clock was told before.
    pub safe: bool,
}

/// The fields in their order.
#[tactic(auto, unfolding(crate::specs::Attest::clock_info))]
impl Wire for ClockInfo {
    ghost use Rattle.tpm_types.specs.Attest.{clock_info};

    ghost layout = { clock_info };

    ghost most = { 17 };

    fn has_spelling(&self) {
        self.clock.has_spelling();
        self.reset_count.has_spelling();
        self.restart_count.has_spelling();
        known_yes_no(self.safe);
    }

    #[tactic(auto, unfolding(crate::specs::Attest::clock_info, crate::specs::Attest::yes_no))]
    fn len(&self) -> usize {
        17
    }

    fn put<R: Room>(&self, out: &mut R) {
        self.clock.put(out);
        self.reset_count.put(out);
        self.restart_count.put(out);
        put_yes_no(self.safe, out);
    }

    fn take(cursor: &mut Cursor<'_>) -> Result<Self, Refusal> {
        Ok(ClockInfo {
            clock: u64::take(cursor)?,
            reset_count: u32::take(cursor)?,
            restart_count: u32::take(cursor)?,
            safe: take_yes_no(cursor)?,
        })
    }
}

/// TPM_GENERATED_VALUE (Part 2, 6.2): a device made the structure.
const GENERATED_VALUE: u32 = 0xFF54_4347;

/// TPM_ST_ATTEST_QUOTE (Part 2, 6.9): what is attested is a quote.
const ATTEST_QUOTE: u16 = 0x8018;

/// How many bytes a TPM2B_DATA and the Name of a key have at most (Part 2, 10.4.3 and 10.5.3): the number of a hash,
/// and the longest digest of any, that of SHA-512.
pub const DATA_BYTES: usize = 66;

/// A quote as it is signed: TPMS_ATTEST (Part 2, 10.12) of type TPM_ST_ATTEST_QUOTE. What has a length of
/// its own is lent from where the bytes are.
#[derive(Drop)]
pub struct Attest<'a> {
    /// qualifiedSigner, the qualified Name of the key that signs.
    pub signer: Lent<'a, DATA_BYTES>,
    /// extraData, what the caller of TPM2_Quote gave: a nonce.
    pub extra_data: Lent<'a, DATA_BYTES>,
    /// clockInfo.
    pub clock_info: ClockInfo,
    /// firmwareVersion.
    pub firmware_version: u64,
    /// attested: the registers, and the digest of their values.
    pub quote: QuoteInfo,
}

#[tactic(auto, unfolding(crate::specs::Attest::attest, crate::specs::Attest::generated, crate::specs::Attest::attest_type))]
impl<'a> Attest<'a> {
    ghost use Rattle.std.specs.Prelude.{◌≡◌, ◌≤◌, ◌+◌, ◌++◌, ℕ, length, IfOk};
    ghost use Rattle.tpm_wire.specs.Buffers.{Takes};
    ghost use Rattle.tpm_wire.specs.Spelling.{spelling, Fits};
    ghost use Rattle.tpm_types.specs.Attest.{attest};

    /// A quote has a spelling. It does nothing, and is called for what it ensures.
    pub fn has_spelling(&self)
        ensures { (left : ℕ) → Fits left attest self.now }
    {
        self.signer.has_spelling();
        self.extra_data.has_spelling();
        self.clock_info.has_spelling();
        self.firmware_version.has_spelling();
        self.quote.has_spelling();
    }

    /// How many bytes its spelling has.
    pub fn len(&self) -> usize
        ensures value { result ≡ length (spelling attest self.now) }
        ensures fits { result ≤ 239 }
    {
        6 + self.signer.len()
            + self.extra_data.len()
            + self.clock_info.len()
            + self.firmware_version.len()
            + self.quote.len()
    }

    /// Adds its spelling to the buffer, which has room for it: the bytes that are signed.
    pub fn put<R: Room>(&self, out: &mut R)
        requires { length (R.written out.old) + length (spelling attest self.now) ≤ R.size }
        ensures { R.written out.new ≡ R.written out.old ++ spelling attest self.now }
    {
        GENERATED_VALUE.put(out);
        ATTEST_QUOTE.put(out);
        self.signer.put(out);
        self.extra_data.put(out);
        self.clock_info.put(out);
        self.firmware_version.put(out);
        self.quote.put(out);
    }

    /// The quote that begins here, or the first fault, with the cursor's number added to its code: VALUE of another
    /// magic or type or of a `safe` that is neither 0 nor 1; SIZE, HASH or VALUE in what has a size and in the
    /// selection; INSUFFICIENT. Where the cursor is after a fault is not said.
    pub fn take(cursor: &mut Cursor<'a>) -> Result<Self, Refusal>
        ensures reads { Takes attest cursor.old cursor.new result }
        ensures spelled { IfOk result
            (λ a. cursor.old.here.rest ≡ spelling attest a ++ cursor.new.here.rest) }
    {
        let refusal = cursor.refusal(VALUE);
        if u32::take(cursor)? != GENERATED_VALUE {
            return Err(refusal);
        }
        let refusal = cursor.refusal(VALUE);
        if u16::take(cursor)? != ATTEST_QUOTE {
            return Err(refusal);
        }
        Ok(Attest {
            signer: Lent::take(cursor)?,
            extra_data: Lent::take(cursor)?,
            clock_info: ClockInfo::take(cursor)?,
            firmware_version: u64::take(cursor)?,
            quote: QuoteInfo::take(cursor)?,
        })
    }
}
