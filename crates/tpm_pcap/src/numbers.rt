//! The fields of a file or a packet, one behind the other.

ghost use Rattle.std.specs.Prelude.{◌≡◌, ◌+◌, ◌<◌, length, IfOk};
ghost use Rattle.std.specs.Int.{w16, w32};
ghost use Rattle.tpm_pcap.specs.Numbers.{cut, field, number2, number4};
ghost use Rattle.tpm_pcap.specs.inner.Numbers.{field_by};

use crate::entry::Reason;

/// The order of the bytes of a number.
#[derive(Clone, Copy)]
pub(crate) enum Order {
    /// The most significant byte first.
    Big,
    /// The least significant byte first.
    Little,
}

/// The first bytes, `count` of them, and what is behind them.
#[tactic(auto, unfolding(crate::specs::Numbers::cut))]
pub(crate) fn cut(bytes: &[u8], count: usize) -> Result<(&[u8], &[u8]), Reason>
    ensures value { field_by (λ front. front.now) result ≡ cut count bytes.now }
    ensures size { IfOk result (λ x. (length x.0.now ≡ count) × (length x.1.now + count ≡ length bytes.now)) }
{
    bytes.split_at_checked(count).ok_or(Reason::CutShort)
}

/// The number of the two bytes that stand there, the most significant first.
pub(crate) fn number2(bytes: &[u8], at: usize) -> u16
    requires { at + 1 < length bytes.now }
    ensures { result ≡ number2 bytes.now at }
{
    u16::from_be_bytes([bytes[at], bytes[at + 1]])
}

/// That of four bytes likewise.
pub(crate) fn number4(bytes: &[u8], at: usize) -> u32
    requires { at + 3 < length bytes.now }
    ensures { result ≡ number4 bytes.now at }
{
    u32::from_be_bytes([bytes[at], bytes[at + 1], bytes[at + 2], bytes[at + 3]])
}

impl Order {
    /// A number of two bytes, and what is behind it.
    #[tactic(auto, unfolding(crate::specs::Numbers::cut, crate::specs::Numbers::field))]
    pub(crate) fn u16(self, bytes: &[u8]) -> Result<(u16, &[u8]), Reason>
        ensures value { field_by (λ n. n) result ≡ field self w16 bytes.now }
        ensures size { IfOk result (λ x. length x.1.now + 2 ≡ length bytes.now) }
    {
        let Some((front, behind)) = bytes.split_first_chunk::<2>() else {
            return Err(Reason::CutShort);
        };
        match self {
            Order::Big => Ok((u16::from_be_bytes(*front), behind)),
            Order::Little => Ok((u16::from_le_bytes(*front), behind)),
        }
    }

    /// A number of four bytes, and what is behind it.
    #[tactic(auto, unfolding(crate::specs::Numbers::cut, crate::specs::Numbers::field))]
    pub(crate) fn u32(self, bytes: &[u8]) -> Result<(u32, &[u8]), Reason>
        ensures value { field_by (λ n. n) result ≡ field self w32 bytes.now }
        ensures size { IfOk result (λ x. length x.1.now + 4 ≡ length bytes.now) }
    {
        let Some((front, behind)) = bytes.split_first_chunk::<4>() else {
            return Err(Reason::CutShort);
        };
        match self {
            Order::Big => Ok((u32::from_be_bytes(*front), behind)),
            Order::Little => Ok((u32::from_le_bytes(*front), behind)),
        }
    }
}
