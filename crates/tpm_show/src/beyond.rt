//! What a larger profile would not refuse.

ghost use Rattle.std.specs.Prelude.{◌≡◌};
ghost use Rattle.tpm_pcap.specs.Numbers.{number2, number4};
ghost use Rattle.tpm_show.specs.Beyond.{is_beyond, is_more_banks, is_of_count, is_other_hash};

use crate::capture_lines::Direction;
use tpm_pcap::behind;
use tpm_wire::Refusal;
use tpm_wire::response_code::COMMAND_CODE;

// ---- what is refused

// Whether it is the count of a list of banks.
fn is_of_count(direction: Direction, command: u32, code: u32) -> bool
    ensures { result ≡ is_of_count direction command code }
{
    match direction {
        Direction::Command => {
            (command == 0x182 || command == 0x17e) && code == 0x1d5
                || command == 0x17f && code == 0x2d5
        }
        Direction::Reply => {
            command == 0x13c && code == 0x1d5 || command == 0x17e && code == 0x2d5
        }
    }
}

// ---- what stands there

// Whether it is a hash that is no bank.
fn is_other_hash(bytes: &[u8]) -> bool
    ensures { result ≡ is_other_hash (number2 bytes.now 0) }
{
    matches!(bytes, [0x00, 0x0d | 0x12 | 0x27 | 0x28 | 0x29, ..])
}

// Whether there are more banks than in this profile, and no more than there are hashes.
fn is_more_banks(bytes: &[u8]) -> bool
    ensures { result ≡ is_more_banks (number4 bytes.now 0) }
{
    matches!(bytes, [0, 0, 0, 4..=8, ..])
}

/// Whether the fault in a command of this code, or in the reply to it, is one that a larger profile would not have:
/// another command, a hash of Part 2 (6.3) that is no bank, or a list of more banks.
#[tactic(auto, unfolding(crate::specs::Beyond::is_beyond))]
pub(crate) fn is_beyond(direction: Direction, command: u32, refusal: &Refusal, bytes: &[u8]) -> bool
    ensures { result ≡ is_beyond direction command refusal.now bytes.now }
{
    let rest = behind(bytes, refusal.at as usize);
    refusal.code == COMMAND_CODE && refusal.at == 6
        || refusal.code % 256 == 0xc3 && is_other_hash(rest)
        || is_of_count(direction, command, refusal.code) && is_more_banks(rest)
}
