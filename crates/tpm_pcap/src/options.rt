//! The options of an interface in a pcapng file (IETF draft-ietf-opsawg-pcapng, "Options").

ghost use Rattle.std.specs.Prelude.{◌≡◌, ◌<◌, length, option_map, IfOk};
ghost use Rattle.tpm_pcap.specs.inner.Numbers.{field_by};
ghost use Rattle.tpm_pcap.specs.Options.{option_in, per_second_in, per_second_of, value_in};

use crate::entry::Reason;
use crate::numbers::Order;
use crate::segment::{behind, front};

/// The code of if_tsresol.
const RESOLUTION: u16 = 9;

/// The code of if_tsoffset.
const OFFSET: u16 = 14;

/// How many units of its times a second has where none is told.
const MICROSECONDS: u64 = 1_000_000;

// The option if_tsresol says how many.
#[tactic(auto, unfolding(crate::specs::Options::per_second_of))]
fn per_second_of(resolution: u8) -> u64
    ensures { result ≡ per_second_of resolution }
{
    match resolution {
        0..20 => 10u64.pow(resolution as u32),
        128..192 => 1 << (resolution - 128),
        _ => 0,
    }
}

// The code of the first option and how many bytes it has, and these and what is behind them.
#[tactic(auto, unfolding(crate::specs::Options::option_in))]
fn option_in(order: Order, options: &[u8]) -> Result<((u16, u16), &[u8]), Reason>
    ensures value { field_by (λ option. option) result ≡ option_in order options.now }
    ensures size { IfOk result (λ x. length x.1.now < length options.now) }
{
    let (code, rest) = order.u16(options)?;
    let (size, value) = order.u16(rest)?;
    Ok(((code, size), value))
}

// The value of the first option with this code, of those before opt_endofopt.
fn value_in(order: Order, options: &[u8], sought: u16) -> Option<&[u8]>
    ensures { option_map (λ v. v.now) result ≡ value_in order sought options.now }
{
    let mut rest = options;
    while let Ok(((code, size), value)) = option_in(order, rest) {
        if code == 0 {
            return None;
        }
        if code == sought {
            return Some(front(value, size as usize));
        }
        rest = behind(value, (size as usize + 3) / 4 * 4);
    }
    None
}

/// How many units of its times a second has, by the options of an interface; 0 where that is not known.
pub(crate) fn per_second_in(order: Order, options: &[u8]) -> u64
    ensures { result ≡ per_second_in order options.now }
{
    if value_in(order, options, OFFSET).is_some() {
        return 0;
    }
    match value_in(order, options, RESOLUTION) {
        Some([resolution, ..]) => per_second_of(*resolution),
        Some([]) => 0,
        None => MICROSECONDS,
    }
}
