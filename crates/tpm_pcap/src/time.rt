//! When a packet was captured.

ghost use Rattle.std.specs.Prelude.{◌≡◌, ◌<◌, ◌^◌};
ghost use Rattle.tpm_pcap.specs.Times.{nanoseconds, time_of};

use crate::block::Ticks;

// So many units of a second's as nanoseconds.
fn nanoseconds(per_second: u64, units: u128) -> u128
    requires some { 0 < per_second }
    requires most { units < 2 ^ 97 }
    ensures { result ≡ nanoseconds per_second units }
{
    units * 1_000_000_000 / per_second as u128
}

/// How many nanoseconds after 1970 began, where it is told and a second's units are known.
pub(crate) fn time_of(per_second: u64, ticks: Ticks) -> Option<u128>
    ensures { result ≡ time_of per_second ticks }
{
    if per_second == 0 {
        return None;
    }
    match ticks {
        Ticks::Untold => None,
        Ticks::Seconds(seconds, units) => {
            let units = seconds as u128 * per_second as u128 + units as u128;
            Some(nanoseconds(per_second, units))
        }
        Ticks::Units(upper, lower) => {
            let units = upper as u128 * 4_294_967_296 + lower as u128;
            Some(nanoseconds(per_second, units))
        }
    }
}
