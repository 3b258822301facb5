//! A record of a log and a device path as JSON (RFC 8259), as `events --json` has them.

ghost use Rattle.std.specs.Prelude.{false};
ghost use Rattle.tpm_log.specs.Steps.{step};
ghost use Rattle.tpm_output.specs.Json.{json_from};
ghost use Rattle.tpm_event_marks.specs.PathMarks.{marks_of_path_text};
ghost use Rattle.tpm_c.specs.EventJson.{IsJsonIn, IsObjectTold};

use tpm_event_marks::PathText;
use tpm_log::{LogPlace, event_at};
use tpm_output::lent::json_in;
use tpm_output::tell::Tell;
use tpm_record_marks::Record;

// Tells a thing at the beginning of `out`, and says how many bytes that has; or 0 where there is less room.
fn put_json<X: Tell>(out: &mut [u8], thing: &X) -> usize
    ensures { IsJsonIn (json_from false (X.marks thing.now))
        (record { answer = result; old = out.old; new = out.new }) }
{
    match json_in(out, thing) {
        Some(count) => count,
        None => 0,
    }
}

/// Writes the object that `events --json` prints of the record at a place of a log, with this number among the records,
/// to the beginning of `out`, and says how many bytes it has. It answers 0 where there is less room, which is then left
/// open, and where no record is at the place: nothing is written then.
#[unsafe(no_mangle)]
pub extern "C" fn tpm_log_event_json(log: &[u8], at: u32, number: usize, out: &mut [u8]) -> usize
    ensures { IsObjectTold (step log.now at false) number
        (record { answer = result; old = out.old; new = out.new }) }
{
    match event_at(log, LogPlace { at, late: false }) {
        Ok(Some(found)) => {
            let object = Record {
                number,
                at: found.at as usize,
                event: &found.event,
                quoted: None,
            };
            put_json(out, &object)
        }
        Ok(None) | Err(_) => 0,
    }
}

/// Writes the text of the device path that these bytes are, up to its first fault, to the beginning of `out`, as a
/// string with its quotation marks, and says how many bytes it has. It answers 0 where there is less room, which is
/// then left open.
#[unsafe(no_mangle)]
pub extern "C" fn tpm_log_path_json(bytes: &[u8], out: &mut [u8]) -> usize
    ensures { IsJsonIn (json_from false (marks_of_path_text bytes.now))
        (record { answer = result; old = out.old; new = out.new }) }
{
    put_json(out, &PathText(bytes))
}
