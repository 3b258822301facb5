//! What is told in place of a frame, as a line or as an object of JSON.

ghost use Rattle.std.specs.Prelude.{◌≡◌, ◌++◌, ℕ, false, List, IfOk, OnOk, flat_map, string_bytes};
ghost use Rattle.std.specs.Io.KnownBytes.{Appends};
ghost use Rattle.tpm_output.specs.declared.status.Status.TheVariants.{Refused};
ghost use Rattle.tpm_output.specs.Faults.{FailsByMemoryOrWrite};
ghost use Rattle.tpm_show.specs.FrameJson.{object_of};
ghost use Rattle.tpm_show.specs.FrameLines.{in_lines};
ghost use Rattle.tpm_show.specs.inner.Remarks.{remark_told};
ghost use Rattle.tpm_show.specs.Reports.{IsObjectLine, IsReport, fault_at_told, fault_told, link_fault, no_packet};

use crate::lines::Lines;
use crate::object::Object;
use crate::piece::{LINE_END, in_line, says};
use crate::remark::Remark;
use crate::teller::{Teller, tell_pieces};
use std::alloc::{AllocError, Global};
use std::io::Write;
use tpm_output::answer::write;
use tpm_output::fault::ToolFault;
use tpm_output::form::Form;
use tpm_output::status::Status;
use tpm_output::text::Pushed;

#[tactic(auto, unfolding(crate::specs::Reports::link_fault))]
fn link_fault(alloc: Global, number: u32) -> Result<String, AllocError>
    ensures { IfOk result (λ fault. string_bytes fault ≡ link_fault number) }
{
    format!(in alloc; "link type {number} is not known")
}

#[tactic(auto, unfolding(crate::specs::Reports::no_packet))]
fn no_packet(alloc: Global, port: u16) -> Result<String, AllocError>
    ensures { IfOk result (λ fault. string_bytes fault ≡ no_packet port) }
{
    format!(in alloc; "no packet of port {port}")
}

fn tell_fault<T: Teller>(teller: &mut T, fault: &str) -> Pushed
    ensures { OnOk result (T.told teller.new
        ≡ T.told teller.old ++ flat_map T.marks (fault_told fault.now)) }
{
    tell_pieces!(teller; says!(Alone "fault" Word fault), LINE_END)
}

fn tell_fault_at<T: Teller>(teller: &mut T, fault: &str, at: u64) -> Pushed
    ensures { OnOk result (T.told teller.new
        ≡ T.told teller.old ++ flat_map T.marks (fault_at_told fault.now at)) }
{
    tell_pieces!(teller; says!(Alone "fault" Word fault), says!(Under "at" Number at), LINE_END)
}

#[tactic(auto, unfolding(crate::specs::Reports::numbered_told))]
fn tell_remark<T: Teller>(teller: &mut T, remark: Remark) -> Pushed
    ensures { OnOk result
        (T.told teller.new ≡ T.told teller.old ++ flat_map T.marks (remark_told remark)) }
{
    match remark {
        Remark::Fault(number, fault) => tell_pieces!(teller; says!(Alone "number" Number number),
            says!(Behind "fault" Word fault), LINE_END),
        Remark::Stop(number, fault, at) => tell_pieces!(teller;
            says!(Alone "number" Number number), says!(Behind "fault" Word fault),
            says!(Under "at" Number at as u64), LINE_END),
        Remark::Packet(packet, reason) => tell_pieces!(teller; in_line!(Alone Word "packet"),
            says!(Behind "packet" Number packet), in_line!(Alone Word ":"),
            says!(Behind "fault" Word reason), LINE_END),
        Remark::NoCapture => tell_fault_at(teller, "no capture of libpcap", 0),
        Remark::NoPacket(port) => {
            let fault = no_packet(teller.alloc(), port)?;
            tell_fault(teller, fault.as_str())
        }
        Remark::OtherLink(number) => {
            let fault = link_fault(teller.alloc(), number)?;
            tell_fault_at(teller, fault.as_str(), 20)
        }
    }
}

fn push_line(alloc: Global, text: &mut String, remark: Remark) -> Pushed
    ensures { OnOk result (string_bytes text.new
        ≡ string_bytes text.old ++ in_lines false (remark_told remark)) }
{
    let mut lines = Lines::<false>::new(alloc);
    tell_remark(&mut lines, remark)?;
    text.push_str(lines.text.as_str())
}

#[tactic(auto, using(std::proofs::Common::append_assoc), unfolding(crate::specs::FrameJson::object_of))]
fn push_object(alloc: Global, text: &mut String, remark: Remark) -> Pushed
    ensures { OnOk result ((line : List ℕ)
        × IsObjectLine (object_of (remark_told remark)) line
        × (string_bytes text.new ≡ string_bytes text.old ++ line)) }
{
    let mut object = Object::begin(alloc)?;
    tell_remark(&mut object, remark)?;
    object.end_line(text)
}

/// Adds its line, or its object.
pub(crate) fn push_remark(alloc: Global, text: &mut String, form: Form, remark: Remark) -> Pushed
    ensures { OnOk result ((report : List ℕ)
        × IsReport form false (remark_told remark) report
        × (string_bytes text.new ≡ string_bytes text.old ++ report)) }
{
    match form {
        Form::Lines => push_line(alloc, text, remark),
        Form::Json => push_object(alloc, text, remark),
    }
}

/// Prints its line, or its object.
pub(crate) fn print_remark<W: Write>(
    alloc: Global,
    form: Form,
    remark: Remark,
    out: &mut W,
) -> Result<Status, ToolFault>
    ensures ok { IfOk result (λ status. (status ≡ Refused)
        × (text : List ℕ)
        × IsReport form false (remark_told remark) text
        × Appends (W.contents out.old) (W.contents out.new) text) }
    ensures err { FailsByMemoryOrWrite result }
{
    let mut text = String::new(alloc);
    push_remark(alloc, &mut text, form, remark)?;
    write(out, &text)?;
    Ok(Status::Refused)
}
