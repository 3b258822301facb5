//! Registers in the subcommand `check`.

ghost use Rattle.std.specs.Prelude.{◌≡◌, ◌<◌, ◌∷◌, [], None, OnOk, flat_map};
ghost use Rattle.tpm_types.specs.Alg.{alg_name};
ghost use Rattle.tpm_pcr.specs.Registers.{value_in};
ghost use Rattle.tpm_output.specs.Marks.{Bytes, Number, Says};
ghost use Rattle.tpm_output.specs.Telling.{first_told, list, told};
ghost use Rattle.tpm_check.specs.CheckJson.{marks_of_bank, marks_of_register, marks_of_registers};

use tpm_output::form::Form;
use tpm_output::mark::{Mark, Shape, Value};
use tpm_output::tell::Tell;
use tpm_output::teller::{Teller, Told, closes, opens, tell_all};
use tpm_pcr::Registers;
use tpm_types::{Alg, REGISTERS, register};

/// The registers of banks, which a log gave.
#[derive(Clone, Copy)]
pub(crate) struct ToldRegisters<'a> {
    pub(crate) found: &'a Registers,
    pub(crate) banks: &'a [Alg],
    /// Whether each is a line, or the values of a bank are a list.
    pub(crate) form: Form,
}

fn tell_line<T: Teller>(out: &mut T, bank: Alg, number: u32, value: &[u8]) -> Told
    ensures { OnOk result (T.state out.new ≡ told T.tells (T.state out.old)
        (list (alg_name bank) (Says None (Number number) ∷ Says None (Bytes value.now) ∷ []))) }
{
    tell_all(
        out,
        &[
            Mark::Opens(Some(bank.name()), Shape::List),
            Mark::Says(None, Value::Number(u64::from(number))),
            Mark::Says(None, Value::Bytes(value)),
            Mark::Closes(Shape::List),
        ],
    )
}

fn tell_register<T: Teller>(
    out: &mut T,
    registers: &ToldRegisters<'_>,
    bank: Alg,
    number: u32,
) -> Told
    requires { number < 24 }
    ensures { OnOk result (T.state out.new ≡ told T.tells (T.state out.old)
        (marks_of_register registers.now.form (value_in registers.now.found.now.banks) bank number)) }
{
    let value = registers.found.read(bank, register(number));
    match registers.form {
        Form::Lines => tell_line(out, bank, number, value.as_slice()),
        Form::Json => out.tell(&Mark::Says(None, Value::Bytes(value.as_slice()))),
    }
}

#[tactic(auto, using(tpm_output::proofs::Telling::told_more))]
fn tell_each<T: Teller>(out: &mut T, registers: &ToldRegisters<'_>, bank: Alg) -> Told
    ensures { OnOk result (T.state out.new ≡ told T.tells (T.state out.old)
        (first_told (marks_of_register registers.now.form (value_in registers.now.found.now.banks)
        bank) 24)) }
{
    for number in 0..REGISTERS {
        tell_register(out, registers, bank, number)?;
    }
    Ok(())
}

#[tactic(auto, using(tpm_output::proofs::Telling::told_both), unfolding(crate::specs::CheckJson::marks_of_bank))]
fn tell_bank<T: Teller>(out: &mut T, registers: &ToldRegisters<'_>, bank: Alg) -> Told
    ensures { OnOk result (T.state out.new ≡ told T.tells (T.state out.old)
        (marks_of_bank registers.now.form (value_in registers.now.found.now.banks) bank)) }
{
    opens(out, bank.name(), Shape::Words)?;
    tell_each(out, registers, bank)?;
    closes(out, Shape::Words)
}

#[tactic(auto, using(tpm_output::proofs::Telling::told_both))]
fn tell_banks<T: Teller>(out: &mut T, registers: &ToldRegisters<'_>, banks: &[Alg]) -> Told
    ensures { OnOk result (T.state out.new ≡ told T.tells (T.state out.old)
        (flat_map (marks_of_bank registers.now.form (value_in registers.now.found.now.banks))
        banks.now)) }
{
    for bank in banks {
        tell_bank(out, registers, *bank)?;
    }
    Ok(())
}

impl<'a> Tell for ToldRegisters<'a> {
    ghost marks = { λ r. marks_of_registers r.form (value_in r.found.now.banks) r.banks.now };

    #[tactic(auto, using(tpm_output::proofs::Telling::told_both), unfolding(crate::specs::CheckJson::marks_of_registers))]
    fn tell<T: Teller>(&self, out: &mut T) -> Told {
        opens(out, "registers", Shape::Object)?;
        tell_banks(out, self, self.banks)?;
        closes(out, Shape::Object)
    }
}
