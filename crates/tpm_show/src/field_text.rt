//! What is told of a field of a buffer.

ghost use Rattle.std.specs.Prelude.{◌≡◌, ◌++◌, OnOk, codes, flat_map};
ghost use Rattle.tpm_show.specs.FieldNames.{value_name};
ghost use Rattle.tpm_show.specs.FieldText.{field_begins, number_told, structure_begins, structure_ends, value_told};
ghost use Rattle.tpm_show.specs.Pieces.{word_told};
ghost use Rattle.tpm_show.specs.inner.Pieces.{field_as};
ghost use Rattle.tpm_show.specs.declared.piece.How.TheVariants.{Behind};

use crate::field::Field;
use crate::field_names::{ValueName, value_name};
use crate::piece::{FIELDS, LINE_END, Piece, Shape, in_line, says};
use crate::teller::{Teller, tell_all, tell_pieces};
use tpm_output::text::Pushed;

fn tell_value_name<T: Teller>(teller: &mut T, kind: &str, bytes: &[u8]) -> Pushed
    ensures { OnOk result (T.told teller.new ≡ T.told teller.old
        ++ flat_map T.marks (word_told Behind (codes "value_name") (value_name kind.now bytes.now))) }
{
    let Some(ValueName { front, name }) = value_name(kind, bytes) else {
        return Ok(());
    };
    let name = format!(in teller.alloc(); "{front}{name}")?;
    teller.tell(&says!(Behind "value_name" Word name.as_str()))
}

fn begin_field<T: Teller>(teller: &mut T, field: &Field, bytes: &[u8]) -> Pushed
    ensures { OnOk result (T.told teller.new ≡ T.told teller.old
        ++ flat_map T.marks (field_begins field.now.0.now (field_as field.now) bytes.now)) }
{
    let Field(indent, name, kind) = *field;
    tell_pieces!(teller; Piece::Opens(None, Shape::Object), in_line!(Alone Word indent),
        says!(Alone "name" Word name), says!(Behind "type" Word kind),
        says!(Behind "value" Bytes bytes))?;
    tell_value_name(teller, kind, bytes)?;
    teller.tell(&LINE_END)
}

/// Tells a field of these bytes, of which no parts are told.
#[tactic(auto, using(crate::proofs::Pieces::pieces), unfolding(crate::specs::FieldText::value_told))]
pub(crate) fn tell_value<T: Teller>(teller: &mut T, field: &Field, bytes: &[u8]) -> Pushed
    ensures { OnOk result (T.told teller.new ≡ T.told teller.old
        ++ flat_map T.marks (value_told field.now.0.now (field_as field.now) bytes.now)) }
{
    begin_field(teller, field, bytes)?;
    teller.tell(&Piece::Closes(Shape::Object))
}

/// Tells a field of these bytes, of which the parts follow.
#[tactic(auto, using(crate::proofs::Pieces::pieces), unfolding(crate::specs::FieldText::structure_begins))]
pub(crate) fn begin_structure<T: Teller>(teller: &mut T, field: &Field, bytes: &[u8]) -> Pushed
    ensures { OnOk result (T.told teller.new ≡ T.told teller.old
        ++ flat_map T.marks (structure_begins field.now.0.now (field_as field.now) bytes.now)) }
{
    begin_field(teller, field, bytes)?;
    teller.tell(&FIELDS)
}

static STRUCTURE_ENDS: [Piece<'static>; 2] = [
    Piece::Closes(Shape::List),
    Piece::Closes(Shape::Object),
];

/// Tells that no more parts of it follow.
#[tactic(auto, unfolding(crate::specs::FieldText::structure_ends))]
pub(crate) fn end_structure<T: Teller>(teller: &mut T) -> Pushed
    ensures { OnOk result
        (T.told teller.new ≡ T.told teller.old ++ flat_map T.marks structure_ends) }
{
    tell_all(teller, &STRUCTURE_ENDS)
}

/// Tells a number by its name, so far in.
#[tactic(auto, unfolding(crate::specs::FieldText::number_told))]
pub(crate) fn tell_number<'a, T: Teller>(
    teller: &mut T,
    indent: &'a str,
    name: &'a str,
    n: u32,
) -> Pushed
    ensures { OnOk result (T.told teller.new ≡ T.told teller.old
        ++ flat_map T.marks (number_told indent.now name.now n)) }
{
    tell_pieces!(teller; Piece::Opens(None, Shape::Object), in_line!(Alone Word indent),
        says!(Alone "name" Word name), says!(Behind "number" Number u64::from(n)), LINE_END,
        Piece::Closes(Shape::Object))
}
