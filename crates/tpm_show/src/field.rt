//! A field of a buffer by its name and its type, and its parts.

ghost use Rattle.std.specs.Prelude.{◌≡◌, ◌++◌, ◌≤◌, List, OnOk, flat_map};
ghost use Rattle.tpm_wire.specs.Spelling.{spelling};
ghost use Rattle.tpm_show.specs.FieldText.{structure_told, value_told};
ghost use Rattle.tpm_show.specs.Pieces.{Piece};
ghost use Rattle.tpm_show.specs.inner.Pieces.{field_as};

use crate::field_text::{begin_structure, end_structure, tell_value};
use crate::teller::Teller;
use arrayvec::ArrayVec;
use tpm_output::text::Pushed;
use tpm_wire::Wire;

// More bytes than any field has but an event.
const FIELD_BYTES: usize = 512;

/// A value of which the parts are told under it.
pub(crate) trait HasParts: Wire {
    /// What is told of them.
    ghost told_parts: { Self → List Piece };

    /// Tells them.
    fn tell_parts<T: Teller>(&self, teller: &mut T) -> Pushed
        ensures { OnOk result (T.told teller.new
            ≡ T.told teller.old ++ flat_map T.marks (told_parts self.now)) };
}

/// A field: how far in its line stands, its name and its type.
#[derive(Clone, Copy)]
pub(crate) struct Field(
    pub(crate) &'static str,
    pub(crate) &'static str,
    pub(crate) &'static str,
);

fn spelled<T: Wire>(value: &T) -> ArrayVec<u8, FIELD_BYTES>
    requires { T.most ≤ 512 }
    ensures { result.items ≡ spelling T.layout value.now }
{
    prove!(value.len() <= FIELD_BYTES);
    let mut bytes = ArrayVec::new();
    value.put(&mut bytes);
    bytes
}

impl Field {
    /// Tells it of this value.
    pub(crate) fn tell<T: Teller, V: Wire>(&self, teller: &mut T, value: &V) -> Pushed
        requires { V.most ≤ 512 }
        ensures { OnOk result (T.told teller.new ≡ T.told teller.old ++ flat_map T.marks
            (value_told self.now.0.now (field_as self.now) (spelling V.layout value.now))) }
    {
        tell_value(teller, self, spelled(value).as_slice())
    }

    /// Tells it of this value, with its parts.
    pub(crate) fn tell_structure<T: Teller, V: HasParts>(&self, teller: &mut T, value: &V) -> Pushed
        requires { V.most ≤ 512 }
        ensures { OnOk result (T.told teller.new ≡ T.told teller.old
            ++ flat_map T.marks (structure_told self.now.0.now (field_as self.now)
            (spelling V.layout value.now) (V.told_parts value.now))) }
    {
        begin_structure(teller, self, spelled(value).as_slice())?;
        value.tell_parts(teller)?;
        end_structure(teller)
    }
}
