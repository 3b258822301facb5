//! What takes that which is told of a frame, a piece at a time.

ghost use Rattle.std.specs.Prelude.{◌≡◌, ◌++◌, List, OnOk, flat_map, map, option_map};
ghost use Rattle.tpm_show.specs.Pieces.{Piece, asked_told, word_told};
ghost use Rattle.tpm_show.specs.inner.Pieces.{as_piece};

use crate::piece::{How, Piece as PieceInCode, Value, in_line};
use std::alloc::Global;
use tpm_output::text::Pushed;

/// Takes what is told of a frame, and makes lines of it, or an object of JSON.
pub(crate) trait Teller {
    /// A byte of a line, or a token of an object.
    ghost Mark: { Type 0 };

    /// What has been told.
    ghost told: { Self → List Mark };

    /// How a piece is told.
    ghost marks: { Piece → List Mark };

    /// Where texts are made that are told.
    fn alloc(&self) -> Global;

    /// Takes a piece.
    fn tell(&mut self, piece: &PieceInCode<'_>) -> Pushed
        ensures { OnOk result (told self.new ≡ told self.old ++ marks (as_piece piece.now)) };
}

/// Tells pieces one after the other.
#[tactic(auto, using(crate::proofs::Pieces::pieces))]
pub(crate) fn tell_all<T: Teller>(teller: &mut T, pieces: &[PieceInCode<'_>]) -> Pushed
    ensures { OnOk result (T.told teller.new
        ≡ T.told teller.old ++ flat_map T.marks (map as_piece pieces.now)) }
{
    for piece in pieces {
        teller.tell(piece)?;
    }
    Ok(())
}

/// Tells a text under a name, where there is one.
#[tactic(auto, using(crate::proofs::Pieces::pieces))]
pub(crate) fn tell_word<T: Teller>(
    teller: &mut T,
    how: How,
    name: &str,
    word: Option<&str>,
) -> Pushed
    ensures { OnOk result (T.told teller.new ≡ T.told teller.old ++ flat_map T.marks
        (word_told how name.now (option_map (λ w. w.now) word.entry))) }
{
    match word {
        Some(word) => teller.tell(&PieceInCode::Says(how, Some(name), Value::Word(word))),
        None => Ok(()),
    }
}

/// Tells a text in a line alone, where there is one and names are asked for.
#[tactic(auto, using(crate::proofs::Pieces::pieces))]
pub(crate) fn tell_asked<T: Teller>(teller: &mut T, word: Option<&str>) -> Pushed
    ensures { OnOk result (T.told teller.new ≡ T.told teller.old ++ flat_map T.marks
        (asked_told (option_map (λ w. w.now) word.entry))) }
{
    match word {
        Some(word) => teller.tell(&in_line!(Asked Word word)),
        None => Ok(()),
    }
}

/// Tells pieces one behind the other, as `tell_pieces!(teller; says!(Alone "fault" Word fault), LINE_END)`.
macro_rules! tell_pieces {
    ($teller:expr; $($piece:expr),*) => {
        $crate::teller::tell_all($teller, &[$($piece),*])
    };
}

pub(crate) use tell_pieces;
