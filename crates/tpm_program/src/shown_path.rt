//! Paths as they are printed.

use std::fmt::{self, Display, Formatter, Write};

/// A character of a path as it is printed.
#[derive(Clone, Copy)]
struct ShownCharacter {
    character: char,
}

impl Display for ShownCharacter {
    ghost use Rattle.std.specs.Prelude.{Some};
    ghost use Rattle.tpm_program.specs.FaultText.{shown_character};

    ghost output = { λ shown. Some (shown_character shown.character) };

    #[tactic(auto, unfolding(crate::specs::FaultText::shown_character))]
    fn fmt<W: Write>(&self, f: &mut Formatter<W>) -> Result<(), fmt::Error> {
        if !self.character.is_control() {
            return f.write_char(self.character);
        }
        let number = self.character as u32;
        write!(f, "\\u{{{number:x}}}")
    }
}

/// A path as it is printed: a control character, which a terminal would obey, is told by its number in hexadecimal.
#[derive(Clone, Copy)]
pub(crate) struct ShownPath<'a> {
    pub(crate) path: &'a str,
}

impl Display for ShownPath<'_> {
    ghost use Rattle.std.specs.Prelude.{Some};
    ghost use Rattle.tpm_program.specs.FaultText.{shown_path};

    ghost output = { λ shown. Some (shown_path shown.path.now) };

    #[tactic(auto, unfolding(crate::specs::FaultText::shown_path))]
    fn fmt<W: Write>(&self, f: &mut Formatter<W>) -> Result<(), fmt::Error> {
        for character in self.path.chars() {
            let shown = ShownCharacter { character };
            write!(f, "{shown}")?;
        }
        Ok(())
    }
}
