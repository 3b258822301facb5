//! What the program reads.

ghost use Rattle.std.specs.Prelude.{◌≡◌, ◌<◌, IfOk};
ghost use Rattle.tpm_program.specs.Offered.{Offered, coming_of};

use crate::cause::Cause;
use tpm_wire::Source;

/// What the program reads: the files at its paths, and standard input. Where a source of theirs counts a failure, a
/// read of theirs failed.
pub trait Inputs {
    /// A file that is opened, or standard input.
    type Source: Source + Drop;

    /// What is known of them.
    ghost offers: { Self → Offered };

    /// The file at a path, opened for reading, or why it is not opened.
    fn open(&self, path: &str) -> Result<Self::Source, Cause>
        ensures opened { (offers self.now).opens path.now (coming_of Self.Source.coming result) }
        ensures fresh { IfOk result (λ source. Self.Source.failed source ≡ 0) }
        ensures fails { (source : Self.Source) → 0 < Self.Source.failed source
            → (offers self.now).fails };

    /// Standard input.
    fn standard(&self) -> Self::Source
        ensures stands { (offers self.now).stands (Self.Source.coming result) }
        ensures fresh { Self.Source.failed result ≡ 0 }
        ensures fails { (source : Self.Source) → 0 < Self.Source.failed source
            → (offers self.now).fails };

    /// Whether there is a directory at a path.
    fn is_directory(&self, path: &str) -> bool
        ensures { (offers self.now).is_folder path.now result };
}
