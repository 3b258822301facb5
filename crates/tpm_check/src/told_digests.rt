//! Digests that were told.

ghost use Rattle.std.specs.Prelude.{◌≡◌, ◌||◌, [], ℕ, List, IfOk, OnOk, not};
ghost use Rattle.std.specs.List.{list_any};
ghost use Rattle.std.specs.Str.{bytes_eq};

use std::alloc::{AllocError, Global};
use std::collections::BTreeSet;
use std::marker::Model;

/// Digests that were told, among which one is found in few steps.
#[derive(Drop)]
pub(crate) struct ToldDigests<'a> {
    digests: BTreeSet<&'a [u8]>,
}

impl<'a> Model for ToldDigests<'a> {
    ghost use Rattle.std.specs.Prelude.{List, ℕ, map};

    ghost Value = { List (List ℕ) };

    ghost view = { λ t. map (λ d. d.now) t.digests.keys };
}

impl<'a> ToldDigests<'a> {
    /// None.
    pub(crate) fn new(alloc: Global) -> Self
        ensures { result ≡ [] }
    {
        ToldDigests {
            digests: BTreeSet::new(alloc),
        }
    }

    /// Adds one, and answers whether it wasn't there.
    pub(crate) fn add(&mut self, digest: &'a [u8]) -> Result<bool, AllocError>
        ensures new { IfOk result (λ new. new ≡ not (list_any (bytes_eq digest.now) self.old)) }
        ensures all { OnOk result ((other : List ℕ) → list_any (bytes_eq other) self.new
            ≡ (bytes_eq other digest.now || list_any (bytes_eq other) self.old)) }
    {
        let new = self.digests.insert(digest)?;
        Ok(new)
    }
}
