//! Entries one after the other, and counted lists of them: TPML structures (Part 2, 10.9).

ghost use Rattle.std.specs.Prelude.{◌≡◌, ◌==◌, ◌+◌, ◌*◌, ◌≤◌, ◌<◌, ◌^◌, ◌⊎◌, [], ◌∷◌, ◌++◌, length, nat_le, ◌&&◌, IfOk};
ghost use Rattle.std.specs.Prelude.{MatchOption, ◌-◌, min, true, false, All, OnOk};
ghost use Rattle.tpm_wire.specs.ResponseCodes.{rc_size, greatest_number};
ghost use Rattle.tpm_wire.specs.Buffers.{number_in, Takes, TakesAs, TakesNumbered, numbered};
ghost use Rattle.tpm_wire.specs.Spelling.{spelling, joined_all, IsSpelled};
ghost use Rattle.tpm_wire.specs.Structures.{counted};
ghost use Rattle.tpm_wire.specs.Layout.Form.{list};

use crate::cursor::Cursor;
use crate::duplicate::Duplicate;
use crate::refusal::Refusal;
use crate::response_code::SIZE;
use crate::wire::{Room, Wire};
use arrayvec::ArrayVec;
use std::marker::Model;

/// From `LEAST` to `MOST` entries. In a buffer their number lies before them, in 4 bytes.
#[derive(Drop)]
pub struct Counted<T: Wire + Default + Duplicate + Drop, const LEAST: usize, const MOST: usize> {
    entries: ArrayVec<T, MOST>,
}

impl<T: Wire + Default + Duplicate + Drop, const LEAST: usize, const MOST: usize> Model
    for Counted<T, LEAST, MOST> {
    ghost use Rattle.std.specs.Prelude.{◌+◌, ◌*◌, ◌≤◌, ◌<◌, ◌^◌, List, length};
    ghost use Rattle.tpm_wire.specs.Spelling.{joined_all};

    ghost Value = { List T };

    ghost view = { λ c. c.entries.items };

    ghost invariant = { λ c. (LEAST ≤ length c.entries.items)
        × (length c.entries.items ≤ MOST)
        × (length c.entries.items < 2 ^ 32)
        × (2 ^ 63 ≤ MOST * T.most → 4 + length (joined_all T.layout c.entries.items) < 2 ^ 64) };
}

impl<T: Wire + Default + Duplicate + Drop, const LEAST: usize, const MOST: usize> Counted<
    T,
    LEAST,
    MOST,
> {
    /// A copy of these entries, if they are from `LEAST` to `MOST`.
    pub fn new(entries: &[T]) -> Option<Self>
        requires count { MOST ≤ 8 }
        requires short { T.most ≤ 4096 }
        ensures { MatchOption result ((length entries.now < LEAST) ⊎ (MOST < length entries.now))
            (λ c. (c ≡ entries.now)
            × (LEAST ≤ length entries.now)
            × (length entries.now ≤ MOST)) }
    {
        if entries.len() < LEAST || entries.len() > MOST {
            return None;
        }
        Some(Counted {
            entries: duplicates(entries),
        })
    }

    /// Adds an entry at the end, where there is room for it.
    pub fn push(&mut self, entry: T)
        requires room { length self.old < MOST }
        requires count { MOST ≤ 8 }
        requires short { T.most ≤ 4096 }
        ensures { self.new ≡ self.old ++ entry ∷ [] }
    {
        self.entries.push(entry);
    }

    /// Whether there is no room for another entry.
    pub fn is_full(&self) -> bool
        ensures value { result ≡ (length self.now == MOST) }
        ensures fits { length self.now ≤ MOST }
    {
        self.entries.is_full()
    }

    /// The entries.
    pub fn as_slice(&self) -> &[T]
        ensures value { result.now ≡ self.now }
        ensures least { LEAST ≤ length result.now }
        ensures most { length result.now ≤ MOST }
    {
        self.entries.as_slice()
    }
}

impl<T: Wire + Default + Duplicate + Drop, const MOST: usize> Counted<T, 0, MOST> {
    /// Removes the entries.
    pub fn clear(&mut self)
        ensures { self.new ≡ [] }
    {
        self.entries.clear();
    }
}

/// No entries.
impl<T: Wire + Default + Duplicate + Drop, const MOST: usize> Default for Counted<T, 0, MOST> {
    fn default() -> Self
        ensures { result ≡ [] }
    {
        Counted {
            entries: ArrayVec::new(),
        }
    }
}

/// The number of entries, else SIZE.
fn take_count(cursor: &mut Cursor<'_>, least: usize, most: usize) -> Result<u32, Refusal>
    ensures reads { Takes (number_in 4 (λ n. nat_le least n && nat_le n most) rc_size)
        cursor.old cursor.new result }
    ensures spelled { IfOk result
        (λ n. cursor.old.here.rest
        ≡ spelling (number_in 4 (λ n. nat_le least n && nat_le n most) rc_size) n
        ++ cursor.new.here.rest) }
    ensures bounds { IfOk result (λ n. (least ≤ n) × (n ≤ most) × (n < 2 ^ 32)) }
    ensures short { length cursor.old.here.rest < 2 ^ 32 }
{
    let refusal = cursor.refusal(SIZE);
    let count = u32::take(cursor)?;
    if (count as usize) < least || count as usize > most {
        return Err(refusal);
    }
    Ok(count)
}

/// The number of the entries, from `LEAST` to `MOST`, else SIZE; the entries.
#[tactic(auto, unfolding(crate::specs::Structures::counted))]
impl<T: Wire + Default + Duplicate + Drop, const LEAST: usize, const MOST: usize> Wire
    for Counted<T, LEAST, MOST> {
    ghost layout = { counted LEAST MOST T.layout };

    ghost most = { 4 + MOST * T.most };

    fn has_spelling(&self) {
        known_list(self.entries.as_slice());
    }

    fn len(&self) -> usize {
        4 + capped_len(self.entries.as_slice())
    }

    #[inline(never)]
    fn put<R: Room>(&self, out: &mut R) {
        (self.entries.len() as u32).put(out);
        put_list(self.entries.as_slice(), out);
    }

    fn take(cursor: &mut Cursor<'_>) -> Result<Self, Refusal> {
        let count = take_count(cursor, LEAST, MOST)? as usize;
        let mut entries = ArrayVec::new();
        read_list(cursor, count, &mut entries)?;
        Ok(Counted { entries })
    }

    // What may have no entries is read where it stays.
    fn read(&mut self, cursor: &mut Cursor<'_>) -> Result<(), Refusal>
    where
        Self: Drop,
    {
        if LEAST > 0 {
            *self = Self::take(cursor)?;
            return Ok(());
        }
        let count = take_count(cursor, LEAST, MOST)? as usize;
        match read_list(cursor, count, &mut self.entries) {
            Ok(()) => Ok(()),
            Err(refusal) => {
                self.entries.clear();
                Err(refusal)
            }
        }
    }
}

/// The same entries again.
fn duplicates<T: Default + Duplicate + Drop, const N: usize>(entries: &[T]) -> ArrayVec<T, N>
    requires { length entries.now ≤ N }
    ensures { result.items ≡ entries.now }
{
    let mut found = ArrayVec::new();
    for entry in entries {
        found.push(entry.duplicate());
    }
    found
}

/// Reads so many entries in the place of those that were there, or answers the first fault in one of them. Which
/// entries are there after a fault is not said.
pub fn read_list<T: Wire + Default + Drop, const N: usize>(
    cursor: &mut Cursor<'_>,
    count: usize,
    entries: &mut ArrayVec<T, N>,
) -> Result<(), Refusal>
    requires { count ≤ N }
    ensures reads { TakesAs (λ _. entries.new.items) (list count false (λ _. T.layout))
        cursor.old cursor.new result }
    ensures spelled { OnOk result
        (cursor.old.here.rest ≡ joined_all T.layout entries.new.items ++ cursor.new.here.rest) }
    ensures count { OnOk result (length entries.new.items ≡ count) }
{
    entries.clear();
    for _ in 0..count {
        let last = entries.len();
        entries.push(T::default());
        entries.as_mut_slice()[last].read(cursor)?;
    }
    Ok(())
}

/// Reads entries to the end of the area, but at most so many, or answers the first fault in one of them. To the codes
/// of entry `i`, from 0, it adds `first + 0x100 * i`.
pub fn take_rest<T: Wire + Default + Drop, const N: usize>(
    cursor: &mut Cursor<'_>,
    most: usize,
    first: u32,
) -> Result<ArrayVec<T, N>, Refusal>
    requires room { most ≤ N }
    requires numbers { first + 0x100 * most ≤ greatest_number }
    ensures reads { TakesNumbered (λ v. v.items)
        (list most true (λ before. numbered (first + 0x100 * length before) T.layout))
        cursor.old cursor.new result }
    ensures spelled { IfOk result
        (λ v. cursor.old.here.rest ≡ joined_all T.layout v.items ++ cursor.new.here.rest) }
    ensures few { IfOk result (λ v. length v.items ≤ most) }
{
    let mut entries = ArrayVec::new();
    read_rest(cursor, most, first, &mut entries)?;
    Ok(entries)
}

/// As `take_rest`, in the place of the entries that were there. Which entries are there after a fault is not said.
pub fn read_rest<T: Wire + Default + Drop, const N: usize>(
    cursor: &mut Cursor<'_>,
    most: usize,
    first: u32,
    entries: &mut ArrayVec<T, N>,
) -> Result<(), Refusal>
    requires room { most ≤ N }
    requires numbers { first + 0x100 * most ≤ greatest_number }
    ensures reads { TakesNumbered (λ _. entries.new.items)
        (list most true (λ before. numbered (first + 0x100 * length before) T.layout))
        cursor.old cursor.new result }
    ensures spelled { OnOk result
        (cursor.old.here.rest ≡ joined_all T.layout entries.new.items ++ cursor.new.here.rest) }
    ensures few { OnOk result (length entries.new.items ≤ most) }
{
    entries.clear();
    while cursor.left() > 0 && entries.len() < most {
        let last = entries.len();
        cursor.number(first + 0x100 * last as u32);
        entries.push(T::default());
        entries.as_mut_slice()[last].read(cursor)?;
    }
    Ok(())
}

/// Each of the entries has a spelling.
pub fn known_list<T: Wire>(entries: &[T])
    ensures { All (IsSpelled T.layout) entries.now }
{
    for entry in entries {
        entry.has_spelling();
    }
}

/// Adds the entries' spellings at the end.
pub fn put_list<T: Wire, R: Room>(entries: &[T], out: &mut R)
    requires { length (R.written out.old) + length (joined_all T.layout entries.now) ≤ R.size }
    ensures { R.written out.new ≡ R.written out.old ++ joined_all T.layout entries.now }
{
    for entry in entries {
        entry.put(out);
    }
}

/// How many bytes the entries take, of which there are at most eight.
pub fn list_len<T: Wire>(entries: &[T]) -> usize
    requires count { length entries.now ≤ 8 }
    requires short { T.most ≤ 4096 }
    ensures value { result ≡ length (joined_all T.layout entries.now) }
    ensures fits { result ≤ length entries.now * T.most }
{
    capped_len(entries)
}

/// How many bytes the entries take, up to the greatest number.
pub(crate) fn capped_len<T: Wire>(entries: &[T]) -> usize
    ensures value { result ≡ min (length (joined_all T.layout entries.now)) (2 ^ 64 - 1) }
    ensures fits { result ≤ length entries.now * T.most }
{
    let mut sum: usize = 0;
    for entry in entries {
        sum = sum.saturating_add(entry.len());
    }
    sum
}
