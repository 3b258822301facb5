//! Platform configuration registers, PCR (Part 1, "Platform Configuration Registers (PCR)"). Their banks are one array,
//! which is written in place.

ghost use Rattle.std.specs.Prelude.{◌≡◌, ◌+◌, ◌*◌, ◌≤◌, ◌<◌, map, List, [], ◌∷◌, ◌++◌, length, Ok, OnOk, OnErr};
ghost use Rattle.tpm_types.specs.Limits.{banks, digest_bytes};
ghost use Rattle.tpm_types.specs.Tpms.{is_selected as selected};
ghost use Rattle.tpm_types.specs.declared.handle_sets.PcrOrNull.TheVariants.{Pcr};
ghost use Rattle.tpm_hmac.specs.Hashes.{digest as digest_of};
ghost use Rattle.tpm_pcr.specs.Registers.Change.{Restart, StartAt, Reset, Extend};
ghost use Rattle.tpm_pcr.specs.Registers.{Change, event_digests as event_digests_of, selected_by};
ghost use Rattle.tpm_pcr.specs.Registers.{select_of, selections_read, values_read, composite as composite_of};
ghost use Rattle.tpm_pcr.specs.Registers.{registers_after, value_in, start_value};
ghost use Rattle.tpm_pcr.specs.Answers.{check_extend, check_reset, locality_number, event_answer};
ghost use Rattle.tpm_pcr.specs.Banks.{registers, value_at, offset_of};
ghost use Rattle.tpm_pcr.specs.inner.Banks.{all_bytes, with_value, with_values, filled_but_last, Holds, changed};
ghost use Rattle.tpm_pcr.specs.inner.Select.{registers_of, chosen, bits_of, first_of};
ghost use Rattle.tpm_types.specs.declared.alg.Alg.{Alg};
ghost use Rattle.tpm_types.specs.Alg.{digest_len};

use arrayvec::ArrayVec;
use std::marker::Model;
use tpm_hmac::hash;
use tpm_types::{
    Alg, BANKS, DIGEST_BYTES, Digest, DigestValues, Digests, HashedDigest, PcrIndex, REGISTERS,
    Selection, Selections,
};
use tpm_wire::response_code::LOCALITY;

// How many registers are selected at most.
const MOST_SELECTED: usize = BANKS * REGISTERS as usize;

// How many bytes the registers of all banks have.
const BANKS_BYTES: usize = 2400;

/// The locality that a platform's start came from.
#[derive(Clone, Copy, Debug, PartialEq, Eq)]
pub enum Locality {
    Zero,
    Three,
    Four,
}

impl Locality {
    /// Its number.
    pub fn number(self) -> u8
        ensures { result ≡ locality_number self }
    {
        match self {
            Locality::Zero => 0,
            Locality::Three => 3,
            Locality::Four => 4,
        }
    }
}

/// The registers of each bank, and the update counter.
#[derive(Drop)]
pub struct Registers {
    bytes: [u8; BANKS_BYTES],
    updates: u32,
}

impl Model for Registers {
    ghost use Rattle.tpm_pcr.specs.Registers as model;
    ghost use Rattle.tpm_pcr.specs.Registers.{banks_of};
    ghost use Rattle.tpm_pcr.specs.Banks.{value_at};

    ghost Value = { model.Registers };

    ghost view = { λ r. record {
      banks = banks_of (value_at r.bytes);
      update_counter = r.updates;
    } };
}

fn is_selected(selection: &Selection, register: u32) -> bool
    requires { register < registers }
    ensures { result ≡ selected selection.now.select register }
{
    match PcrIndex::from_number(register) {
        Some(register) => selection.is_selected(register),
        None => false,
    }
}

// The value of a register in a bank, as a digest.
fn digest(bytes: &[u8], alg: Alg, register: u32) -> Digest
    requires bytes { length bytes.now ≡ all_bytes }
    requires register { register < registers }
    ensures { result ≡ value_at bytes.now alg register }
{
    Digest::of(value(bytes, alg, register))
}

// Reads the registers of this byte of a selection as long as there is room for their values, and answers the
// byte with the bits of those that were read.
fn read_byte(bytes: &[u8], selection: &Selection, byte: u32, values: &mut Digests) -> u8
    requires bytes { length bytes.now ≡ all_bytes }
    requires byte { byte < 3 }
    ensures bits { result
        ≡ bits_of (chosen (length values.old) selection.now.select (registers_of byte)) }
    ensures values { values.new
        ≡ values.old
        ++ map (value_at bytes.now selection.now.hash)
        (chosen (length values.old) selection.now.select (registers_of byte)) }
{
    if selection.select[byte as usize] == 0 {
        return 0;
    }
    let mut bits = 0;
    for bit in 0..8 {
        let register = 8 * byte + bit;
        if !values.is_full() && is_selected(selection, register) {
            values.push(digest(bytes, selection.hash, register));
            bits |= 1 << bit;
        }
    }
    bits
}

// Reads the registers of a selection as long as there is room for their values, and answers the selection of
// those that were read.
fn read_selected(bytes: &[u8], selection: &Selection, values: &mut Digests) -> Selection
    requires { length bytes.now ≡ all_bytes }
    ensures selection { result
        ≡ record {
          hash = selection.now.hash;
          select = select_of (first_of (length values.old) selection.now);
        } }
    ensures values { values.new
        ≡ values.old
        ++ map (value_at bytes.now selection.now.hash)
        (first_of (length values.old) selection.now) }
{
    let first = read_byte(bytes, selection, 0, values);
    let second = read_byte(bytes, selection, 1, values);
    let third = read_byte(bytes, selection, 2, values);
    Selection {
        hash: selection.hash,
        select: [first, second, third],
    }
}

// No values yet. It is out of line, where they are made in their place; in line they are made elsewhere and copied.
#[inline(never)]
fn no_parts<'a>() -> ArrayVec<&'a [u8], MOST_SELECTED>
    ensures { result.items ≡ [] }
{
    ArrayVec::new()
}

// Appends the values of the selected registers, rising.
fn lend_selected<'a>(
    bytes: &'a [u8],
    selection: &Selection,
    parts: &mut ArrayVec<&'a [u8], MOST_SELECTED>,
)
    requires bytes { length bytes.now ≡ all_bytes }
    requires room { length parts.old.items + registers ≤ banks * registers }
    ensures parts { map (λ p. p.now) parts.new.items
        ≡ map (λ p. p.now) parts.old.items
        ++ map (value_at bytes.now selection.now.hash) (selected_by selection.now) }
    ensures count { length parts.new.items ≤ length parts.old.items + registers }
{
    for register in 0..REGISTERS {
        if is_selected(selection, register) {
            parts.push(value(bytes, selection.hash, register));
        }
    }
}

// The digest of an event in a bank.
fn event_digest(alg: Alg, event: &[u8]) -> HashedDigest
    ensures { result ≡ (alg, digest_of alg event.now) }
{
    match HashedDigest::new(alg, hash(alg, &[event]).as_slice()) {
        Some(digest) => digest,
        None => unreachable!(),
    }
}

/// The digests of an event, one for each bank: SHA-1 first, then by rising number (Part 3, 22.3).
pub fn event_digests(event: &[u8]) -> DigestValues
    ensures { result ≡ event_digests_of event.now }
{
    let mut digests = DigestValues::default();
    for alg in Alg::ALL {
        digests.push(event_digest(alg, event));
    }
    digests
}

impl Registers {
    /// Registers that have just been started: zeros, and bytes 0xFF in 17 to 22, with an update counter of 0.
    pub fn new() -> Self
        ensures new { result ≡ registers_after [] }
        ensures restarted { (cs : List Change) → result ≡ registers_after (Restart ∷ cs) }
    {
        let mut registers = Registers {
            bytes: [0; BANKS_BYTES],
            updates: 0,
        };
        registers.restart();
        registers
    }

    /// Makes them registers that have just been started, as `new` does, where they are.
    pub fn restart(&mut self)
        ensures new { self.new ≡ registers_after [] }
        ensures restarted { (cs : List Change) → self.new ≡ registers_after (Restart ∷ cs) }
    {
        start(&mut self.bytes);
        self.updates = 0;
    }

    /// Makes register 0 begin with the locality of a platform's start: zeros in each bank, and the locality's
    /// number as the last byte. No command does so: it is for logs, which say where their platform was started
    /// (PC Client Platform Firmware Profile, "Startup Locality Event"). The update counter stays.
    pub fn start_at(&mut self, locality: Locality)
        ensures { (cs : List Change) →
            self.old ≡ registers_after cs →
            self.new ≡ registers_after (StartAt (locality_number locality) ∷ cs) }
    {
        fill_each(&mut self.bytes, 0, 0, locality.number());
    }

    /// Extends a register in each bank with the digests of the bank's hash, in their order, and raises the
    /// update counter once where there is a digest at all; LOCALITY for a register of dynamic launch, 17 to 22
    /// (Part 3, 22.2).
    pub fn extend(&mut self, register: PcrIndex, digests: &DigestValues) -> Result<(), u32>
        ensures answer { result ≡ check_extend (Pcr register) }
        ensures extended { OnOk result
            ((cs : List Change) → self.old ≡ registers_after cs
            → self.new ≡ registers_after (Extend register digests.now ∷ cs)) }
        ensures refused { OnErr result (self.new ≡ self.old) }
    {
        let number = register.number();
        if 17 <= number && number <= 22 {
            return Err(LOCALITY);
        }
        extend(&mut self.bytes, number, digests);
        if !digests.as_slice().is_empty() {
            self.updates = self.updates.wrapping_add(1);
        }
        Ok(())
    }

    /// Extends a register with the digests of an event, each in its bank, answers them, and raises the update
    /// counter; LOCALITY for a register of dynamic launch, 17 to 22 (Part 3, 22.3).
    pub fn event(&mut self, register: PcrIndex, event: &[u8]) -> Result<DigestValues, u32>
        ensures answer { result ≡ event_answer register event.now }
        ensures extended { OnOk result
            ((cs : List Change) → self.old ≡ registers_after cs
            → self.new ≡ registers_after (Extend register (event_digests_of event.now) ∷ cs)) }
        ensures refused { OnErr result (self.new ≡ self.old) }
    {
        let digests = event_digests(event);
        self.extend(register, &digests)?;
        Ok(digests)
    }

    /// Makes a register zeros in each bank and raises the update counter; LOCALITY for any but the debug and
    /// the application register, 16 and 23 (Part 3, 22.8).
    pub fn reset(&mut self, register: PcrIndex) -> Result<(), u32>
        ensures answer { result ≡ check_reset register }
        ensures reset { OnOk result
            ((cs : List Change) → self.old ≡ registers_after cs
            → self.new ≡ registers_after (Reset register ∷ cs)) }
        ensures refused { OnErr result (self.new ≡ self.old) }
    {
        let number = register.number();
        if number != 16 && number != 23 {
            return Err(LOCALITY);
        }
        fill_each(&mut self.bytes, number, 0, 0);
        self.updates = self.updates.wrapping_add(1);
        Ok(())
    }

    /// The value of a register in the bank of a hash.
    pub fn read(&self, alg: Alg, register: PcrIndex) -> Digest
        ensures { result ≡ value_in self.now.banks alg register }
    {
        digest(&self.bytes, alg, register.number())
    }

    /// The values of the first eight of the selected registers, the entries in list order, in each rising by
    /// register, and the selection of those that were read: each entry, in which the bits of the registers that
    /// were not read are clear (Part 3, 22.4).
    pub fn select(&self, selections: &Selections) -> (Selections, Digests)
        ensures { result
            ≡ (
              selections_read selections.now,
              values_read (value_in self.now.banks) selections.now,
            ) }
    {
        let mut read = Selections::default();
        let mut values = Digests::default();
        self.select_into(selections, &mut read, &mut values);
        (read, values)
    }

    /// As `select`, in the places of another selection and other values.
    pub fn select_into(&self, selections: &Selections, read: &mut Selections, values: &mut Digests)
        ensures selections { read.new ≡ selections_read selections.now }
        ensures values { values.new ≡ values_read (value_in self.now.banks) selections.now }
    {
        read.clear();
        values.clear();
        for selection in selections.as_slice() {
            read.push(read_selected(&self.bytes, selection, values));
        }
    }

    /// The digest under this hash of the values of all selected registers, joined: the entries in list order,
    /// in each rising by register (Part 1, "Selecting Multiple PCR").
    pub fn composite(&self, alg: Alg, selections: &Selections) -> Digest
        ensures { result ≡ composite_of alg (value_in self.now.banks) selections.now }
    {
        let mut parts = no_parts();
        for selection in selections.as_slice() {
            lend_selected(&self.bytes, selection, &mut parts);
        }
        hash(alg, parts.as_slice())
    }

    /// The update counter.
    pub fn update_counter(&self) -> u32
        ensures { result ≡ self.now.update_counter }
    {
        self.updates
    }
}

// ---- the banks, one behind the other

// How many bytes precede the value of a register: the banks lie one behind the other, in each the registers. A bank of
// SHA-1 has 480 bytes, and one of SHA-256 has 768.
fn offset(alg: Alg, register: u32) -> usize
    requires { register < registers }
    ensures value { result ≡ offset_of alg register }
    ensures fits { result + digest_len alg ≤ all_bytes }
{
    let start = match alg {
        Alg::Sha1 => 0,
        Alg::Sha256 => 480,
        Alg::Sha384 => 1248,
    };
    start + alg.digest_len() * register as usize
}

// The value of a register in a bank.
fn value(bytes: &[u8], alg: Alg, register: u32) -> &[u8]
    requires bytes { length bytes.now ≡ all_bytes }
    requires register { register < registers }
    ensures value { result.now ≡ value_at bytes.now alg register }
    ensures length { length result.now ≡ digest_len alg }
    ensures fits { length result.now ≤ digest_bytes }
{
    let at = offset(alg, register);
    &bytes[at..at + alg.digest_len()]
}

// Writes the value of a register in a bank.
fn write(bytes: &mut [u8], alg: Alg, register: u32, value: &[u8])
    requires bytes { length bytes.old ≡ all_bytes }
    requires register { register < registers }
    requires value { length value.now ≡ digest_len alg }
    ensures { Holds bytes.new (with_value alg register value.now (value_at bytes.old)) }
{
    let at = offset(alg, register);
    bytes[at..at + value.len()].copy_from_slice(value);
}

// Writes a register in a bank: the same byte all over, but for the last.
fn fill(bytes: &mut [u8], alg: Alg, register: u32, byte: u8, last: u8)
    requires bytes { length bytes.old ≡ all_bytes }
    requires register { register < registers }
    ensures { Holds bytes.new
        (with_value alg register (filled_but_last byte last alg) (value_at bytes.old)) }
{
    let len = alg.digest_len();
    let mut value = [byte; DIGEST_BYTES];
    value[len - 1] = last;
    write(bytes, alg, register, &value[..len]);
}

// Writes a register in each bank: the same byte all over, but for the last.
fn fill_each(bytes: &mut [u8], register: u32, byte: u8, last: u8)
    requires bytes { length bytes.old ≡ all_bytes }
    requires register { register < registers }
    ensures { Holds bytes.new
        (with_values register (filled_but_last byte last) (value_at bytes.old)) }
{
    for alg in Alg::ALL {
        fill(bytes, alg, register, byte, last);
    }
}

// Starts the registers: zeros, and bytes 0xFF in the registers of dynamic launch, 17 to 22.
fn start(bytes: &mut [u8; BANKS_BYTES])
    ensures { Holds bytes.new start_value }
{
    *bytes = [0; BANKS_BYTES];
    for register in 17..23 {
        fill_each(bytes, register, 0xFF, 0xFF);
    }
}

// Extends a register with each of the digests, in their order, in the bank of the digest's hash.
fn extend(bytes: &mut [u8], register: u32, digests: &DigestValues)
    requires bytes { length bytes.old ≡ all_bytes }
    requires register { register < registers }
    ensures { Holds bytes.new (changed (Extend register digests.now) bytes.old) }
{
    for entry in digests.as_slice() {
        let alg = entry.hash();
        let at = offset(alg, register);
        tpm_hmac::extend(alg, &mut bytes[at..at + alg.digest_len()], entry.digest());
    }
}
