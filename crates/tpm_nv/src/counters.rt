//! Counters in non-volatile memory (Part 1, "NV Memory"; Part 3, "Non-volatile Storage").

ghost use Rattle.std.specs.Prelude.{◌≡◌, ℕ, ◌^◌, ◌<◌, ◌≤◌, nat_le, set, List, [], ◌++◌, length, slice_index_or, Some};
ghost use Rattle.std.specs.Prelude.{None, not, option_map, IfSome, IfNone, OnOk, OnErr, if◌then◌else◌};
ghost use Rattle.tpm_types.specs.Limits.{digest_bytes};
ghost use Rattle.tpm_commands.specs.declared.command.CommandBody.TheVariants as bodies;
ghost use Rattle.tpm_model.specs.Counters.{has_index, counter_in, next_value, written, nv_by};
ghost use Rattle.tpm_model.specs.Entities.{nv_name};
ghost use Rattle.tpm_model.specs.Actions.{is_definable, check_define, may as may_by, increment as increment_of};
ghost use Rattle.tpm_model.specs.Actions.{read_counter};
ghost use Rattle.tpm_model.specs.Authorization.{is_empty};
ghost use Rattle.tpm_model.specs.Kept.{IsKept};
ghost use Rattle.tpm_model.specs.Counters as model;
ghost use Rattle.tpm_nv.specs.Answers.{check_undefine};
ghost use Rattle.tpm_nv.specs.Definitions.{definition_of, value_in};
ghost use Rattle.tpm_nv.specs.inner.Places.{IsPlace};

use crate::definition::{COUNTER_BYTES, Definition};
use arrayvec::ArrayVec;
use std::marker::Model;
use tpm_hmac::trim;
use tpm_types::{Alg, Digest, Name, NvAttrs, NvAuthHandle, NvIndex, NvPublic};
use tpm_wire::Bounded;
use tpm_wire::response_code::{
    ATTRIBUTES, HANDLE, NV_AUTHORIZATION, NV_DEFINED, NV_RANGE, NV_SPACE, NV_UNINITIALIZED, SIZE,
    of_parameter,
};

/// Who authorizes a command on an index: the owner, or an index itself.
pub type By = NvAuthHandle;

/// How many counters there is room for.
pub const MOST_COUNTERS: usize = 8;

/// A counter that its owner reads and writes.
const BLANK_ATTRS: u32 = 0x0002_0012;

/// An index that is defined.
#[derive(Drop)]
pub struct Counter {
    pub(crate) definition: Definition,
    // Its value, most significant byte first: zeros before the first increment.
    value: [u8; COUNTER_BYTES],
}

impl Model for Counter {
    ghost use Rattle.tpm_nv.specs.Definitions.{value_in};
    ghost use Rattle.tpm_model.specs.Counters as model;
    ghost use Rattle.tpm_model.specs.Kept.{IsKept};

    ghost Value = { model.Counter };

    ghost view = { λ c. record {
      public = c.definition.public;
      auth = c.definition.auth;
      value = value_in c.value;
    } };

    ghost invariant = { λ c. IsKept (record {
      public = c.definition.public;
      auth = c.definition.auth;
      value = value_in c.value;
    }) };
}

/// A blank, which fills the room for counters.
impl Default for Counter {
    fn default() -> Self {
        match (
            NvIndex::from_number(0x0180_0000),
            NvAttrs::from_number(BLANK_ATTRS),
        ) {
            (Some(index), Some(attrs)) => {
                let public = NvPublic {
                    index,
                    alg: Alg::default(),
                    attrs,
                    policy: Digest::default(),
                    data_size: COUNTER_BYTES as u16,
                };
                Counter::defined(&public, &[])
            }
            _ => unreachable!(),
        }
    }
}

// The bytes of a value, zeros for none.
fn bytes_of(value: Option<u64>) -> [u8; COUNTER_BYTES]
    requires { IfSome value (λ v. 0 < v) }
    ensures { value_in result ≡ value }
{
    match value {
        None => [0; COUNTER_BYTES],
        Some(value) => value.to_be_bytes(),
    }
}

impl Counter {
    // A counter of an index that was just defined, with an authorization value without trailing zeros.
    fn defined(public: &NvPublic, auth: &[u8]) -> Self
        requires size { public.now.data_size ≡ 8 }
        requires short { length auth.now ≤ digest_bytes }
        requires kept { IsKept (record { public = public.now; auth = auth.now; value = None }) }
        ensures { result ≡ record { public = public.now; auth = auth.now; value = None } }
    {
        Counter::kept(public, auth, None)
    }

    // The same with a value, where it was incremented.
    pub(crate) fn kept(public: &NvPublic, auth: &[u8], value: Option<u64>) -> Self
        requires size { public.now.data_size ≡ 8 }
        requires short { length auth.now ≤ digest_bytes }
        requires kept { IsKept (record { public = public.now; auth = auth.now; value = value }) }
        ensures { result ≡ record { public = public.now; auth = auth.now; value = value } }
    {
        Counter {
            definition: Definition::new(public, auth),
            value: bytes_of(value),
        }
    }

    // Whether it is of this index.
    fn has_index(&self, index: NvIndex) -> bool
        ensures { result ≡ has_index index self.now }
    {
        self.definition.index() == index
    }

    /// What it was defined with, its public area as it is now.
    pub fn definition(&self) -> &Definition
        ensures { result.now ≡ definition_of self.now }
    {
        &self.definition
    }

    /// Its public area as it is now: WRITTEN is set from the first increment on.
    pub fn public(&self) -> NvPublic
        ensures { result ≡ self.now.public }
    {
        self.definition.public()
    }

    /// Whether it has an authorization value that is not empty.
    pub fn has_auth(&self) -> bool
        ensures { result ≡ not (is_empty self.now.auth) }
    {
        !self.definition.auth().is_empty()
    }

    /// Its value, where it was incremented since its definition.
    pub fn value(&self) -> Option<u64>
        ensures { result ≡ self.now.value }
    {
        match u64::from_be_bytes(self.value) {
            0 => None,
            value => Some(value),
        }
    }

    // Gives it a value.
    fn write(&mut self, value: u64)
        requires { 0 < value }
        ensures { self.new
            ≡ record {
              public = written self.old.public;
              auth = self.old.auth;
              value = Some value;
            } }
    {
        self.definition.write();
        self.value = value.to_be_bytes();
    }
}

// The place of an index.
fn place(counters: &[Counter], index: NvIndex) -> Option<usize>
    ensures some { IfSome result (λ k. IsPlace index k counters.now) }
    ensures none { IfNone result (counter_in counters.now index ≡ None) }
{
    for (k, counter) in counters.iter().enumerate() {
        if counter.has_index(index) {
            return Some(k);
        }
    }
    None
}

// The counter of an index.
pub(crate) fn entry(counters: &[Counter], index: NvIndex) -> Option<&Counter>
    ensures { option_map (λ c. c.now) result ≡ counter_in counters.now index }
{
    match place(counters, index) {
        None => None,
        Some(k) => Some(&counters[k]),
    }
}

// Gives the counter at this place a value.
fn write(counters: &mut [Counter], k: usize, value: u64)
    requires place { k < length counters.old }
    requires above { 0 < value }
    ensures { (c : model.Counter) →
        slice_index_or counters.old k c ≡ c →
        counters.new
        ≡ set counters.old k
        (record { public = written c.public; auth = c.auth; value = Some value }) }
{
    counters[k].write(value);
}

// What an increment gives, unless it is past the greatest number.
fn raised(value: Option<u64>, greatest: u64) -> Option<u64>
    ensures { result
        ≡ (if nat_le (2 ^ 64) (next_value greatest value) then None
        else Some (next_value greatest value)) }
{
    match value {
        None => greatest.checked_add(1),
        Some(value) => value.checked_add(1),
    }
}

// Whether who authorizes a command may use the index.
fn may(by: By, owner_may: bool, index: NvIndex) -> bool
    ensures { result ≡ may_by by owner_may index }
{
    match by {
        NvAuthHandle::Owner => owner_may,
        NvAuthHandle::Index(other) => other == index,
    }
}

// Whether an index with these attributes may be defined.
fn may_be_defined(attrs: NvAttrs) -> bool
    ensures { result ≡ is_definable attrs }
{
    attrs.is_counter() && !attrs.is_undefinable() && attrs.is_writable() && attrs.is_readable()
}

/// The counters that are defined, eight at most, in the order of their definitions, and the greatest value that
/// any had. Power cycles leave them.
#[derive(Drop)]
pub struct Counters {
    pub(crate) counters: ArrayVec<Counter, MOST_COUNTERS>,
    pub(crate) greatest: u64,
}

impl Model for Counters {
    ghost use Rattle.std.specs.Prelude.{◌≡◌, Ok};
    ghost use Rattle.tpm_model.specs.Counters.{NvMemory};
    ghost use Rattle.tpm_model.specs.Kept.{check_counters};

    ghost Value = { NvMemory };

    ghost view = { λ c. record { counters = c.counters.items; greatest = c.greatest } };

    ghost invariant = { λ c. check_counters c.greatest c.counters.items ≡ Ok tt };
}

impl Counters {
    /// No counters, where this is the greatest value that a counter of the device has had.
    pub fn new(greatest: u64) -> Self
        ensures { result ≡ record { counters = []; greatest = greatest } }
    {
        Counters {
            counters: ArrayVec::new(),
            greatest,
        }
    }

    /// Defines an index with this authorization value, whose trailing zeros are no part of it (Part 3, 31.3).
    /// Refused in this order: ATTRIBUTES of parameter 2 where it is no counter, or has an attribute that no
    /// definition may set, or can't be written or can't be read; SIZE of parameter 1 for an authorization value
    /// longer than a digest of the index's hash; SIZE of parameter 2 for a policy neither empty nor as long as
    /// that digest, and for data of another size than 8 bytes; NV_DEFINED; NV_SPACE for a ninth index.
    pub fn define(&mut self, public: &NvPublic, auth: &[u8]) -> Result<(), u32>
        ensures answer { result
            ≡ check_define (counter_in self.old.counters public.now.index)
            (length self.old.counters) auth.now public.now }
        ensures defined { OnOk result
            (self.new ≡ nv_by
            (bodies.NvDefineSpace (record { auth = auth.now; public = public.now })) self.old) }
        ensures refused { OnErr result (self.new ≡ self.old) }
    {
        let auth = trim(auth);
        let len = public.alg.digest_len();
        let policy = public.policy.as_slice();
        if !may_be_defined(public.attrs) {
            return Err(ATTRIBUTES + of_parameter(2));
        }
        if auth.len() > len {
            return Err(SIZE + of_parameter(1));
        }
        if !policy.is_empty() && policy.len() != len {
            return Err(SIZE + of_parameter(2));
        }
        if public.data_size as usize != COUNTER_BYTES {
            return Err(SIZE + of_parameter(2));
        }
        if entry(self.counters.as_slice(), public.index).is_some() {
            return Err(NV_DEFINED);
        }
        if self.counters.is_full() {
            return Err(NV_SPACE);
        }
        self.counters.push(Counter::defined(public, auth));
        Ok(())
    }

    /// Undefines an index (Part 3, 31.4). HANDLE where it is not defined.
    pub fn undefine(&mut self, index: NvIndex) -> Result<(), u32>
        ensures answer { result ≡ check_undefine (counter_in self.old.counters index) }
        ensures undefined { OnOk result (self.new ≡ nv_by (bodies.NvUndefineSpace index) self.old) }
        ensures refused { OnErr result (self.new ≡ self.old) }
    {
        if entry(self.counters.as_slice(), index).is_none() {
            return Err(HANDLE);
        }
        self.counters.retain(|counter| !counter.has_index(index));
        Ok(())
    }

    /// The public area of an index, where it is defined, with WRITTEN set from its first increment on.
    pub fn public(&self, index: NvIndex) -> Option<NvPublic>
        ensures { result ≡ option_map (λ c. c.public) (counter_in self.now.counters index) }
    {
        Some(entry(self.counters.as_slice(), index)?.public())
    }

    /// The Name of an index, where it is defined (Part 1, "Names"): it changes with the first increment.
    pub fn name(&self, index: NvIndex) -> Option<Name>
        ensures { result ≡ option_map (λ c. nv_name c.public) (counter_in self.now.counters index) }
    {
        Some(entry(self.counters.as_slice(), index)?.definition().name())
    }

    /// The authorization value of an index, where it is defined, without trailing zeros.
    pub fn auth(&self, index: NvIndex) -> Option<&[u8]>
        ensures { option_map (λ a. a.now) result
            ≡ option_map (λ c. c.auth) (counter_in self.now.counters index) }
    {
        Some(entry(self.counters.as_slice(), index)?.definition().auth())
    }

    /// The public area as it is now and the authorization value of an index, where it is defined.
    pub fn definition(&self, index: NvIndex) -> Option<&Definition>
        ensures { option_map (λ d. d.now) result
            ≡ option_map definition_of (counter_in self.now.counters index) }
    {
        Some(entry(self.counters.as_slice(), index)?.definition())
    }

    /// Increments a counter and answers its value: the first time since its definition one more than the greatest value
    /// that any counter of the device has had, and then one more each time (Part 3, 31.8). Refused in this
    /// order: HANDLE; NV_AUTHORIZATION for the owner without OWNERWRITE and for another index; NV_RANGE past
    /// 2^64 - 1.
    pub fn increment(&mut self, index: NvIndex, by: By) -> Result<u64, u32>
        ensures answer { result
            ≡ increment_of self.old.greatest (counter_in self.old.counters index) by index }
        ensures incremented { OnOk result
            (self.new ≡ nv_by (bodies.NvIncrement by index) self.old) }
        ensures refused { OnErr result (self.new ≡ self.old) }
    {
        let Some(k) = place(self.counters.as_slice(), index) else {
            return Err(HANDLE);
        };
        let counter = &self.counters.as_slice()[k];
        if !may(by, counter.definition().attrs().owner_writes(), index) {
            return Err(NV_AUTHORIZATION);
        }
        let Some(value) = raised(counter.value(), self.greatest) else {
            return Err(NV_RANGE);
        };
        write(self.counters.as_mut_slice(), k, value);
        self.greatest = self.greatest.max(value);
        Ok(value)
    }

    /// `size` bytes of the value of a counter from `offset` on, most significant byte first (Part 3, 31.13).
    /// Refused in this order: HANDLE; NV_AUTHORIZATION for the owner without OWNERREAD and for another index;
    /// NV_UNINITIALIZED before the first increment; NV_RANGE for bytes behind the value's eighth.
    pub fn read(
        &self,
        index: NvIndex,
        by: By,
        size: u16,
        offset: u16,
    ) -> Result<Bounded<COUNTER_BYTES>, u32>
        ensures { result ≡ read_counter (counter_in self.now.counters index) by index size offset }
    {
        let counter = entry(self.counters.as_slice(), index).ok_or(HANDLE)?;
        if !may(by, counter.definition().attrs().owner_reads(), index) {
            return Err(NV_AUTHORIZATION);
        }
        let value = counter.value().ok_or(NV_UNINITIALIZED)?;
        let size = size as usize;
        let offset = offset as usize;
        if offset + size > COUNTER_BYTES {
            return Err(NV_RANGE);
        }
        Ok(Bounded::of(&value.to_be_bytes()[offset..offset + size]))
    }
}
