//! What the handles of a command may be, and their reading.

ghost use Rattle.std.specs.Prelude.{◌≡◌, true, ◌+◌, ◌≤◌, ◌*◌, ◌∷◌, [], length, ◌++◌, IfOk};
ghost use Rattle.tpm_wire.specs.Spelling.{spelling};
ghost use Rattle.tpm_wire.specs.Buffers.{TakesNumbered, number_in, numbered};
ghost use Rattle.tpm_wire.specs.ResponseCodes.{rc_value, of_handle as the_number};
ghost use Rattle.tpm_commands.specs.Table.{register_in as the_register, index_in as the_index, policy_in as the_policy};
ghost use Rattle.tpm_commands.specs.Table.{pcr_or_null_in as the_pcr_or_null, nv_auth_in as the_nv_auth};
ghost use Rattle.tpm_commands.specs.Table.{bind_in as the_bind};
ghost use Rattle.tpm_commands.specs.Handles.{first as first_of, second as second_of, admits as is_admitted};
ghost use Rattle.tpm_commands.specs.Handles.{handle_kinds as handle_kinds_of, needs_authorization as does_need};
ghost use Rattle.tpm_commands.specs.Handles.{handles as handles_layout};
ghost use Rattle.tpm_commands.specs.Handles.{handles_from, AreAdmitted};

use crate::command::row_of;
use arrayvec::ArrayVec;
use tpm_types::{
    BindHandle, CommandCode, NvAuthHandle, NvIndex, PcrIndex, PcrOrNull, PolicyHandle, RH_NULL,
    RH_OWNER,
};
use tpm_wire::response_code::{VALUE, of_handle};
use tpm_wire::{Cursor, Refusal, Wire};

/// What one handle of a command may be.
#[derive(Clone, Copy, Debug, PartialEq, Eq)]
pub enum HandleKind {
    Pcr,
    PcrOrNull,
    Owner,
    Null,
    OwnerOrNull,
    Index,
    OwnerOrIndex,
    Policy,
}

impl HandleKind {
    fn admits(self, handle: u32) -> bool
        ensures { result ≡ is_admitted self handle }
    {
        match self {
            HandleKind::Pcr => PcrIndex::from_number(handle).is_some(),
            HandleKind::PcrOrNull => PcrOrNull::from_number(handle).is_some(),
            HandleKind::Owner => handle == RH_OWNER,
            HandleKind::Null => handle == RH_NULL,
            HandleKind::OwnerOrNull => BindHandle::from_number(handle).is_some(),
            HandleKind::Index => NvIndex::from_number(handle).is_some(),
            HandleKind::OwnerOrIndex => NvAuthHandle::from_number(handle).is_some(),
            HandleKind::Policy => PolicyHandle::from_number(handle).is_some(),
        }
    }

    // The handle of this number, counted from 1.
    fn take(self, cursor: &mut Cursor<'_>, number: u32) -> Result<u32, Refusal>
        requires { (1 ≤ number) × (number ≤ 2) }
        ensures reads { TakesNumbered (λ n. n)
            (numbered (the_number number) (number_in 4 (is_admitted self) rc_value))
            cursor.old cursor.new result }
        ensures spelled { IfOk result
            (λ x. cursor.old.here.rest
            ≡ spelling (numbered (the_number number) (number_in 4 (is_admitted self) rc_value))
            x
            ++ cursor.new.here.rest) }
        ensures admitted { IfOk result (λ x. is_admitted self x ≡ true) }
    {
        cursor.number(of_handle(number));
        let refusal = cursor.refusal(VALUE);
        let handle = u32::take(cursor)?;
        if !self.admits(handle) {
            return Err(refusal);
        }
        Ok(handle)
    }
}

/// What the table says of one command (Part 3, the command table of each).
#[derive(Clone, Copy)]
pub(crate) struct Row {
    /// What its handles may be.
    pub(crate) handles: &'static [HandleKind],
    /// Whether its first handle needs authorization.
    pub(crate) needs_authorization: bool,
}

pub(crate) const WITHOUT_HANDLES: Row = Row {
    handles: &[],
    needs_authorization: false,
};

pub(crate) const OF_POLICY: Row = Row {
    handles: &[HandleKind::Policy],
    needs_authorization: false,
};

pub(crate) const OF_START: Row = Row {
    handles: &[HandleKind::Null, HandleKind::OwnerOrNull],
    needs_authorization: false,
};

pub(crate) const OF_PUBLIC: Row = Row {
    handles: &[HandleKind::Index],
    needs_authorization: false,
};

pub(crate) const OF_MEASURING: Row = Row {
    handles: &[HandleKind::PcrOrNull],
    needs_authorization: true,
};

pub(crate) const OF_RESET: Row = Row {
    handles: &[HandleKind::Pcr],
    needs_authorization: true,
};

pub(crate) const OF_DEFINING: Row = Row {
    handles: &[HandleKind::Owner],
    needs_authorization: true,
};

pub(crate) const OF_UNDEFINING: Row = Row {
    handles: &[HandleKind::Owner, HandleKind::Index],
    needs_authorization: true,
};

pub(crate) const OF_COUNTER: Row = Row {
    handles: &[HandleKind::OwnerOrIndex, HandleKind::Index],
    needs_authorization: true,
};

/// The list of one handle.
#[inline(always)]
pub(crate) fn one_handle(number: u32) -> ArrayVec<u32, 2>
    ensures { result.items ≡ number ∷ [] }
{
    let mut numbers = ArrayVec::new();
    numbers.push(number);
    numbers
}

/// The list of two handles.
#[inline(always)]
pub(crate) fn two_handles(first: u32, second: u32) -> ArrayVec<u32, 2>
    ensures { result.items ≡ first ∷ second ∷ [] }
{
    let mut numbers = one_handle(first);
    numbers.push(second);
    numbers
}

/// The numbers of the handles that a command with this code has, in their order, each of its kind; or the first
/// fault: INSUFFICIENT or VALUE with the handle's number (Part 3, the command table of each).
#[inline(always)]
pub fn take_handles(cursor: &mut Cursor<'_>, code: CommandCode) -> Result<ArrayVec<u32, 2>, Refusal>
    ensures reads { TakesNumbered (λ v. v.items) (handles_layout code)
        cursor.old cursor.new result }
    ensures spelled { IfOk result
        (λ x. cursor.old.here.rest
        ≡ spelling (handles_layout code) x.items ++ cursor.new.here.rest) }
    ensures admitted { IfOk result (λ x. AreAdmitted (handle_kinds_of code) x.items) }
{
    match row_of(code).handles {
        [] => Ok(ArrayVec::new()),
        [only] => Ok(one_handle(only.take(cursor, 1)?)),
        [one, two, ..] => {
            let first = one.take(cursor, 1)?;
            let second = two.take(cursor, 2)?;
            Ok(two_handles(first, second))
        }
    }
}

/// What the table of commands says of a command (Part 3, the command table of each).
pub trait CommandTable {
    /// How many handles the command has, 0 to 2.
    fn handles(self) -> usize;

    /// Whether the command's first handle needs authorization.
    fn needs_authorization(self) -> bool;
}

impl CommandTable for CommandCode {
    fn handles(self) -> usize
        ensures value { result ≡ length (handle_kinds_of self) }
        ensures fits { result ≤ 2 }
    {
        row_of(self).handles.len()
    }

    fn needs_authorization(self) -> bool
        ensures { result ≡ does_need self }
    {
        row_of(self).needs_authorization
    }
}

// ---- a handle by its number, or where the command cannot have it one of its kind,
// which is never met on handles that were read

/// The register of this handle, or register 0 for a handle of none (Part 2, 9.7).
pub fn register_in(handle: u32) -> PcrIndex
    ensures { result ≡ the_register handle }
{
    PcrIndex::from_number(handle).unwrap_or(PcrIndex::default())
}

/// The NV index of this handle, or 0x01000000 for a handle of none (Part 2, 9.24).
pub fn index_in(handle: u32) -> NvIndex
    ensures { result ≡ the_index handle }
{
    match NvIndex::from_number(handle).or(NvIndex::from_number(0x01000000)) {
        Some(index) => index,
        None => unreachable!(),
    }
}

/// The policy session of this handle, or 0x03000000 for a handle of none (Part 2, 9.10).
pub fn policy_in(handle: u32) -> PolicyHandle
    ensures { result ≡ the_policy handle }
{
    match PolicyHandle::from_number(handle).or(PolicyHandle::from_number(0x03000000)) {
        Some(session) => session,
        None => unreachable!(),
    }
}

/// The register of this handle, or TPM_RH_NULL for a handle of none (Part 2, 9.7).
pub fn pcr_or_null_in(handle: u32) -> PcrOrNull
    ensures { result ≡ the_pcr_or_null handle }
{
    PcrOrNull::from_number(handle).unwrap_or(PcrOrNull::Null)
}

/// Who authorizes a command on an index by this handle, the owner or an index; the owner for a handle of neither (Part
/// 2, 9.22).
pub fn nv_auth_in(handle: u32) -> NvAuthHandle
    ensures { result ≡ the_nv_auth handle }
{
    NvAuthHandle::from_number(handle).unwrap_or(NvAuthHandle::Owner)
}

/// What a session is bound to by this handle, the owner or TPM_RH_NULL; TPM_RH_NULL for a handle of neither (Part 2,
/// 9.6).
pub fn bind_in(handle: u32) -> BindHandle
    ensures { result ≡ the_bind handle }
{
    BindHandle::from_number(handle).unwrap_or(BindHandle::Null)
}

/// The first of the handles, or 0 where there is none.
pub fn first_handle(handles: &[u32]) -> u32
    ensures { result ≡ first_of handles.now }
{
    handles.first().copied().unwrap_or(0)
}

/// The second of the handles, or 0 where there is none.
pub fn second_handle(handles: &[u32]) -> u32
    ensures { result ≡ second_of handles.now }
{
    handles.get(1).copied().unwrap_or(0)
}
