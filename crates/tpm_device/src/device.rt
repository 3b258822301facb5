//! A device: the order of its checks, and those before the parameters.

ghost use Rattle.std.specs.Prelude.{◌≡◌, ◌<◌, ◌≤◌, [], ◌∷◌, length, Ok, Err, IfOk, IfErr, IfSome, IfNone, OnOk, OnErr};
ghost use Rattle.tpm_model.specs.Steps.{History, PowerCycle, Origin, new_origin};
ghost use Rattle.tpm_model.specs.Answers.{presented as presented_of, performed as performed_of, outcome as outcome_of};
ghost use Rattle.tpm_model.specs.Answers.{answered, answer, next, with_outcome, check_started as started_of};
ghost use Rattle.tpm_model.specs.Answers.{check_handle as handle_of, check_handles as handles_of, check_tag as tag_of};
ghost use Rattle.tpm_model.specs.Premises.{code_in};
ghost use Rattle.tpm_device.specs.Stands.{Stands, holds};
ghost use Rattle.tpm_device.specs.inner.Checks.{none_loaded, IsAdmitted, IsRead, sessions_checked};
ghost use Rattle.tpm_device.specs.inner.Performing.{MayBePerformed, IsPerformed};
ghost use Rattle.tpm_device.specs.inner.Answers.{given, told};
ghost use Rattle.tpm_model.specs.Entities.{entity_of, name_of, names_of};
ghost use Rattle.tpm_session.specs.Entities.{entity_in, IsAuthorization};

use crate::reply::{RESPONSE_BYTES, ResponseBuffer, put_refusal};
use arrayvec::ArrayVec;
use tpm_buffer::{Areas, NO_SESSIONS, SESSIONS, header};
use tpm_commands::{CommandTable, first_handle};
use tpm_nv::Counters;
use tpm_pcr::Registers;
use tpm_session::{Authorization, Claim, Entity, Sessions};
use tpm_types::{
    AuthValue, CommandCode, DIGEST_BYTES, Name, NvIndex, Packed, PcrIndex, PolicyHandle, RH_OWNER,
    name_of_handle,
};
use tpm_wire::response_code::{
    AUTH_CONTEXT, AUTH_MISSING, HANDLE, INITIALIZE, REFERENCE_H0, of_handle,
};

/// A device of this profile.
#[derive(Drop)]
pub struct Device {
    pub(crate) owner: Packed<DIGEST_BYTES>,
    pub(crate) started: bool,
    pub(crate) registers: Registers,
    pub(crate) sessions: Sessions,
    pub(crate) counters: Counters,
}

// No session is loaded.
pub(crate) fn no_sessions() -> Sessions
    ensures { result ≡ none_loaded }
{
    Sessions::new()
}

// INITIALIZE for TPM2_Startup on a device that is started, and for another command on one that is not.
fn check_started(started: bool, code: CommandCode) -> Result<(), u32>
    ensures { result ≡ started_of started code }
{
    if started == (code == CommandCode::Startup) {
        return Err(INITIALIZE);
    }
    Ok(())
}

// AUTH_MISSING where a handle needs authorization and there is no session, AUTH_CONTEXT where none
// does and there is one.
fn check_tag(code: CommandCode, tag: u16) -> Result<(), u32>
    ensures { result ≡ tag_of code tag }
{
    if code.needs_authorization() {
        if tag == NO_SESSIONS {
            return Err(AUTH_MISSING);
        }
    } else if tag == SESSIONS {
        return Err(AUTH_CONTEXT);
    }
    Ok(())
}

impl Device {
    // REFERENCE_H0 for a handle of a policy session that is not loaded, HANDLE for that of an index
    // that is not defined.
    fn check_handle(&self, number: u32, handle: u32) -> Result<(), u32>
        requires { number ≤ 2 }
        ensures { result ≡ handle_of (holds self.now) number handle }
    {
        if let Some(session) = PolicyHandle::from_number(handle) {
            return match self.sessions.policy(session) {
                Some(_) => Ok(()),
                None => Err(REFERENCE_H0 + number - 1),
            };
        }
        if let Some(index) = NvIndex::from_number(handle) {
            if self.counters.definition(index).is_none() {
                return Err(HANDLE + of_handle(number));
            }
        }
        Ok(())
    }

    // The first refusal of the handles, in their order.
    fn check_handles(&self, handles: &[u32]) -> Result<(), u32>
        requires { length handles.now ≤ 2 }
        ensures { result ≡ handles_of (holds self.now) 1 handles.now }
    {
        match handles {
            [] => Ok(()),
            [only] => self.check_handle(1, *only),
            [one, two, ..] => {
                self.check_handle(1, *one)?;
                self.check_handle(2, *two)
            }
        }
    }

    /// What a handle names that is the first of a command which needs authorization, as it is now (Part 2, 7.2).
    pub(crate) fn entity(&self, handle: u32) -> Entity<'_>
        ensures { entity_in result ≡ entity_of (holds self.now) handle }
    {
        if PcrIndex::from_number(handle).is_some() {
            return Entity::Register;
        }
        if handle == RH_OWNER {
            return Entity::Owner(self.owner.as_slice());
        }
        let Some(index) = NvIndex::from_number(handle) else {
            return Entity::Null;
        };
        match self.counters.definition(index) {
            Some(definition) => Entity::Index(definition),
            None => Entity::Null,
        }
    }

    // The Name of a handle: that of an index, or else the handle's bytes.
    fn name(&self, handle: u32) -> Name
        ensures { result ≡ name_of (holds self.now) handle }
    {
        match NvIndex::from_number(handle) {
            Some(index) => match self.counters.name(index) {
                Some(name) => name,
                None => name_of_handle(handle),
            },
            None => name_of_handle(handle),
        }
    }

    // The Names of the handles.
    fn names(&self, handles: &[u32]) -> ArrayVec<Name, 2>
        requires { length handles.now ≤ 2 }
        ensures { result.items ≡ names_of (holds self.now) handles.now }
    {
        let mut names = ArrayVec::new();
        match handles {
            [] => {}
            [only] => names.push(self.name(*only)),
            [one, two, ..] => {
                names.push(self.name(*one));
                names.push(self.name(*two));
            }
        }
        names
    }

    // All checks of the sessions: they are the last checks before the parameters. A third session is refused as a
    // second is. A password covers no Names. It is out of line, so that the Names are off the stack before the command
    // is performed.
    #[inline(never)]
    fn check_sessions(
        &self,
        areas: &Areas<'_>,
        by: &Option<Authorization<'_, '_>>,
    ) -> Result<(), u32>
        requires few { length areas.now.handles ≤ 2 }
        requires own { IsAuthorization self.now.sessions areas.now.auths by.now }
        ensures { result ≡ sessions_checked (holds self.now) areas.now }
    {
        let Some(how) = by else {
            return Ok(());
        };
        let names = match how.slot {
            Some(_) => self.names(areas.handles()),
            None => ArrayVec::new(),
        };
        let claim = Claim {
            entity: self.entity(first_handle(areas.handles())),
            command: areas.code(),
            names: names.as_slice(),
            params: areas.params(),
            update_counter: self.registers.update_counter(),
        };
        self.sessions.authorize_by(how, &claim)
    }
}

impl Device {
    /// A device that is not started. The owner has this authorization value, of at most 48 bytes,
    /// and no counter of the device has had a greater value than this.
    pub fn new(owner: &AuthValue, greatest: u64) -> Self
        ensures { Stands (new_origin owner.now greatest) [] result }
    {
        Device {
            owner: Packed::new(owner.as_slice()),
            started: false,
            registers: Registers::new(),
            sessions: no_sessions(),
            counters: Counters::new(greatest),
        }
    }

    /// The power is switched off and on: the sessions, the registers, the update counter and
    /// whether the device is started are as on a new device. The counters stay, and the greatest
    /// value that any has had.
    pub fn power_cycle(&mut self)
        ensures { (o : Origin) (h : History) →
            Stands o h self.old →
            Stands o (PowerCycle ∷ h) self.new }
    {
        self.started = false;
        self.registers.restart();
        self.sessions.clear();
    }

    // The checks by the grammar, and those before the authorization area: what is read stands in the place of other
    // areas, since it would be moved twice where it were answered. They are out of line, so that what they read is off
    // the stack before the command is performed: 6,184 bytes by LLVM where they are not.
    #[inline(never)]
    fn check_presented<'a>(&self, bytes: &'a [u8], areas: &mut Areas<'a>) -> Result<(), u32>
        ensures reads { OnOk result
            (IsRead (holds self.now) (presented_of (holds self.now) bytes.now) (Ok areas.new)) }
        ensures refuses { IfErr result (λ code. presented_of (holds self.now) bytes.now ≡ Err code) }
        ensures admitted { OnOk result (IsAdmitted areas.new) }
        ensures few { OnOk result (length areas.new.handles ≤ 2) }
    {
        let headed = header(bytes).map_err(|refusal| refusal.code)?;
        let code = headed.code();
        let tag = headed.tag();
        check_started(self.started, code)?;
        let handled = headed.handles().map_err(|refusal| refusal.code)?;
        self.check_handles(handled.list())?;
        check_tag(code, tag)?;
        match handled.areas_into(areas) {
            Ok(()) => Ok(()),
            Err(refusal) => Err(refusal.code),
        }
    }

    // As `performed_by_action`, where the command has a function of its own; and otherwise nothing is done. These
    // functions are without the room of the longest parameters and that of the longest reply, each for what it says.
    // Were all ways the arms of one `match`, the toolchain's compiler would join their frames, to 688 bytes more.
    fn performed_alone(
        &mut self,
        areas: &Areas<'_>,
        by: &Option<Authorization<'_, '_>>,
        nonce: &[u8; 64],
        out: &mut ResponseBuffer,
    ) -> Option<Result<(), u32>>
        requires { MayBePerformed self.old areas.now by.now out.old }
        ensures some { IfSome result (λ given.
            IsPerformed areas.now (performed_of (holds self.old) nonce.now)
            (record { device = self.old; nonce = nonce.now; out = out.old })
            (record { result = given; device = self.new; out = out.new })) }
        ensures none { IfNone result ((self.new ≡ self.old) × (out.new ≡ out.old)) }
    {
        match areas.code() {
            CommandCode::PcrExtend => Some(self.performed_extending(areas, by, nonce, out)),
            CommandCode::StartAuthSession => Some(self.performed_starting(areas, by, nonce, out)),
            CommandCode::PolicyPcr => Some(self.performed_asserting(areas, by, nonce, out)),
            _ => None,
        }
    }

    // The reply, or the code of the first check that fails.
    fn outcome(
        &mut self,
        bytes: &[u8],
        nonce: &[u8; 64],
        out: &mut ResponseBuffer,
    ) -> Result<(), u32>
        requires empty { length out.old.items ≡ 0 }
        ensures answer { (o : Origin) (h : History) →
            Stands o h self.old →
            given out.new.items result ≡ told (outcome_of (holds self.old) bytes.now nonce.now) }
        ensures stands { (o : Origin) (h : History) →
            Stands o h self.old →
            Stands o (with_outcome h nonce.now (outcome_of (holds self.old) bytes.now nonce.now))
            self.new }
        ensures refuses { IfErr result (λ code.
            outcome_of (holds self.old) bytes.now nonce.now ≡ Err code) }
        ensures some { IfErr result (λ code. 0 < code) }
        ensures refused { OnErr result (self.new ≡ self.old) }
        ensures done { OnOk result (code_in out.new.items ≡ 0) }
        ensures none { OnErr result (out.new ≡ out.old) }
    {
        let mut areas = Areas::default();
        self.check_presented(bytes, &mut areas)?;
        let by = self.sessions.authorization(areas.auths())?;
        self.check_sessions(&areas, &by)?;
        match self.performed_alone(&areas, &by, nonce, out) {
            Some(given) => given,
            None => self.performed_by_action(&areas, &by, nonce, out),
        }
    }

    /// Answers the bytes of a command, whatever they are, with the bytes of a response. The nonce
    /// is 64 fresh random bytes, of which the next nonceTPM of the command's session is the front.
    ///
    /// The first check that fails gives the response code, which stands alone in 10 bytes, and then
    /// nothing has changed. In this order: the header (tpm_buffer's codes); INITIALIZE; the handles
    /// (tpm_buffer's codes), then REFERENCE_H0 for a policy session that is not loaded and HANDLE
    /// for an index that is not defined; AUTH_CONTEXT and AUTH_MISSING; the authorization area; the
    /// sessions (tpm_session's codes, in the order of `authorize`); the parameters; and the
    /// refusals of the command's action, those of tpm_pcr, tpm_nv and tpm_session, and VALUE for a
    /// start from a saved state (Part 1, "Command Processing"; the order is this profile's).
    pub fn execute(&mut self, bytes: &[u8], nonce: &[u8; 64]) -> ResponseBuffer
        ensures answer { (o : Origin) (h : History) →
            Stands o h self.old →
            result.items ≡ answer o h bytes.now nonce.now }
        ensures stands { (o : Origin) (h : History) →
            Stands o h self.old →
            Stands o (next o h bytes.now nonce.now) self.new }
        ensures refused { 0 < code_in result.items → self.new ≡ self.old }
    {
        let mut out = ResponseBuffer::new();
        self.execute_into(bytes, nonce, &mut out);
        out
    }

    /// As `execute`, into this buffer, whatever is in it. No answer has more bytes than there is room for.
    #[inline(never)]
    pub fn execute_into(&mut self, bytes: &[u8], nonce: &[u8; 64], out: &mut ResponseBuffer)
        ensures answer { (o : Origin) (h : History) →
            Stands o h self.old →
            out.new.items ≡ answer o h bytes.now nonce.now }
        ensures stands { (o : Origin) (h : History) →
            Stands o h self.old →
            Stands o (next o h bytes.now nonce.now) self.new }
        ensures refused { 0 < code_in out.new.items → self.new ≡ self.old }
        ensures short { length out.new.items ≤ 549 }
    {
        out.clear();
        if let Err(code) = self.outcome(bytes, nonce, out) {
            put_refusal(code, out);
        }
        prove!(out.as_slice().len() <= RESPONSE_BYTES);
    }
}
