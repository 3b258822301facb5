//! A device that is kept: its NV memory as bytes, and the device that is made of them again (Part 1, "NV Memory").

ghost use Rattle.std.specs.Prelude.{◌≡◌, ◌↔◌, ℕ, List, false, [], ◌∷◌, ◌≤◌, length, option_map, IfOk, OnOk};
ghost use Rattle.tpm_wire.specs.Path.{Decodes, Spells};
ghost use Rattle.tpm_wire.specs.Spelling.{spelling};
ghost use Rattle.tpm_wire.specs.Token.{at_start};
ghost use Rattle.tpm_buffer.specs.Commands.{header as header_layout};
ghost use Rattle.tpm_model.specs.Steps.{History, PowerCycle, Origin, new_origin};
ghost use Rattle.tpm_model.specs.Sessions.{loaded};
ghost use Rattle.tpm_model.specs.Counters.{nv_memory};
ghost use Rattle.tpm_model.specs.Kept.{IsFair, kept_memory, restored};
ghost use Rattle.tpm_model.specs.Answers.{answer, by_grammar, next};
ghost use Rattle.tpm_model.specs.NvChanges.{writes_nv as writes_nv_of, names_writer as names_writer_of};
ghost use Rattle.tpm_model.specs.NvChanges.{is_success as is_success_of, changes_nv as changes_nv_of};
ghost use Rattle.tpm_device.specs.Stands.{holds, Stands};

use crate::device::{Device, no_sessions};
use tpm_buffer::header;
use tpm_nv::{Counter, Counters, KEPT_BYTES};
use tpm_pcr::Registers;
use tpm_types::{Alg, AuthValue, CommandCode, Packed, SessionHandle};
use tpm_wire::{Buffer, Refusal, Wire};

// The command changes NV memory where it is done (Part 3, 31.3, 31.4 and 31.8).
fn writes_nv(code: CommandCode) -> bool
    ensures { result ≡ writes_nv_of code }
{
    matches!(
        code,
        CommandCode::NvDefineSpace | CommandCode::NvUndefineSpace | CommandCode::NvIncrement
    )
}

// The bytes begin with the header of such a command, and are as many as it says.
fn names_writer(command: &[u8]) -> bool
    ensures { result ≡ names_writer_of (by_grammar header_layout (at_start command.now)) }
{
    match header(command) {
        Ok(headed) => writes_nv(headed.code()),
        Err(_) => false,
    }
}

// The response has a header, and its code is 0.
fn is_success(response: &[u8]) -> bool
    ensures { result ≡ is_success_of response.now }
{
    if response.len() < 10 {
        return false;
    }
    u32::from_be_bytes([response[6], response[7], response[8], response[9]]) == 0
}

/// Whether the device that answered this command with this response has changed its NV memory: the response's
/// code is 0, and the command is TPM2_NV_DefineSpace, TPM2_NV_UndefineSpace or TPM2_NV_Increment. A host keeps
/// the bytes of `put_nv` before it hands out such a response, and need not for any other.
pub fn changes_nv(command: &[u8], response: &[u8]) -> bool
    ensures value { result ≡ changes_nv_of command.now response.now }
    ensures exact { (o : Origin) (h : History) (nonce : List ℕ) →
        response.now ≡ answer o h command.now nonce →
        (result ≡ false) ↔ (nv_memory o (next o h command.now nonce) ≡ nv_memory o h) }
{
    is_success(response) && names_writer(command)
}

impl Device {
    /// Writes the bytes of NV memory into this buffer, whatever is in it: 1,026 at most. At every history at
    /// which the device stands they spell NV memory, and `from_nv` makes a device of them again. They hold
    /// authorization values.
    ///
    /// A host that keeps them before it hands out the response of a command that changed NV memory keeps what
    /// was promised: it makes a device of the last of them, once.
    pub fn put_nv(&self, out: &mut Buffer)
        ensures bytes { out.new.items ≡ spelling kept_memory (holds self.now).nv }
        ensures spells { (o : Origin) (h : History) →
            Stands o h self.now →
            Spells kept_memory (nv_memory o h) out.new.items }
        ensures few { length out.new.items ≤ 1026 }
    {
        out.clear();
        self.counters.has_spelling();
        prove!(self.counters.len() <= KEPT_BYTES);
        self.counters.put(out);
    }

    /// A device of the owner's authorization value and of the bytes of an NV memory, which is not started, has
    /// no session, and has the counters of these bytes. Wherever they come from, their NV memory is fair, and the
    /// device stands at the beginning of a run from it. Where they spell the NV memory of another device, of the
    /// same owner's value, it stands where a power cycle leaves that one. For other bytes the response code and the
    /// position of their first fault, as `Counters::from_bytes` has them.
    pub fn from_nv(owner: &AuthValue, bytes: &[u8]) -> Result<Self, Refusal>
        ensures decodes { Decodes kept_memory (λ d. (holds d).nv) bytes.now result }
        ensures made { IfOk result (λ d. holds d ≡ restored owner.now (holds d).nv) }
        ensures fair { IfOk result (λ d. IsFair (holds d).nv) }
        ensures begins { IfOk result (λ d.
            Stands (record { owner = owner.now; nv = (holds d).nv }) [] d) }
        ensures stands { IfOk result (λ d. (o : Origin) (h : History) →
            o.owner ≡ owner.now →
            Spells kept_memory (nv_memory o h) bytes.now →
            Stands o (PowerCycle ∷ h) d) }
    {
        let mut counters = Counters::new(0);
        counters.read_bytes(bytes)?;
        Ok(Device::of_counters(owner, counters))
    }

    /// A device of the owner's authorization value that has these counters, is not started and has no session. What
    /// they are bound by is said where they were made, as by `Counters::read_bytes`.
    pub fn of_counters(owner: &AuthValue, counters: Counters) -> Self
        ensures made { holds result ≡ restored owner.now counters }
        ensures stands { (o : Origin) (h : History) (bytes : List ℕ) →
            Spells kept_memory counters bytes →
            o.owner ≡ owner.now →
            Spells kept_memory (nv_memory o h) bytes →
            Stands o (PowerCycle ∷ h) result }
    {
        Device {
            owner: Packed::new(owner.as_slice()),
            started: false,
            registers: Registers::new(),
            sessions: no_sessions(),
            counters,
        }
    }

    /// Puts the NV memory that these bytes spell in the place of the device's own; all else stays as it is. On a device
    /// that was just made, that is started neither nor has a session, this makes the device that `from_nv` makes of the
    /// owner's value and these bytes. For other bytes the response code and the position of their first fault, as
    /// `Counters::from_bytes` has them; which NV memory the device has then is not said.
    pub fn read_nv(&mut self, bytes: &[u8]) -> Result<(), Refusal>
        ensures decodes { Decodes kept_memory (λ _. (holds self.new).nv) bytes.now result }
        ensures others { holds self.new ≡ record (holds self.old) { nv = (holds self.new).nv } }
        ensures made { (owner : List ℕ) (greatest : ℕ) →
            Stands (new_origin owner greatest) [] self.old →
            holds self.new ≡ restored owner (holds self.new).nv }
        ensures stands { OnOk result ((o : Origin) (h : History) (greatest : ℕ) →
            Stands (new_origin o.owner greatest) [] self.old →
            Spells kept_memory (nv_memory o h) bytes.now →
            Stands o (PowerCycle ∷ h) self.new) }
    {
        self.counters.read_bytes(bytes)
    }

    /// The counters that are defined, in the order of their definitions: each with its public area as it is now
    /// and its value.
    pub fn counters(&self) -> &[Counter]
        ensures { result.now ≡ (holds self.now).nv.counters }
    {
        self.counters.as_slice()
    }

    /// The greatest value that any counter of the device has had.
    pub fn greatest(&self) -> u64
        ensures { result ≡ (holds self.now).nv.greatest }
    {
        self.counters.greatest()
    }

    /// The hash of the session of this handle, where it is loaded: that of its HMACs and of its policy.
    pub fn session_hash(&self, session: SessionHandle) -> Option<Alg>
        ensures { result ≡ option_map (λ s. s.hash) (loaded (holds self.now).sessions session) }
    {
        match self.sessions.get(session) {
            None => None,
            Some(found) => Some(found.hash()),
        }
    }
}
