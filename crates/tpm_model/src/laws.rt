//! What holds of every run. Each law stands over the definitions alone.

ghost use Rattle.std.specs.Prelude.{◌≡◌, ◌↔◌, true, false, ℕ, ◌<◌, ◌^◌, List, [], ◌∷◌, ◌++◌, Some, None, Ok, Err, ◌≤◌};
ghost use Rattle.std.specs.Prelude.{length};
ghost use Rattle.tpm_wire.specs.Token.{Here};
ghost use Rattle.tpm_wire.specs.Path.{Spells};
ghost use Rattle.tpm_types.specs.declared.handle_sets.NvAuthHandle.{NvAuthHandle};
ghost use Rattle.tpm_types.specs.declared.handle_sets.BindHandle.TheVariants.{Owner};
ghost use Rattle.tpm_types.specs.declared.tpms.Auth.{Auth};
ghost use Rattle.tpm_types.specs.Handles.{is_session};
ghost use Rattle.tpm_commands.specs.declared.command.CommandBody.TheVariants.{NvIncrement};
ghost use Rattle.tpm_commands.specs.declared.command.StartAuth.{StartAuth};
ghost use Rattle.tpm_commands.specs.declared.response.StartReply.{StartReply};
ghost use Rattle.tpm_types.specs.declared.command_code.CommandCode.{CommandCode};
ghost use Rattle.tpm_commands.specs.Handles.{handles, needs_authorization};
ghost use Rattle.tpm_commands.specs.Parameters.{parameters};
ghost use Rattle.tpm_commands.specs.declared.command.CommandBody.TheVariants as bodies;
ghost use Rattle.tpm_commands.specs.declared.command.ReplyBody.TheVariants as replies;
ghost use Rattle.tpm_buffer.specs.Commands.{header, authorization, command, code_for};
ghost use Rattle.tpm_hmac.specs.Sessions.{trim};
ghost use Rattle.tpm_model.specs.Steps.{History, PowerCycle, Origin};
ghost use Rattle.tpm_model.specs.Policies.{policy_of};
ghost use Rattle.tpm_model.specs.Sessions.{Session, slot_of, session_at};
ghost use Rattle.tpm_model.specs.NvMemory.{NvMemory, new_nv};
ghost use Rattle.tpm_model.specs.Counters.{nv_memory, value_at};
ghost use Rattle.tpm_model.specs.Kept.{IsFair, kept_memory, restored};
ghost use Rattle.tpm_model.specs.Present.{Present, present};
ghost use Rattle.tpm_model.specs.Authorization.{check_evidence};
ghost use Rattle.tpm_model.specs.Answers.{Presented, presented, Done, outcome, answer, next};
ghost use Rattle.tpm_model.specs.NvChanges.{changes_nv};
ghost use Rattle.tpm_model.specs.InStep.{CallerSession, InStep};
ghost use Rattle.tpm_model.specs.Callers.{started_with, Seal, sealed_command, sealed, waiting, Code, Opened, opened};
ghost use Rattle.tpm_model.specs.Callers.{given_up};
ghost use Rattle.tpm_model.specs.Runs.Stimulus.{Given, Cycled};
ghost use Rattle.tpm_model.specs.Runs.{Stimulus, after, run};
ghost use Rattle.tpm_model.specs.Lives.{Life, Execution, executions, kept_executions, WasAccepted, Increments};
ghost use Rattle.tpm_model.specs.Lives.{value_after, reply_to, NoncesDifferOver, NoCollisionOver, IsOfCallersOver};
ghost use Rattle.tpm_model.specs.Examples.{Examples};
ghost use Rattle.tpm_model.specs.Premises.{IsByGrammar, IsWholeByGrammar, code_in, IsAccepted, HasSessionMac};
ghost use Rattle.tpm_model.specs.Premises.{NoncesDiffer, NoCollision, nonce_bytes, most_nonce, IsReady, rolled};
ghost use Rattle.tpm_model.specs.Premises.{opened_as, Opening, IsOfCallers};
ghost use Rattle.tpm_hmac.specs.Among.{IsAmong};

/// A command is cut where its layout says: what the checks by the grammar let through is what the bytes spell,
/// and what they refuse is refused with the code of the first fault.
pub fn cut_by_the_grammar()
    ensures header { (h : Here) → IsByGrammar header h }
    ensures handles { (code : CommandCode) (h : Here) → IsByGrammar (handles code) h }
    ensures authorization { (tag : ℕ) (h : Here) → IsByGrammar (authorization tag) h }
    ensures parameters { (code : CommandCode) (bytes : List ℕ) →
        IsWholeByGrammar (parameters code) bytes }
{}

/// What is done is what was asked: an accepted buffer spells the command that stands in the step.
pub fn accepted_is_spelled()
    ensures { (p : Present) (bytes n : List ℕ) (d : Done) →
        outcome p bytes n ≡ Ok d →
        Spells command d.command bytes }
{}

/// No replay: in a run, where the nonces handed in differ pairwise in their first 16 bytes and no two different texts
/// that are checked have the same HMAC, no buffer with an HMAC is accepted twice.
pub fn no_replay()
    ensures { (o : Origin) (es fs gs : List Stimulus) (bytes n m : List ℕ) →
        NoncesDiffer (es ++ Given bytes n ∷ fs ++ Given bytes m ∷ gs) →
        NoCollision o (es ++ Given bytes n ∷ fs ++ Given bytes m ∷ gs) →
        HasSessionMac bytes →
        IsAccepted o (after o [] es) bytes n →
        IsAccepted o (after o [] (es ++ Given bytes n ∷ fs)) bytes m →
        ⊥ }
{}

/// No counter goes back: on a device whose NV memory was fair at its origin, an increment that is accepted leaves a
/// value greater than each that the index had before, at the origin too. Where the index had none there, it is
/// greater than the origin's greatest value. What was undefined, defined again or cycled in between changes nothing.
pub fn no_counter_goes_back()
    ensures had { (o : Origin) (es fs : List Stimulus) (bytes n : List ℕ) →
        (d : Done) (by : NvAuthHandle) (i w : ℕ) →
        IsFair o.nv →
        value_at o (after o [] es) i ≡ Some w →
        outcome (present o (after o [] (es ++ fs))) bytes n ≡ Ok d →
        d.command.body ≡ NvIncrement by i →
        (v : ℕ)
        × (value_at o (after o [] (es ++ fs ++ Given bytes n ∷ [])) i ≡ Some v)
        × (w < v) }
    ensures made { (o : Origin) (es : List Stimulus) (bytes n : List ℕ) →
        (d : Done) (by : NvAuthHandle) (i : ℕ) →
        value_at o [] i ≡ None →
        outcome (present o (after o [] es)) bytes n ≡ Ok d →
        d.command.body ≡ NvIncrement by i →
        (v : ℕ)
        × (value_at o (after o [] (es ++ Given bytes n ∷ [])) i ≡ Some v)
        × (o.nv.greatest < v) }
{}

/// No replay over a device's lives, each of which begins from the NV memory that the one before has kept: where the
/// nonces handed in over all lives differ pairwise in their first 16 bytes and no two different texts that are checked
/// have the same HMAC, no buffer with an HMAC is accepted twice, also where the power took what came of it.
pub fn no_replay_over_lives()
    ensures { (o : Origin) (lives : List Life) (xs ys zs : List Execution) (x y : Execution) →
        executions o lives ≡ xs ++ x ∷ ys ++ y ∷ zs →
        NoncesDifferOver lives →
        NoCollisionOver o lives →
        HasSessionMac x.bytes →
        x.bytes ≡ y.bytes →
        WasAccepted x →
        WasAccepted y →
        ⊥ }
{}

/// No counter goes back over a device's lives: where its NV memory was fair at its first origin, and an index has a
/// value after a kept stimulus, a later kept increment leaves a greater one, in the same life or in another. So it is
/// for a value that the index had at the first origin. Where it had none there, each kept increment leaves more than
/// the first origin's greatest value. What was lost, undefined, defined again or cycled in between changes nothing.
pub fn no_counter_goes_back_over_lives()
    ensures later { (o : Origin) (lives : List Life)
        (xs ys zs : List Execution) (x y : Execution) (i w : ℕ) →
        IsFair o.nv →
        kept_executions o lives ≡ xs ++ x ∷ ys ++ y ∷ zs →
        value_after x i ≡ Some w →
        Increments y i →
        (v : ℕ) × (value_after y i ≡ Some v) × (w < v) }
    ensures had { (o : Origin) (lives : List Life)
        (xs ys : List Execution) (x : Execution) (i w : ℕ) →
        IsFair o.nv →
        kept_executions o lives ≡ xs ++ x ∷ ys →
        value_at o [] i ≡ Some w →
        Increments x i →
        (v : ℕ) × (value_after x i ≡ Some v) × (w < v) }
    ensures made { (o : Origin) (lives : List Life)
        (xs ys : List Execution) (x : Execution) (i : ℕ) →
        kept_executions o lives ≡ xs ++ x ∷ ys →
        value_at o [] i ≡ None →
        Increments x i →
        (v : ℕ) × (value_after x i ≡ Some v) × (o.nv.greatest < v) }
{}

/// NV memory stays fair: that of a new device is, all that bytes spell is, and where it was at the origin it is after
/// each run.
pub fn nv_memory_stays_fair()
    ensures new { (greatest : ℕ) → IsFair (new_nv greatest) }
    ensures spelled { (nv : NvMemory) (bytes : List ℕ) → Spells kept_memory nv bytes → IsFair nv }
    ensures stays { (o : Origin) (es : List Stimulus) →
        IsFair o.nv →
        IsFair (nv_memory o (after o [] es)) }
{}

/// A device that is kept: what is made of the owner's value and of the bytes of a device's NV memory is what a
/// power cycle leaves of that device. So making it again is one power cycle of a run: the answers and the
/// history go on after it, and what holds of every run holds across it.
pub fn restored_is_cycled()
    ensures stands { (o : Origin) (h : History) (nv : NvMemory) (bytes : List ℕ) →
        Spells kept_memory (nv_memory o h) bytes →
        Spells kept_memory nv bytes →
        restored o.owner nv ≡ present o (PowerCycle ∷ h) }
    ensures begins { (owner : List ℕ) (nv : NvMemory) →
        restored owner nv ≡ present (record { owner = owner; nv = nv }) [] }
    ensures runs { (o : Origin) (es fs : List Stimulus) (nv : NvMemory) (bytes : List ℕ) →
        Spells kept_memory (nv_memory o (after o [] es)) bytes →
        Spells kept_memory nv bytes →
        (restored o.owner nv ≡ present o (after o [] (es ++ Cycled ∷ [])))
        × (run o [] (es ++ Cycled ∷ fs)
        ≡ run o [] es ++ run o (after o [] (es ++ Cycled ∷ [])) fs)
        × (after o [] (es ++ Cycled ∷ fs) ≡ after o (after o [] (es ++ Cycled ∷ [])) fs) }
{}

/// A command and its answer tell whether NV memory was changed: where they don't say so it is as before, and
/// otherwise another.
pub fn nv_changes_are_told()
    ensures { (o : Origin) (h : History) (bytes n : List ℕ) →
        (changes_nv bytes (answer o h bytes n) ≡ false)
        ↔ (nv_memory o (next o h bytes n) ≡ nv_memory o h) }
{}

/// A policy serves once: a session that has authorized a command, and is still there, asserts nothing.
pub fn policy_starts_again()
    ensures { (o : Origin) (h : History) (bytes n : List ℕ) (d : Done) (a : Auth) (s : Session) →
        outcome (present o h) bytes n ≡ Ok d →
        d.command.auths.items ≡ a ∷ [] →
        is_session a.session ≡ true →
        session_at o (next o h bytes n) (slot_of a.session) ≡ Some s →
        s.policy ≡ policy_of s.hash [] }
{}

/// Answers worked out from the definitions alone, byte for byte: those that need no hash.
pub fn worked_examples()
    ensures { Examples }
{}

/// What is done is answered with code 0.
pub fn done_with_code_zero()
    ensures { (o : Origin) (h : History) (bytes n : List ℕ) (d : Done) →
        outcome (present o h) bytes n ≡ Ok d →
        code_in (answer o h bytes n) ≡ 0 }
{}

/// What is not done is answered with its code, which is not 0 and has four bytes.
pub fn refused_with_a_code()
    ensures some { (p : Present) (bytes n : List ℕ) (code : ℕ) →
        outcome p bytes n ≡ Err code →
        (0 < code) × (code < 2 ^ 32) }
    ensures answered { (o : Origin) (h : History) (bytes n : List ℕ) (code : ℕ) →
        outcome (present o h) bytes n ≡ Err code →
        code_in (answer o h bytes n) ≡ code }
{}

/// In step: a caller that is made from an accepted start and the owner's value is in step after it. Where a
/// caller in step seals a command with the present Names and the authValue that the rules ask for, the last
/// check does not fail; a reply of code 0 is opened as that very response, and a caller that is kept is in step
/// afterwards; a reply of another code is opened as that code, and gives the caller back, in step.
pub fn in_step()
    ensures starts { (o : Origin) (h : History) (bytes n : List ℕ) (d : Done) →
        (q : StartAuth) (r : StartReply) (auth : List ℕ) →
        outcome (present o h) bytes n ≡ Ok d →
        d.command.body ≡ bodies.StartAuthSession q →
        d.reply.body ≡ replies.StartAuthSession r →
        length n ≡ nonce_bytes →
        (q.bind ≡ Owner → trim auth ≡ trim o.owner) →
        (c : CallerSession) × (started_with q r auth ≡ Some c) × InStep o (next o h bytes n) c }
    ensures passes { (o : Origin) (h : History) (s : Seal) (x : Presented) →
        IsReady o h s →
        presented (present o h) (sealed s) ≡ Ok x →
        check_evidence x.entity x.evidence ≡ Ok tt }
    ensures opens { (o : Origin) (h : History) (s : Seal) (n : List ℕ) (d : Done) →
        IsReady o h s →
        length s.caller.nonce ≤ most_nonce →
        length n ≡ nonce_bytes →
        outcome (present o h) (sealed s) n ≡ Ok d →
        opened (waiting s) (answer o h (sealed s) n) ≡ Ok (opened_as s d n) }
    ensures keeps { (o : Origin) (h : History) (s : Seal) (n : List ℕ) (d : Done) →
        IsReady o h s →
        length s.caller.nonce ≤ most_nonce →
        length n ≡ nonce_bytes →
        s.keep ≡ true →
        outcome (present o h) (sealed s) n ≡ Ok d →
        InStep o (next o h (sealed s) n) (rolled s.caller n) }
    ensures stays { (o : Origin) (h : History) (s : Seal) (n : List ℕ) (code : ℕ) →
        InStep o h s.caller →
        outcome (present o h) (sealed s) n ≡ Err code →
        (opened (waiting s) (answer o h (sealed s) n) ≡ Err (Code code))
        × (given_up (waiting s) (answer o h (sealed s) n) ≡ Some s.caller)
        × InStep o (next o h (sealed s) n) s.caller }
{}

/// No mixed replies: in a run whose accepted commands with session HMACs are sealed by callers, with nonceCallers that
/// differ pairwise, and where no two different texts have the same HMAC, a reply that a Waiting opens is the reply to
/// its own buffer, and there is one such reply.
pub fn no_mixed_replies()
    ensures own { (o : Origin) (seals : List Seal) (openings : List Opening) →
        (es fs : List Stimulus) (bytes n : List ℕ) (s : Seal) (w : Opened) →
        IsOfCallers o seals openings (es ++ Given bytes n ∷ fs) →
        IsAmong s seals →
        needs_authorization (code_for s.body) ≡ true →
        IsAmong (record { seal = s; bytes = answer o (after o [] es) bytes n }) openings →
        opened (waiting s) (answer o (after o [] es) bytes n) ≡ Ok w →
        IsAccepted o (after o [] es) bytes n × Spells command (sealed_command s) bytes }
    ensures once { (o : Origin) (seals : List Seal) (openings : List Opening) →
        (es fs gs : List Stimulus) (bytes other n m : List ℕ) (s : Seal) (w v : Opened) →
        NoncesDiffer (es ++ Given bytes n ∷ fs ++ Given other m ∷ gs) →
        IsOfCallers o seals openings (es ++ Given bytes n ∷ fs ++ Given other m ∷ gs) →
        IsAmong s seals →
        needs_authorization (code_for s.body) ≡ true →
        IsAmong (record { seal = s; bytes = answer o (after o [] es) bytes n }) openings →
        IsAmong
        (record { seal = s; bytes = answer o (after o [] (es ++ Given bytes n ∷ fs)) other m })
        openings →
        opened (waiting s) (answer o (after o [] es) bytes n) ≡ Ok w →
        opened (waiting s) (answer o (after o [] (es ++ Given bytes n ∷ fs)) other m) ≡ Ok v →
        ⊥ }
{}

/// No mixed replies over a device's lives: where the commands with session HMACs that are accepted in all lives are
/// sealed by callers, with nonceCallers that differ pairwise, and no two different texts have the same HMAC, a reply of
/// any life that a Waiting opens is the reply to its own buffer, also where the power took what came of it. Where the
/// nonces handed in over all lives differ pairwise in their first 16 bytes, there is one such reply in all of them.
pub fn no_mixed_replies_over_lives()
    ensures own { (o : Origin) (lives : List Life) (seals : List Seal) (openings : List Opening) →
        (x : Execution) (s : Seal) (w : Opened) →
        IsOfCallersOver o seals openings lives →
        IsAmong x (executions o lives) →
        IsAmong s seals →
        needs_authorization (code_for s.body) ≡ true →
        IsAmong (record { seal = s; bytes = reply_to x }) openings →
        opened (waiting s) (reply_to x) ≡ Ok w →
        WasAccepted x × Spells command (sealed_command s) x.bytes }
    ensures once { (o : Origin) (lives : List Life) (seals : List Seal) (openings : List Opening) →
        (xs ys zs : List Execution) (x y : Execution) (s : Seal) (w v : Opened) →
        executions o lives ≡ xs ++ x ∷ ys ++ y ∷ zs →
        NoncesDifferOver lives →
        IsOfCallersOver o seals openings lives →
        IsAmong s seals →
        needs_authorization (code_for s.body) ≡ true →
        IsAmong (record { seal = s; bytes = reply_to x }) openings →
        IsAmong (record { seal = s; bytes = reply_to y }) openings →
        opened (waiting s) (reply_to x) ≡ Ok w →
        opened (waiting s) (reply_to y) ≡ Ok v →
        ⊥ }
{}
