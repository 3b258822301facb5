//! What holds of callers and of a device. Each law stands over the definitions alone: a caller is its
//! session, and what `seal` makes is what is sent.

ghost use Rattle.std.specs.Prelude.{◌≡◌, ◌↔◌, ◌≤◌, true, ℕ, List, [], ◌∷◌, ◌++◌, length, Some, Ok, Err};
ghost use Rattle.tpm_wire.specs.declared.refusal.Refusal.{Refusal};
ghost use Rattle.tpm_wire.specs.Path.{Spells, Fault};
ghost use Rattle.tpm_types.specs.declared.handle_sets.BindHandle.TheVariants.{Owner};
ghost use Rattle.tpm_commands.specs.declared.command.CommandBody.TheVariants as bodies;
ghost use Rattle.tpm_commands.specs.declared.command.CommandBody.{CommandBody};
ghost use Rattle.tpm_commands.specs.declared.command.StartAuth.{StartAuth};
ghost use Rattle.tpm_commands.specs.declared.response.StartReply.{StartReply};
ghost use Rattle.tpm_commands.specs.Handles.{needs_authorization, handle_kinds};
ghost use Rattle.tpm_commands.specs.declared.command.ReplyBody.TheVariants as replies;
ghost use Rattle.tpm_commands.specs.declared.response.Response.TheVariants as responses;
ghost use Rattle.tpm_buffer.specs.Commands.{command, code_for, handles_of};
ghost use Rattle.tpm_buffer.specs.Responses.{response};
ghost use Rattle.tpm_hmac.specs.Sessions.{trim};
ghost use Rattle.tpm_model.specs.Steps.{History, Origin};
ghost use Rattle.tpm_model.specs.Present.{present};
ghost use Rattle.tpm_model.specs.Authorization.{check_evidence};
ghost use Rattle.tpm_model.specs.Answers.{Presented, presented, Done, outcome, answer, next};
ghost use Rattle.tpm_model.specs.InStep.{CallerSession, InStep};
ghost use Rattle.tpm_model.specs.Callers.{started_with, Seal, sealed_command, Waiting, Refused, Code, NotExpected};
ghost use Rattle.tpm_model.specs.Callers.{WrongMac, Opened, opened, given_up};
ghost use Rattle.tpm_model.specs.Runs.Stimulus.{Given};
ghost use Rattle.tpm_model.specs.Runs.{Stimulus, after};
ghost use Rattle.tpm_model.specs.Lives.{Life, Execution, executions, reply_to, WasAccepted, NoncesDifferOver};
ghost use Rattle.tpm_model.specs.Lives.{IsOfCallersOver};
ghost use Rattle.tpm_model.specs.Premises.{IsAccepted, NoncesDiffer, nonce_bytes, most_nonce, IsReady, rolled};
ghost use Rattle.tpm_model.specs.Premises.{opened_as, Opening, IsOfCallers};
ghost use Rattle.tpm_hmac.specs.Among.{IsAmong};
ghost use Rattle.tpm_caller.specs.Sent.{with_hmac_key, sent};
ghost use Rattle.tpm_caller.specs.Opens.{IsOpened, IsNotExpected, HasWrongMac, IsGivenUp};

/// What is opened, in the words of tokens: the one session of a response of code 0 has a nonceTPM of the session's
/// length and the HMAC of that nonceTPM, the command's nonceCaller and the response's attributes. What is not is the
/// first of the four faults. Bytes are given up exactly where they spell a response of another code.
pub fn what_is_opened()
    ensures opened { (w : Waiting) (bytes : List ℕ) (x : Opened) → (opened w bytes ≡ Ok x)
        ↔ IsOpened w bytes x }
    ensures refused { (w : Waiting) (bytes : List ℕ) (e : Refusal)
        → (opened w bytes ≡ Err (Refused e)) ↔ Fault (response w.code) bytes e }
    ensures code { (w : Waiting) (bytes : List ℕ) (n : ℕ) → (opened w bytes ≡ Err (Code n))
        ↔ Spells (response w.code) (responses.Code n) bytes }
    ensures not_expected { (w : Waiting) (bytes : List ℕ) → (opened w bytes ≡ Err NotExpected)
        ↔ IsNotExpected w bytes }
    ensures wrong_mac { (w : Waiting) (bytes : List ℕ) → (opened w bytes ≡ Err WrongMac)
        ↔ HasWrongMac w bytes }
    ensures given_up { (w : Waiting) (bytes : List ℕ) (c : CallerSession)
        → (given_up w bytes ≡ Some c) ↔ IsGivenUp w bytes c }
{}

/// A command has as many handles as its code says (`CommandCode::handles`): so many Names are handed in where it is
/// sealed.
pub fn as_many_handles()
    ensures { (body : CommandBody) → length (handles_of body)
        ≡ length (handle_kinds (code_for body)) }
{}

/// A key that is kept as its digest opens what the key itself would open.
pub fn one_key()
    ensures opened { (w : Waiting) (bytes : List ℕ)
        → opened (with_hmac_key w) bytes ≡ opened w bytes }
    ensures given_up { (w : Waiting) (bytes : List ℕ)
        → given_up (with_hmac_key w) bytes ≡ given_up w bytes }
{}

/// Two ends in step: a caller that is made from an accepted start, its reply and the owner's value is in step after
/// it. Where a caller in step seals a command with the present Names and the authorization value that the rules ask
/// for, the last check does not fail; a reply of code 0 is opened as that very response, and a caller that is kept is
/// in step afterwards; a reply of another code is opened as that code, and gives the caller back, in step.
pub fn two_ends_in_step()
    ensures starts { (o : Origin) (h : History) (bytes n : List ℕ) (d : Done) (q : StartAuth)
        (r : StartReply) (auth : List ℕ) →
        outcome (present o h) bytes n ≡ Ok d →
        d.command.body ≡ bodies.StartAuthSession q → d.reply.body ≡ replies.StartAuthSession r →
        length n ≡ nonce_bytes → (q.bind ≡ Owner → trim auth ≡ trim o.owner) →
        (c : CallerSession) × (started_with q r auth ≡ Some c) × InStep o (next o h bytes n) c }
    ensures passes { (o : Origin) (h : History) (s : Seal) (x : Presented) → IsReady o h s
        → presented (present o h) (sent s).bytes ≡ Ok x
        → check_evidence x.entity x.evidence ≡ Ok tt }
    ensures opens { (o : Origin) (h : History) (s : Seal) (n : List ℕ) (d : Done) → IsReady o h s
        → length s.caller.nonce ≤ most_nonce → length n ≡ nonce_bytes →
        outcome (present o h) (sent s).bytes n ≡ Ok d →
        opened (sent s).waiting (answer o h (sent s).bytes n) ≡ Ok (opened_as s d n) }
    ensures keeps { (o : Origin) (h : History) (s : Seal) (n : List ℕ) (d : Done) → IsReady o h s
        → length s.caller.nonce ≤ most_nonce → length n ≡ nonce_bytes → s.keep ≡ true →
        outcome (present o h) (sent s).bytes n ≡ Ok d →
        InStep o (next o h (sent s).bytes n) (rolled s.caller n) }
    ensures stays { (o : Origin) (h : History) (s : Seal) (n : List ℕ) (code : ℕ)
        → InStep o h s.caller → outcome (present o h) (sent s).bytes n ≡ Err code →
        (opened (sent s).waiting (answer o h (sent s).bytes n) ≡ Err (Code code))
        × (given_up (sent s).waiting (answer o h (sent s).bytes n) ≡ Some s.caller)
        × InStep o (next o h (sent s).bytes n) s.caller }
{}

/// No mixed replies: in a device's run from its origin whose accepted commands with session HMACs are sealed by
/// callers, with nonceCallers that differ pairwise, and where no two different texts have the same HMAC, a reply that
/// a `Waiting` opens is the reply to its own buffer, and there is one such reply.
pub fn no_mixed_replies()
    ensures own { (o : Origin) (seals : List Seal) (openings : List Opening) (es fs : List Stimulus)
        (bytes n : List ℕ) (s : Seal) (w : Opened) →
        IsOfCallers o seals openings (es ++ Given bytes n ∷ fs) →
        IsAmong s seals → needs_authorization (code_for s.body) ≡ true →
        IsAmong (record { seal = s; bytes = answer o (after o [] es) bytes n }) openings →
        opened (sent s).waiting (answer o (after o [] es) bytes n) ≡ Ok w →
        IsAccepted o (after o [] es) bytes n × Spells command (sealed_command s) bytes }
    ensures once { (o : Origin) (seals : List Seal) (openings : List Opening)
        (es fs gs : List Stimulus) (bytes other n m : List ℕ) (s : Seal) (w v : Opened) →
        NoncesDiffer (es ++ Given bytes n ∷ fs ++ Given other m ∷ gs) →
        IsOfCallers o seals openings (es ++ Given bytes n ∷ fs ++ Given other m ∷ gs) →
        IsAmong s seals → needs_authorization (code_for s.body) ≡ true →
        IsAmong (record { seal = s; bytes = answer o (after o [] es) bytes n }) openings →
        IsAmong (record {
          seal = s;
          bytes = answer o (after o [] (es ++ Given bytes n ∷ fs)) other m;
        }) openings →
        opened (sent s).waiting (answer o (after o [] es) bytes n) ≡ Ok w →
        opened (sent s).waiting (answer o (after o [] (es ++ Given bytes n ∷ fs)) other m) ≡ Ok v →
        ⊥ }
{}

/// No mixed replies over a device's lives, each of which begins from the NV memory that the one before has kept: where
/// the commands with session HMACs that are accepted in all of them are sealed by callers, with nonceCallers that
/// differ pairwise, and no two different texts have the same HMAC, a reply of any life that a `Waiting` opens is the
/// reply to its own buffer. Where the device's nonces differ in their first 16 bytes, there is one such reply in all.
pub fn no_mixed_replies_over_lives()
    ensures own { (o : Origin) (lives : List Life) (seals : List Seal) (openings : List Opening)
        (x : Execution) (s : Seal) (w : Opened) →
        IsOfCallersOver o seals openings lives → IsAmong x (executions o lives) →
        IsAmong s seals → needs_authorization (code_for s.body) ≡ true →
        IsAmong (record { seal = s; bytes = reply_to x }) openings →
        opened (sent s).waiting (reply_to x) ≡ Ok w →
        WasAccepted x × Spells command (sealed_command s) x.bytes }
    ensures once { (o : Origin) (lives : List Life) (seals : List Seal) (openings : List Opening)
        (xs ys zs : List Execution) (x y : Execution) (s : Seal) (w v : Opened) →
        executions o lives ≡ xs ++ x ∷ ys ++ y ∷ zs → NoncesDifferOver lives →
        IsOfCallersOver o seals openings lives →
        IsAmong s seals → needs_authorization (code_for s.body) ≡ true →
        IsAmong (record { seal = s; bytes = reply_to x }) openings →
        IsAmong (record { seal = s; bytes = reply_to y }) openings →
        opened (sent s).waiting (reply_to x) ≡ Ok w →
        opened (sent s).waiting (reply_to y) ≡ Ok v →
        ⊥ }
{}
