//! What holds of every run of a device, from a new one on, or from one that was made of bytes. Each law stands
//! over what `execute` and `power_cycle` promise.

ghost use Rattle.std.specs.Prelude.{◌≡◌, ◌<◌, ℕ, List, [], ◌∷◌, ◌++◌, Some, None, Ok};
ghost use Rattle.tpm_types.specs.declared.handle_sets.NvAuthHandle.{NvAuthHandle};
ghost use Rattle.tpm_commands.specs.declared.command.CommandBody.TheVariants.{NvIncrement};
ghost use Rattle.tpm_model.specs.Steps.{History, Origin};
ghost use Rattle.tpm_model.specs.Counters.{value_at};
ghost use Rattle.tpm_model.specs.Kept.{IsFair};
ghost use Rattle.tpm_model.specs.Answers.{Done, outcome};
ghost use Rattle.tpm_model.specs.Runs.{Stimulus, after, run};
ghost use Rattle.tpm_model.specs.Premises.{code_in, HasSessionMac, NoncesDiffer, NoCollision};
ghost use Rattle.tpm_model.specs.Lives.{Life, NoncesDifferOver, NoCollisionOver};
ghost use Rattle.tpm_device.specs.declared.device.Device.{Device};
ghost use Rattle.tpm_device.specs.Stands.{holds, Stands};
ghost use Rattle.tpm_device.specs.Runs.{Answers, Call, Executes, given_by, value_on};
ghost use Rattle.tpm_device.specs.Lives.{LivesThrough};

/// The responses of a device to buffers, nonces and power cycles, whatever they are, are the
/// model's run, and the device stands at the history after them.
pub fn answers_are_the_run()
    ensures { (o : Origin) (h : History) (old new : Device) (es : List Stimulus)
        (responses : List (List ℕ)) →
        Stands o h old →
        Answers old es responses new →
        (responses ≡ run o h es) × Stands o (after o h es) new }
{}

/// No replay: where the nonces that a device is given, from its origin on, differ pairwise in their first 16 bytes,
/// and no two different texts that are checked have the same HMAC, it answers no buffer with a
/// session's HMAC twice with code 0.
pub fn no_replay()
    ensures { (o : Origin) (first : Device) (before between later : List Stimulus)
        (responses further : List (List ℕ)) (x y : Call) →
        Stands o [] first →
        Answers first before responses x.old →
        Executes x →
        Answers x.new between further y.old →
        Executes y →
        NoncesDiffer (before ++ given_by x ∷ between ++ given_by y ∷ later) →
        NoCollision o (before ++ given_by x ∷ between ++ given_by y ∷ later) →
        HasSessionMac x.bytes →
        x.bytes ≡ y.bytes →
        code_in x.response ≡ 0 →
        code_in y.response ≡ 0 →
        ⊥ }
{}

/// No counter goes back: on a device whose NV memory was fair at its origin, an increment that is done leaves a value
/// greater than each that the index had before on the device. Where the index had none at the origin, it is
/// greater than the origin's greatest value. What was undefined, defined again or cycled in between changes nothing.
pub fn no_counter_goes_back()
    ensures had { (o : Origin) (first mid : Device) (before between : List Stimulus)
        (responses further : List (List ℕ)) (x : Call) (d : Done) (by : NvAuthHandle) (i w : ℕ) →
        IsFair o.nv →
        Stands o [] first →
        Answers first before responses mid →
        value_on mid i ≡ Some w →
        Answers mid between further x.old →
        Executes x →
        outcome (holds x.old) x.bytes x.nonce ≡ Ok d →
        d.command.body ≡ NvIncrement by i →
        (v : ℕ) × (value_on x.new i ≡ Some v) × (w < v) }
    ensures made { (o : Origin) (first : Device) (before : List Stimulus) (responses : List (List ℕ))
        (x : Call) (d : Done) (by : NvAuthHandle) (i : ℕ) →
        Stands o [] first →
        value_on first i ≡ None →
        Answers first before responses x.old →
        Executes x →
        outcome (holds x.old) x.bytes x.nonce ≡ Ok d →
        d.command.body ≡ NvIncrement by i →
        (v : ℕ) × (value_on x.new i ≡ Some v) × (o.nv.greatest < v) }
{}

/// No replay over a device's lives, of which each is what `from_nv` makes of the bytes that `put_nv` wrote in the one
/// before: where the nonces of all lives differ pairwise in their first 16 bytes, and no two different texts that are
/// checked have the same HMAC, no buffer with a session's HMAC is answered twice with code 0. Calls whose effect the
/// power took are among those that are compared.
pub fn no_replay_over_lives()
    ensures { (o : Origin) (lives : List Life) (all kept xs ys zs : List Call) (x y : Call) →
        LivesThrough (Stands o []) lives all kept →
        all ≡ xs ++ x ∷ ys ++ y ∷ zs →
        NoncesDifferOver lives →
        NoCollisionOver o lives →
        HasSessionMac x.bytes →
        x.bytes ≡ y.bytes →
        code_in x.response ≡ 0 →
        code_in y.response ≡ 0 →
        ⊥ }
{}

/// No counter goes back over a device's lives: where NV memory was fair at the first origin, and an index has a value
/// on the device after a kept call, an increment that is done in a later kept call leaves a greater one, in the same
/// life or in another. Each call whose response was handed out is a kept one. So it is for a value at the first origin;
/// where the index had none there, each leaves more than the first origin's greatest value.
pub fn no_counter_goes_back_over_lives()
    ensures later { (o : Origin) (lives : List Life) (all kept xs ys zs : List Call) (x y : Call)
        (d : Done) (by : NvAuthHandle) (i w : ℕ) →
        IsFair o.nv →
        LivesThrough (Stands o []) lives all kept →
        kept ≡ xs ++ x ∷ ys ++ y ∷ zs →
        value_on x.new i ≡ Some w →
        outcome (holds y.old) y.bytes y.nonce ≡ Ok d →
        d.command.body ≡ NvIncrement by i →
        (v : ℕ) × (value_on y.new i ≡ Some v) × (w < v) }
    ensures had { (o : Origin) (lives : List Life) (all kept xs ys : List Call) (x : Call)
        (d : Done) (by : NvAuthHandle) (i w : ℕ) →
        IsFair o.nv →
        LivesThrough (Stands o []) lives all kept →
        kept ≡ xs ++ x ∷ ys →
        value_at o [] i ≡ Some w →
        outcome (holds x.old) x.bytes x.nonce ≡ Ok d →
        d.command.body ≡ NvIncrement by i →
        (v : ℕ) × (value_on x.new i ≡ Some v) × (w < v) }
    ensures made { (o : Origin) (lives : List Life) (all kept xs ys : List Call) (x : Call)
        (d : Done) (by : NvAuthHandle) (i : ℕ) →
        LivesThrough (Stands o []) lives all kept →
        kept ≡ xs ++ x ∷ ys →
        value_at o [] i ≡ None →
        outcome (holds x.old) x.bytes x.nonce ≡ Ok d →
        d.command.body ≡ NvIncrement by i →
        (v : ℕ) × (value_on x.new i ≡ Some v) × (o.nv.greatest < v) }
{}

/// NV memory stays fair: where it was at the origin of a device, it is after each run.
pub fn nv_memory_stays_fair()
    ensures { (o : Origin) (a b : Device) (es : List Stimulus) (rs : List (List ℕ)) →
        IsFair o.nv →
        Stands o [] a →
        Answers a es rs b →
        IsFair (holds b).nv }
{}
