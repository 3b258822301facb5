//! What holds of scripts. Each law stands over the definitions alone.

ghost use Rattle.std.specs.Prelude.{◌≡◌, ℕ, ◌≤◌, List, [], ◌∷◌, ◌++◌, length};
ghost use Rattle.tpm_model.specs.Steps.{Origin};
ghost use Rattle.tpm_model.specs.Answers.{answer};
ghost use Rattle.tpm_model.specs.Runs.Stimulus.{Given};
ghost use Rattle.tpm_model.specs.Runs.{Stimulus, after};
ghost use Rattle.tpm_model.specs.Premises.{code_in, HasSessionMac, NoncesDiffer, NoCollision};
ghost use Rattle.tpm_output.specs.InputLines.{most_bytes};
ghost use Rattle.tpm_script.specs.Script.{script};

/// The nonces of a script, of at most 16,777,216 bytes, differ pairwise in their first 16 bytes. So there is no
/// replay in a script, whatever the origin of the device that it is run on: where no two different texts that are
/// checked have the same HMAC, no buffer with a session's HMAC is answered twice with code 0.
pub fn no_replay_in_a_script()
    ensures differ { (text : List ℕ) → length text ≤ most_bytes
        → NoncesDiffer (script text).stimuli }
    ensures no_replay { (o : Origin) (text : List ℕ) (es fs gs : List Stimulus) (bytes n m : List ℕ)
        → length text ≤ most_bytes
        → (script text).stimuli ≡ es ++ Given bytes n ∷ fs ++ Given bytes m ∷ gs
        → NoCollision o (script text).stimuli
        → HasSessionMac bytes
        → code_in (answer o (after o [] es) bytes n) ≡ 0
        → code_in (answer o (after o [] (es ++ Given bytes n ∷ fs)) bytes m) ≡ 0
        → ⊥ }
{}
