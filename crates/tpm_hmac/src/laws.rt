//! What holds of every digest, every MAC, every derived key and every trimmed value.

ghost use Rattle.std.specs.Prelude.{◌≡◌, ◌≢◌, ℕ, List, [], ◌∷◌, ◌++◌, length, replicate};
ghost use Rattle.tpm_types.specs.declared.alg.Alg.{Alg};
ghost use Rattle.tpm_types.specs.Alg.{digest_len};
ghost use Rattle.tpm_hmac.specs.Hashes.{digest};
ghost use Rattle.tpm_hmac.specs.Hmac.{hmac, kdfa};
ghost use Rattle.tpm_hmac.specs.Sessions.{trim};

/// Each digest and each MAC has its hash's length, and a derived key the length that is asked for.
pub fn lengths()
    ensures digests { (alg : Alg) (message : List ℕ) →
        length (digest alg message) ≡ digest_len alg }
    ensures macs { (alg : Alg) (key text : List ℕ) → length (hmac alg key text) ≡ digest_len alg }
    ensures derived_keys { (alg : Alg) (key label context_u context_v : List ℕ) (n : ℕ) →
        length (kdfa alg key label context_u context_v n) ≡ n }
{}

/// What is trimmed off is zeros, and all of them: what is left does not end in one, and is not trimmed further.
pub fn trimmed()
    ensures zeros { (bytes : List ℕ) → (count : ℕ) × (bytes ≡ trim bytes ++ replicate count 0) }
    ensures last { (bytes front : List ℕ) → trim bytes ≢ front ++ 0 ∷ [] }
    ensures again { (bytes : List ℕ) → trim (trim bytes) ≡ trim bytes }
{}
