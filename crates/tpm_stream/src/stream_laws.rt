//! What holds of frames in a stream.

ghost use Rattle.std.specs.Prelude.{◌≡◌, ◌<◌, ◌⊎◌, ℕ, List, [], ◌∷◌, ◌++◌, Option, length};
ghost use Rattle.std.specs.List.{concat};
ghost use Rattle.tpm_wire.specs.Sources.{OfBytes};
ghost use Rattle.tpm_wire.specs.declared.refusal.Refusal.{Refusal};
ghost use Rattle.tpm_stream.specs.declared.reader.ReadFault.TheVariants.{EndInside, Broken};
ghost use Rattle.tpm_stream.specs.declared.framer.FramerState.TheVariants.{Broken as BrokenFramer};
ghost use Rattle.tpm_stream.specs.Frames.{IsFrame, IsPart, IsBroken, Frames, Push, Pushes, Advances, bad_size};
ghost use Rattle.tpm_stream.specs.Streams.{GivenPieces, ReadInTurn, of_new};

/// Every stream is frames and a rest, in one way, and the rest is part of a frame or has a size that no frame
/// has. A frame before a stream is its first.
pub fn frames_of_a_stream()
    ensures some { (stream : List ℕ)
        → (frames : List (List ℕ)) × (rest : List ℕ) × Frames stream frames rest }
    ensures one { (stream : List ℕ) (frames others : List (List ℕ)) (rest other : List ℕ)
        → Frames stream frames rest → Frames stream others other
        → (frames ≡ others) × (rest ≡ other) }
    ensures rest { (stream : List ℕ) (frames : List (List ℕ)) (rest : List ℕ)
        → Frames stream frames rest → IsPart rest ⊎ IsBroken rest }
    ensures first { (frame stream : List ℕ) (frames : List (List ℕ)) (rest : List ℕ)
        → IsFrame frame → Frames stream frames rest
        → Frames (frame ++ stream) (frame ∷ frames) rest }
{}

/// In whatever pieces a stream comes, what a new framer gives of them are its frames. The framer takes all bytes but
/// those behind a size that no frame has.
pub fn frames_of_pieces()
    ensures some { (pieces : List (List ℕ))
        → (frames : List (List ℕ)) × (held left : List ℕ)
        × GivenPieces (of_new held left) pieces frames }
    ensures frames { (pieces frames : List (List ℕ)) (held left : List ℕ)
        → GivenPieces (of_new held left) pieces frames
        → Frames (concat pieces) frames (held ++ left) }
    ensures split { (pieces others frames found : List (List ℕ)) (held left kept unused : List ℕ)
        → concat pieces ≡ concat others
        → GivenPieces (of_new held left) pieces frames
        → GivenPieces (of_new kept unused) others found
        → (frames ≡ found) × (held ++ left ≡ kept ++ unused) }
    ensures rest { (pieces frames : List (List ℕ)) (held left : List ℕ)
        → GivenPieces (of_new held left) pieces frames
        → (IsPart held × (left ≡ [])) ⊎ IsBroken held }
{}

/// A framer that is broken stays so for ever: a push takes nothing and gives the
/// same refusal, and `next` changes nothing.
pub fn broken_for_ever()
    ensures push { (p : Push) → IsBroken p.old → Pushes p
        → (p.taken ≡ 0) × (p.new ≡ p.old) × (p.state ≡ BrokenFramer bad_size) }
    ensures next { (held new : List ℕ) → IsBroken held → Advances held new → new ≡ held }
{}

/// The frames that are read from a source, up to its end or a size that no frame has, are those of its bytes; and
/// of some bytes, where it doesn't tell them.
pub fn frames_read()
    ensures end { (coming : Option (List ℕ)) (frames : List (List ℕ))
        → ReadInTurn coming frames (Ok None) → OfBytes (λ bytes. Frames bytes frames []) coming }
    ensures inside { (coming : Option (List ℕ)) (frames : List (List ℕ))
        → ReadInTurn coming frames (Err EndInside)
        → OfBytes
        (λ bytes. (rest : List ℕ) × Frames bytes frames rest × IsPart rest × (0 < length rest))
        coming }
    ensures broken { (coming : Option (List ℕ)) (frames : List (List ℕ)) (e : Refusal)
        → ReadInTurn coming frames (Err (Broken e))
        → OfBytes (λ bytes. (rest : List ℕ) × Frames bytes frames rest × IsBroken rest) coming }
{}
