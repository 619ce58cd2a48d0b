//! Laws of the tails of files. Each function does nothing: its contract is what it is for.
ghost use Rattle.std.specs.Prelude.{◌≡◌, ◌<◌, ◌^◌, ◌⊎◌, ℕ, List, length};
ghost use Rattle.orc_bits.specs.Varint.{AllBytes};
ghost use Rattle.orc_wire.specs.CanonicalMessages.{post_script_text};
ghost use Rattle.orc_tail.specs.Tests.{AreAlike};
ghost use Rattle.orc_tail.specs.Stripes.{stripes_length, IsLaid, AllBefore};
ghost use Rattle.orc_tail.specs.Tails.{IsTail, TailOpenFault};
ghost use Rattle.orc_tail.specs.Images.{image, tail_text, postscript_of, IsWithinLimits, HasBits};
ghost use Rattle.orc_tail.specs.declared.tail.Tail.{Tail};
ghost use Rattle.orc_tail.specs.declared.fault.FileFault.{FileFault};

/// Laws of reading. Bytes have either a tail, and only one, or a fault: that of the first test that they fail. This
/// fault is determined, except that one list of types may have several faults. A tail that bytes have is within the
/// limits, each of its numbers fits its field, and its stripes end within the bytes.
pub fn tail_laws()
    // Bytes have at most one tail.
    ensures one { (bytes : List ℕ) (a b : Tail) → IsTail bytes a → IsTail bytes b → a ≡ b }
    // If bytes fail a test of a tail, then they have no tail.
    ensures none { (bytes : List ℕ) (tail : Tail) (fault : FileFault) → TailOpenFault bytes fault → IsTail bytes tail → ⊥ }
    // Two faults of the same bytes, each of the first test of a tail that they fail, are equal, or both are `BadTypes`.
    ensures single { (bytes : List ℕ) (e f : FileFault) → TailOpenFault bytes e → TailOpenFault bytes f → AreAlike e f }
    // If each number of a list is below 256, then the list as bytes has a tail, or the fault of the first test of a
    // tail that it fails.
    ensures cover { (bytes : List ℕ) → AllBytes bytes → ((tail : Tail) × IsTail bytes tail)
        ⊎ ((fault : FileFault) × TailOpenFault bytes fault) }

    // A tail that bytes have is within the limits.
    ensures limits { (bytes : List ℕ) (tail : Tail) → IsTail bytes tail → IsWithinLimits tail }
    // Each number of a tail that bytes have fits the bits of its field.
    ensures bits { (bytes : List ℕ) (tail : Tail) → IsTail bytes tail → HasBits tail }
    // The stripes of a tail that bytes have end within the bytes.
    ensures within { (bytes : List ℕ) (tail : Tail) → IsTail bytes tail → AllBefore (length bytes) tail.stripes }
{}

/// Laws of writing. If a tail is within the limits and its stripes lie one after the other, then `ORC`, the stripes'
/// bytes and the tail's canonical text are a file with this tail, if they have fewer than 2^64 bytes together. The
/// length of the postscript fits one byte.
pub fn image_laws()
    // If a tail is within the limits, its stripes lie from byte 3 on, one after the other without gaps, each of its
    // numbers fits the bits of its field, and `ORC`, as many bytes as the stripes have together, and the tail's
    // canonical text have fewer than 2^64 bytes, then these bytes, one after the other, have this tail.
    ensures image { (tail : Tail) (stripes : List ℕ) → IsWithinLimits tail → IsLaid 3 tail.stripes → HasBits tail
        → length stripes ≡ stripes_length tail.stripes → length (image stripes tail) < 2 ^ 64
        → IsTail (image stripes tail) tail }
    // If a tail is within the limits, each of its numbers fits the bits of its field, and its canonical text has fewer
    // than 2^64 bytes, then its postscript has fewer than 256 bytes.
    ensures postscript { (tail : Tail) → IsWithinLimits tail → HasBits tail → length (tail_text tail) < 2 ^ 64
        → length (post_script_text.text (postscript_of tail)) < 256 }
{}
