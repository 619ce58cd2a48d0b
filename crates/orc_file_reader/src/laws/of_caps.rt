//! Laws of files that are opened with a cap. The function does nothing: its contract is what it is for.
ghost use Rattle.std.specs.Prelude.{◌≡◌, ◌≤◌, ◌⊎◌, ℕ, List, length};
ghost use Rattle.orc_wire.specs.declared.stripe_info.StripeInfo.{StripeInfo};
ghost use Rattle.orc_values.specs.Shapes.{Shape};
ghost use Rattle.orc_tail.specs.Tails.{IsTail, TailOpenFault};
ghost use Rattle.orc_file_reader.specs.FileRows.{FirstRefused};
ghost use Rattle.orc_tail.specs.Caps.{no_cap, IsCappedTail, CappedFault};
ghost use Rattle.orc_file_reader.specs.StripeCaps.{AllWithin, FirstCapped};
ghost use Rattle.orc_tail.specs.declared.tail.Tail.{Tail};
ghost use Rattle.orc_tail.specs.declared.fault.FileFault.{FileFault};
ghost use Rattle.orc_tail.specs.declared.fault.FileFault.TheVariants.{Limit};

/// Laws of caps. A cap adds one error, `Limit`, and changes nothing else. The greatest cap adds none: bytes have the
/// tail and the faults that they have without a cap. If no stripe is longer than the cap, the first stripe that is
/// refused is the first one that has no rows, with the same fault.
pub fn cap_laws()
    // If bytes have a tail with a cap, then they have this tail without a cap.
    ensures tail { (cap : ℕ) (bytes : List ℕ) (tail : Tail) → IsCappedTail cap bytes tail → IsTail bytes tail }
    // If bytes have a fault with a cap, then they have this fault without a cap, or the fault is `Limit`.
    ensures refusal { (cap : ℕ) (bytes : List ℕ) (fault : FileFault) → CappedFault cap bytes fault
        → TailOpenFault bytes fault ⊎ (fault ≡ Limit) }

    // If there are fewer than 2^64 bytes, then with the greatest cap they have each tail that they have without a cap,
    // and exactly the faults that they have without a cap.
    ensures greatest { (bytes : List ℕ) (tail : Tail) → length bytes ≤ no_cap → IsTail bytes tail
        → IsCappedTail no_cap bytes tail }
    ensures no_refusal { (bytes : List ℕ) (fault : FileFault) → length bytes ≤ no_cap → CappedFault no_cap bytes fault
        → TailOpenFault bytes fault }
    ensures all_refusals { (bytes : List ℕ) (fault : FileFault) → length bytes ≤ no_cap → TailOpenFault bytes fault
        → CappedFault no_cap bytes fault }

    // If no stripe is longer than the cap, then a fault is that of the first stripe that is longer than the cap or has
    // no rows if and only if it is that of the first stripe that has no rows.
    ensures refused { (cap : ℕ) (s : Shape) (bytes : List ℕ) (infos : List StripeInfo) (fault : FileFault)
        → AllWithin cap infos → FirstCapped cap s bytes 0 infos fault → FirstRefused s bytes 0 infos fault }
    ensures first { (cap : ℕ) (s : Shape) (bytes : List ℕ) (infos : List StripeInfo) (fault : FileFault)
        → AllWithin cap infos → FirstRefused s bytes 0 infos fault → FirstCapped cap s bytes 0 infos fault }
{}
