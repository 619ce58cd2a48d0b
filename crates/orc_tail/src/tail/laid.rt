//! Tests whether stripes lie one after the other.
ghost use Rattle.std.specs.Prelude.{◌≡◌};
ghost use Rattle.std.specs.Bool.{OnTrue, OnFalse};
ghost use Rattle.orc_tail.specs.Stripes.{IsLaid};

use crate::tail::Tail;
use crate::tail::extent::stripe_end;
use orc_wire::StripeInfo;

/// Returns whether the stripes lie one after the other, the first one after `ORC`.
fn lie_behind_magic(stripes: &[StripeInfo]) -> bool
    ensures yes { OnTrue result (IsLaid 3 stripes.now) }
    ensures no { OnFalse result (IsLaid 3 stripes.now → ⊥) }
{
    let mut place = 3;
    for stripe in stripes {
        if u128::from(stripe.offset) != place {
            return false;
        }
        place = stripe_end(stripe);
    }
    true
}

impl Tail {
    /// Returns whether the stripes lie one after the other without gaps, the first one after `ORC`, as `put` needs
    /// them.
    pub fn is_laid(&self) -> bool
        // The answer is true if and only if the tail's stripes lie from byte 3 on, one after the other without gaps.
        ensures yes { OnTrue result (IsLaid 3 self.now.stripes) }
        ensures no { OnFalse result (IsLaid 3 self.now.stripes → ⊥) }
    {
        lie_behind_magic(self.stripes.as_slice())
    }
}
