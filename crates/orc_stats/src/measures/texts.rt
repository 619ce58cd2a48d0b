//! STRING: the least and the greatest, and the sum of the lengths.
use crate::fault::StatFault;
use crate::measures::{Measures, Sizes};
use crate::seen::Seen;
use crate::stat::Body;
use crate::text_order::{keep_greatest_text, keep_least_text};
use crate::text_parts::{lent_part, owned_part};
use crate::totals::{add_to, in_64, plus, total_of};
use orc_values::Own;
use std::alloc::Global;

/// Measures of texts: the least and the greatest by their bytes, and the sum of their lengths in bytes.
#[derive(Clone, Copy, Debug)]
pub struct Texts<'r> {
    least: Seen<&'r [u8]>,
    greatest: Seen<&'r [u8]>,
    sum: Seen<i128>,
}

impl<'r> Sizes for Texts<'r> {
    ghost use Rattle.orc_stats.specs.Sizes.{total_size};

    ghost size = { λ p. total_size p.sum };
}

impl<'r> Measures<'r> for Texts<'r> {
    ghost use Rattle.std.specs.Prelude.{ℕ, ℤ, List};
    ghost use Rattle.orc_stats.specs.declared.seen.Seen.{Seen};
    ghost use Rattle.orc_stats.specs.Seen.{seen_now};
    ghost use Rattle.orc_stats.specs.declared.kind.StatKind.TheVariants as kind_name;
    ghost use Rattle.orc_stats.specs.Measures as tally;
    ghost use Rattle.orc_stats.specs.laws.OwnCells.{texts_childless};
    ghost use Rattle.orc_stats.specs.laws.TallyKinds.{texts_cells, texts_stats};

    ghost Parts = { Seen (List ℕ) × (Seen (List ℕ) × Seen ℤ) };

    ghost measure = { tally.texts };

    ghost parts = { λ p. (seen_now p.least, (seen_now p.greatest, p.sum)) };

    ghost kind = { kind_name.Texts };

    ghost TakesMemory = { Unit {0} };

    fn none() -> Texts<'r> {
        Texts {
            least: Seen::Nothing,
            greatest: Seen::Nothing,
            sum: Seen::Nothing,
        }
    }

    #[inline(always)]
    fn add_own(&mut self, own: Own<'r>) {
        if let Own::Text(text) = own {
            let bytes = text.as_bytes();
            keep_least_text(&mut self.least, bytes);
            keep_greatest_text(&mut self.greatest, bytes);
            add_to(&mut self.sum, bytes.len() as i128);
        }
    }

    fn of_body(body: &'r Body) -> Texts<'r> {
        let Body::Texts {
            least,
            greatest,
            sum,
        } = body
        else {
            return Texts::none();
        };
        Texts {
            least: lent_part(least),
            greatest: lent_part(greatest),
            sum: total_of(*sum),
        }
    }

    #[inline(always)]
    fn join(&self, other: &Texts<'r>) -> Texts<'r> {
        Texts {
            least: self.least.least(other.least),
            greatest: self.greatest.greatest(other.greatest),
            sum: plus(self.sum, other.sum),
        }
    }

    #[inline(always)]
    fn body(&self, alloc: Global) -> Result<Body, StatFault> {
        Ok(Body::Texts {
            least: owned_part(alloc, self.least)?,
            greatest: owned_part(alloc, self.greatest)?,
            sum: in_64(self.sum),
        })
    }

    ghost childless_kept = { texts_childless };

    ghost cells_are = { λ cells _. texts_cells cells };

    ghost stats_are = { texts_stats };
}
