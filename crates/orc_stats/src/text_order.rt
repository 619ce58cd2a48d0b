//! The order of texts by their bytes, and the least and the greatest text by it.
ghost use Rattle.std.specs.Prelude.{◌≡◌};
ghost use Rattle.std.specs.Ordering.{flip_args};
ghost use Rattle.orc_stats.specs.Seen.{both, seen_now};
ghost use Rattle.orc_stats.specs.Statistics.{lower, text_cmp};
ghost use Rattle.orc_stats.specs.declared.seen.Seen.TheVariants.{Known};

use crate::seen::Seen;
use std::cmp::Ordering;

/// How many bytes are compared one by one, in place: most texts differ within them.
const FIRST_BYTES: usize = 8;

/// Compares two texts by their bytes. The standard library compares the bytes after the first few, many together.
#[inline(always)]
fn compare(x: &[u8], y: &[u8]) -> Ordering
    ensures { result ≡ text_cmp x.now y.now }
{
    let few = x.len().min(y.len()).min(FIRST_BYTES);
    for place in 0..few {
        if x[place] != y[place] {
            return x[place].cmp(&y[place]);
        }
    }
    x[few..].cmp(&y[few..])
}

/// Becomes the least of the texts that were seen and of one more.
#[inline(always)]
pub(crate) fn keep_least_text<'r>(least: &mut Seen<&'r [u8]>, text: &'r [u8])
    ensures { seen_now least.new ≡ both (lower text_cmp) (seen_now least.old) (Known text.now) }
{
    match least {
        Seen::Known(so_far) => {
            if compare(*so_far, text).is_gt() {
                *so_far = text;
            }
        }
        Seen::Nothing => *least = Seen::Known(text),
        Seen::Unknown => {}
    }
}

/// Becomes the greatest of the texts that were seen and of one more.
#[inline(always)]
pub(crate) fn keep_greatest_text<'r>(greatest: &mut Seen<&'r [u8]>, text: &'r [u8])
    ensures { seen_now greatest.new ≡ both (lower (flip_args text_cmp)) (seen_now greatest.old) (Known text.now) }
{
    match greatest {
        Seen::Known(so_far) => {
            if compare(text, *so_far).is_gt() {
                *so_far = text;
            }
        }
        Seen::Nothing => *greatest = Seen::Known(text),
        Seen::Unknown => {}
    }
}
