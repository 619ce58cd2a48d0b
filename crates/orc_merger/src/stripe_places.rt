//! Where stripes are in the inputs, and where they go in the merged file.
ghost use Rattle.std.specs.Prelude.{◌≡◌, ◌+◌, ◌<◌, ◌^◌, ◌++◌, IfOk, OnOk};
ghost use Rattle.orc_tail.specs.Stripes.{stripes_length};
ghost use Rattle.orc_merger.specs.Merging.{placed};
ghost use Rattle.orc_merger.specs.Gathering.{pieces_in};

use crate::copying::Piece;
use orc_tail::stripe_length;
use orc_wire::StripeInfo;
use std::alloc::AllocError;

/// Adds stripes at consecutive offsets from `from` on, and returns the offset after the last one.
pub(crate) fn place_stripes(
    into: &mut Vec<StripeInfo>,
    from: u64,
    stripes: &[StripeInfo],
) -> Result<u64, AllocError>
    requires { from + stripes_length stripes.now < 2 ^ 64 }
    ensures stripes { OnOk result (into.new.items ≡ into.old.items ++ placed from stripes.now) }
    ensures end { IfOk result (λ end. end ≡ from + stripes_length stripes.now) }
{
    let mut end = from;
    for stripe in stripes {
        into.push(StripeInfo {
            offset: end,
            ..*stripe
        })?;
        end += stripe_length(*stripe);
    }
    Ok(end)
}

/// Adds where the stripes of the input with this number are in it.
pub(crate) fn add_pieces(
    pieces: &mut Vec<Piece>,
    input: usize,
    stripes: &[StripeInfo],
) -> Result<(), AllocError>
    requires { stripes_length stripes.now < 2 ^ 64 }
    ensures { OnOk result (pieces.new.items ≡ pieces.old.items ++ pieces_in input stripes.now) }
{
    for stripe in stripes {
        pieces.push(Piece {
            input,
            offset: stripe.offset,
            len: stripe_length(*stripe),
        })?;
    }
    Ok(())
}
