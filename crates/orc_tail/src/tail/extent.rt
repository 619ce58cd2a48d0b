//! The length of a stripe, and the place after it.
ghost use Rattle.std.specs.Prelude.{◌≡◌, ◌<◌, ◌^◌};
ghost use Rattle.orc_tail.specs.Stripes.{stripe_end, stripe_length};

use orc_wire::StripeInfo;

/// Returns the number of bytes of a stripe. The three lengths in its record must have a sum below 2^64.
pub fn stripe_length(stripe: StripeInfo) -> u64
    requires { stripe_length stripe < 2 ^ 64 }
    // If the lengths of the index, the data and the footer in `stripe` are together less than 2^64, then the answer is
    // their sum.
    ensures { result ≡ stripe_length stripe }
{
    stripe.index_length + stripe.data_length + stripe.footer_length
}

/// Returns the place after a stripe, which may need more than 64 bits.
pub(crate) fn stripe_end(stripe: &StripeInfo) -> u128
    ensures { result ≡ stripe_end stripe.now }
{
    u128::from(stripe.offset)
        + (u128::from(stripe.index_length)
            + u128::from(stripe.data_length)
            + u128::from(stripe.footer_length))
}
