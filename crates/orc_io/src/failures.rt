//! The count of a device's failures.
ghost use Rattle.std.specs.Prelude.{◌≡◌, ◌+◌};

use std::marker::Model;
use std::snapshot::Snapshot;

/// How often a device has failed. The count takes no memory and has no bound, since only contracts see it: it is none,
/// or one more than before, and a snapshot keeps what it was before.
#[derive(Drop)]
pub struct Failures {
    before: Option<Snapshot<Failures>>,
}

impl Model for Failures {
    ghost use Rattle.std.specs.Prelude.{ℕ};
    ghost use Rattle.orc_io.specs.Failures.{failures_counted};

    ghost Value = { ℕ };

    ghost view = { λ failures. failures_counted failures.before };

    ghost size = { λ n. n };
}

impl Failures {
    /// Makes a count of no failures.
    pub fn new() -> Failures
        // The returned count of failures is 0.
        ensures { result ≡ 0 }
    {
        Failures { before: None }
    }

    /// Counts one failure more.
    pub fn note(&mut self)
        // The call raises the count of failures by one.
        ensures { self.new ≡ self.old + 1 }
    {
        let before = Snapshot::of(self);
        *self = Failures {
            before: Some(before),
        };
    }
}
