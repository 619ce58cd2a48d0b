//! How many runs were decoded into a run.
ghost use Rattle.std.specs.Prelude.{◌≡◌, ◌+◌};

use std::marker::Model;
use std::snapshot::Snapshot;

/// How many runs were decoded. It takes no memory and has no bound, since contracts alone see it: it is
/// none, or one more than it was before, and a snapshot keeps what it was.
#[derive(Drop)]
pub(crate) struct RunCount {
    before: Option<Snapshot<RunCount>>,
}

impl Model for RunCount {
    ghost use Rattle.std.specs.Prelude.{ℕ};
    ghost use Rattle.orc_rle.specs.Counting.{runs_counted};

    ghost Value = { ℕ };

    ghost view = { λ runs. runs_counted runs.before };

    ghost size = { λ n. n };
}

impl RunCount {
    /// No run yet.
    pub(crate) fn new() -> RunCount
        ensures { result ≡ 0 }
    {
        RunCount { before: None }
    }

    /// One run more.
    pub(crate) fn note(&mut self)
        ensures { self.new ≡ self.old + 1 }
    {
        let before = Snapshot::of(self);
        *self = RunCount {
            before: Some(before),
        };
    }
}
