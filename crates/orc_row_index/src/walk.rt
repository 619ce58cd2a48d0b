//! How far a walk through a column's streams has come.
ghost use Rattle.std.specs.Prelude.{◌≡◌};
ghost use Rattle.orc_positions.specs.RunStarts.{start_of_stream};

use orc_positions::RunStart;

/// How far a column's streams are walked: PRESENT, and the stream of runs besides it.
#[derive(Clone, Copy)]
pub struct Walk {
    /// The place in PRESENT.
    pub present: RunStart,
    /// The place in the stream of runs besides PRESENT.
    pub own: RunStart,
}

impl Walk {
    /// Returns a walk at the start of both streams.
    pub fn start() -> Walk
        // The returned walk is at the start of both streams.
        ensures present { result.present ≡ start_of_stream }
        ensures own { result.own ≡ start_of_stream }
    {
        Walk {
            present: RunStart::start(),
            own: RunStart::start(),
        }
    }
}
