//! A meter that shows progress on standard error.
ghost use Rattle.std.specs.Prelude.{◌-◌, ◌≤◌, ◌↔◌, IsTrue};
ghost use Rattle.std.specs.Time.{instant_nanos};

use crate::progress::Progress;
use crate::progress_line::ProgressLine;
use std::cell::Cell;
use std::fs;
use std::rt::{Clock, Files};
use std::time::Instant;

/// As many blanks as the longest line has bytes.
const BLANKS: &str = "                                                ";

/// Shows on standard error how many bytes are done. It shows one line at most once a second, the first after a
/// second, each over the line before. A line that can't be written, or for which the clock can't be read, is left
/// out.
#[derive(Drop)]
pub struct Meter<'r, R: Eprint + Clock> {
    rt: &'r R,
    /// When the last line was shown, or when the work began. `None` if the meter shows nothing.
    last: Cell<Option<Instant>>,
    ahead: Cell<u64>,
    done: Cell<u64>,
    is_shown: Cell<bool>,
}

/// Returns whether at least one second has passed from `last` to `now`.
pub fn is_due(last: Instant, now: Instant) -> bool
    // `true` is returned if and only if at least one second has passed from `last` to `now`.
    ensures { IsTrue result ↔ (1_000_000_000 ≤ instant_nanos now - instant_nanos last) }
{
    now.duration_since(last).as_nanos() >= 1_000_000_000
}

impl<'r, R: Eprint + Clock> Meter<'r, R> {
    /// Makes a meter of work that begins now.
    pub fn new(rt: &'r R) -> Meter<'r, R> {
        Meter::with_start(rt, Instant::now(rt).ok())
    }

    /// Makes a meter that shows nothing and doesn't read the clock.
    pub fn quiet(rt: &'r R) -> Meter<'r, R> {
        Meter::with_start(rt, None)
    }

    /// Makes a meter of work that began at `start`, or one that shows nothing if there is no `start`.
    fn with_start(rt: &'r R, start: Option<Instant>) -> Meter<'r, R> {
        Meter {
            rt,
            last: Cell::new(start),
            ahead: Cell::new(0),
            done: Cell::new(0),
            is_shown: Cell::new(false),
        }
    }

    /// Returns whether a line is to be shown now. If so, the next second begins now.
    fn takes_turn(&self) -> bool {
        let Some(last) = self.last.get() else {
            return false;
        };
        match Instant::now(self.rt) {
            Ok(now) if is_due(last, now) => {
                self.last.set(Some(now));
                true
            }
            _ => false,
        }
    }

    /// Removes the line that is shown. The meter shows no other line afterwards.
    pub fn wipe(&self) {
        self.last.set(None);
        if self.is_shown.replace(false) {
            let _ = eprint!(self.rt; "\r{BLANKS}\r");
        }
    }
}

impl<R: Eprint + Clock> Progress for Meter<'_, R> {
    fn ahead(&self, bytes: u64) {
        self.ahead.set(self.ahead.get().saturating_add(bytes));
    }

    fn done(&self, bytes: u64) {
        self.done.set(self.done.get().saturating_add(bytes));
        if self.takes_turn() {
            let line = ProgressLine::new(self.done.get(), self.ahead.get());
            self.is_shown.set(true);
            let _ = eprint!(self.rt; "\r{BLANKS}\r{line}");
        }
    }
}

/// Returns whether there is a standard error. If there is none, then the next file that is opened gets its number,
/// and what is meant for standard error would be written to that file.
fn has_standard_error<R: Files>(rt: &R) -> bool {
    fs::metadata(rt, "/proc/self/fd/2").is_ok()
}

/// Makes a meter of work that begins now. It shows lines if `is_asked_for` and there is a standard error. It must be
/// made before any file is opened.
pub fn meter_of<R: Eprint + Clock + Files>(rt: &R, is_asked_for: bool) -> Meter<'_, R> {
    if is_asked_for && has_standard_error(rt) {
        Meter::new(rt)
    } else {
        Meter::quiet(rt)
    }
}
