//! A standard error in memory, with a clock that is set by hand.

use std::cell::Cell;
use std::fmt::{self, Display, Write};
use std::io;
use std::rt::Clock;
use std::time::Duration;

/// How many bytes of one print are kept.
const ROOM: usize = 128;

/// What was printed.
#[derive(Clone, Copy)]
pub(crate) struct Printed {
    bytes: [u8; ROOM],
    len: usize,
}

impl Printed {
    /// Nothing.
    fn new() -> Printed {
        Printed {
            bytes: [0; ROOM],
            len: 0,
        }
    }

    /// Its bytes.
    pub(crate) fn bytes(&self) -> &[u8] {
        &self.bytes[..self.len.min(ROOM)]
    }
}

impl fmt::Write for Printed {
    fn write_str(&mut self, text: &str) -> fmt::Result {
        for byte in text.as_bytes() {
            if let Some(at) = self.bytes.get_mut(self.len) {
                *at = *byte;
            }
            self.len = self.len.saturating_add(1);
        }
        Ok(())
    }
}

/// A clock that shows what it is set to, or fails; and a standard error that keeps its last print, or takes none.
#[derive(Drop)]
pub(crate) struct Screen {
    millis: Cell<Option<u64>>,
    printed: Cell<Printed>,
    prints: Cell<usize>,
    is_full: bool,
}

impl Screen {
    /// A screen whose clock shows 0.
    pub(crate) fn new(is_full: bool) -> Screen {
        Screen {
            millis: Cell::new(Some(0)),
            printed: Cell::new(Printed::new()),
            prints: Cell::new(0),
            is_full,
        }
    }

    /// Sets the clock, in milliseconds; without them it fails.
    pub(crate) fn set_clock(&self, millis: Option<u64>) {
        self.millis.set(millis);
    }

    /// What was printed since this was asked last.
    pub(crate) fn take_printed(&self) -> Printed {
        self.printed.replace(Printed::new())
    }

    /// How many prints there were, with those that weren't taken.
    pub(crate) fn prints(&self) -> usize {
        self.prints.get()
    }
}

impl Clock for Screen {
    fn monotonic(&self) -> io::Result<Duration> {
        match self.millis.get() {
            Some(millis) => Ok(Duration::from_millis(millis)),
            None => Err(io::Error::from(io::ErrorKind::Unsupported)),
        }
    }

    fn since_1970(&self) -> io::Result<Duration> {
        self.monotonic()
    }
}

impl Eprint for Screen {
    fn eprint<D: Display + Drop>(&self, value: D) -> io::Result<()> {
        self.prints.set(self.prints.get().saturating_add(1));
        if self.is_full {
            return Err(io::Error::from(io::ErrorKind::StorageFull));
        }
        let mut printed = self.printed.get();
        let _ = write!(printed, "{value}");
        self.printed.set(printed);
        Ok(())
    }

    fn eprintln<D: Display + Drop>(&self, value: D) -> io::Result<()> {
        self.eprint(value)
    }
}
