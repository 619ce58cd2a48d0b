//! Inputs that rest: one of them is open at a time.
ghost use Rattle.std.specs.Prelude.{Some, length};

use crate::assertions::{check_same, demand};
use crate::calls::merged;
use orc_file::{Failures, SliceSource, Source, SourceFault};
use orc_merge::MergeFault;
use orc_test_kit::{EMPTY, FailSink, Full, SEVENS, TWICE, UPWARDS};
use std::alloc::Global;
use std::cell::Cell;
use std::process::Abort;

/// Bytes in memory, open from a read to the next rest. A read fails while another source is open.
#[derive(Drop)]
struct OpenSource<'a> {
    bytes: SliceSource<'a>,
    some_open: &'a Cell<bool>,
    open: bool,
    opened: u32,
    failures: Failures,
}

impl<'a> OpenSource<'a> {
    /// The cell says of all sources whether one of them is open.
    fn new(bytes: &'a [u8], some_open: &'a Cell<bool>) -> OpenSource<'a> {
        OpenSource {
            bytes: SliceSource::new(bytes),
            some_open,
            open: false,
            opened: 0,
            failures: Failures::new(),
        }
    }
}

impl Source for OpenSource<'_> {
    ghost use Rattle.std.specs.Prelude.{refl};

    ghost size = { λ source. length source.bytes.bytes.now };

    ghost told = { λ source. Some source.bytes.bytes.now };

    ghost failures = { λ source. source.failures };

    fn len(&self) -> u64 {
        self.bytes.len()
    }

    fn read_at(&mut self, at: u64, into: &mut [u8]) -> Result<(), SourceFault> {
        if !self.open {
            if self.some_open.get() {
                self.failures.note();
                return Err(SourceFault);
            }
            self.some_open.set(true);
            self.open = true;
            self.opened = self.opened.saturating_add(1);
        }
        self.bytes.read_at(at, into)
    }

    fn rest(&mut self) {
        if self.open {
            self.some_open.set(false);
            self.open = false;
        }
    }

    ghost told_size = { λ _. refl };

    ghost told_bytes = { λ source. source.bytes.are_bytes };
}

/// What was written, and how often each input was opened.
#[derive(Drop)]
struct Rested {
    out: FailSink,
    opened: [u32; 3],
}

/// What comes of merging files without a stripe, with two and with one, for an output that fails once it has got so
/// many bytes: this, and no input is open then.
fn merged_resting(
    rt: &impl Abort,
    alloc: Global,
    room: usize,
    wanted: Result<(), MergeFault>,
) -> Result<Rested, MergeFault> {
    let mut out = FailSink::new(alloc, 200, room, Full::Fails)?;
    let some_open = Cell::new(false);
    let mut inputs = [
        OpenSource::new(&EMPTY, &some_open),
        OpenSource::new(&TWICE, &some_open),
        OpenSource::new(&SEVENS, &some_open),
    ];
    let answer = merged(alloc, &mut inputs, &mut out);
    check_same(rt, "bytes", room as u64, &answer, &wanted);
    demand(rt, !some_open.get(), "none is open, bytes", room as u64);
    let [none, two, one] = &inputs;
    Ok(Rested {
        out,
        opened: [none.opened, two.opened, one.opened],
    })
}

#[test]
fn one_input_is_open_at_a_time(rt: HostRuntime) -> Result<(), MergeFault> {
    let rested = merged_resting(&rt, rt.alloc(), 1000, Ok(()))?;
    // once for the tail, and once for all stripes
    check_same(&rt, "opened of", 3, &rested.opened, &[1, 2, 2]);
    // of that file the stripes' statistics are those of sevens, and two of its numbers aren't
    let mut wanted = UPWARDS;
    wanted[24] = 14;
    wanted[43] = 14;
    demand(&rt, rested.out.bytes() == wanted.as_slice(), "bytes", 226);
    Ok(())
}

#[test]
fn no_input_is_open_after_a_refusal(rt: HostRuntime) -> Result<(), MergeFault> {
    for room in [0, 2, 3, 20, 22, 30, 41, 50, 60, 61, 100] {
        merged_resting(&rt, rt.alloc(), room, Err(MergeFault::WriteFailed))?;
    }
    Ok(())
}
