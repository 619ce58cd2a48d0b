//! New files that are asked to keep what they have got, and answers beside an output that failed.
ghost use Rattle.std.specs.Prelude.{◌≡◌, true};

use crate::assertions::{check_bytes, check_same};
use crate::devices::{CountedOut, Refused};
use orc_cli_args::Refusal;
use orc_cli_commands::{CliFault, Durable, Ending, NewFile, Outcome, with_output};
use orc_file::{FileFault, Sink, SinkFault};
use orc_types::JsonFault;
use std::alloc::Global;
use std::cell::Cell;
use std::io::{self, BufWriter, Write};
use std::process::Abort;

/// What is written, in one call.
const BYTES: &[u8] = b"ORC and more";

/// An output that notes how often it was asked to keep its bytes, and how many it had got then.
#[derive(Drop)]
struct KeptOut<'a> {
    out: CountedOut<'a>,
    sent: &'a Cell<usize>,
    asked: &'a Cell<usize>,
    had: &'a Cell<usize>,
    refuses: bool,
    keeps: bool,
}

impl Write for KeptOut<'_> {
    fn write(&mut self, bytes: &[u8]) -> io::Result<usize> {
        self.keeps = false;
        self.out.write(bytes)
    }

    fn flush(&mut self) -> io::Result<()> {
        self.out.flush()
    }
}

impl Durable for KeptOut<'_> {
    ghost durable = { λ out. out.keeps ≡ true };

    fn sync(&mut self) -> io::Result<()> {
        self.asked.set(self.asked.get().saturating_add(1));
        self.had.set(self.sent.get());
        if self.refuses {
            return Err(io::Error::from(io::ErrorKind::StorageFull));
        }
        self.keeps = true;
        Ok(())
    }
}

/// A file behind a buffer, of which a call may be refused, and what comes of it.
struct Case {
    /// How many bytes the buffer holds. What is longer goes to the file at once.
    room: usize,
    /// The write to the file that is refused, counted from 1, or 0.
    kth: usize,
    /// Whether the file refuses to keep its bytes.
    refuses: bool,
    /// What the write of the bytes answers, and what finishing the file does.
    taken: Result<usize, SinkFault>,
    fault: Option<CliFault>,
    /// How often the file is asked to keep its bytes, and how many it has got by then, and in the end.
    asked: usize,
    had: usize,
    sent: usize,
}

const FAILED: Option<CliFault> = Some(CliFault::File(FileFault::WriteFailed));

/// Refused calls aren't made again. The file takes seven bytes a call at most.
static CASES: [Case; 5] = [
    Case {
        room: 16,
        kth: 0,
        refuses: false,
        taken: Ok(12),
        fault: None,
        asked: 1,
        had: 12,
        sent: 12,
    },
    Case {
        room: 16,
        kth: 0,
        refuses: true,
        taken: Ok(12),
        fault: FAILED,
        asked: 1,
        had: 12,
        sent: 12,
    },
    Case {
        room: 16,
        kth: 1,
        refuses: false,
        taken: Ok(12),
        fault: FAILED,
        asked: 0,
        had: 0,
        sent: 0,
    },
    Case {
        room: 16,
        kth: 2,
        refuses: false,
        taken: Ok(12),
        fault: FAILED,
        asked: 0,
        had: 0,
        sent: 7,
    },
    Case {
        room: 4,
        kth: 1,
        refuses: false,
        taken: Err(SinkFault),
        fault: None,
        asked: 1,
        had: 0,
        sent: 0,
    },
];

/// Writes the bytes to the file, and finishes it. If it is kept, it has got what was taken.
fn finish(rt: &impl Abort, alloc: Global, out: KeptOut<'_>, case: &Case) -> Option<CliFault> {
    let Ok(buffered) = BufWriter::with_capacity(alloc, case.room, out) else {
        return Some(CliFault::File(FileFault::OutOfMemory));
    };
    let mut file = NewFile::new(buffered);
    check_same(rt, "taken", &file.write(BYTES), &case.taken);
    match file.finish() {
        Ok(kept) => {
            let (taken, _) = BYTES.split_at(case.taken.unwrap_or(0).min(BYTES.len()));
            check_bytes(rt, "kept", kept.out.written(), taken);
            None
        }
        Err((fault, _)) => Some(fault),
    }
}

fn check_case(rt: &impl Abort, alloc: Global, case: &Case) {
    let sent = Cell::new(0);
    let asked = Cell::new(0);
    let had = Cell::new(0);
    let out = KeptOut {
        out: CountedOut::new(case.kth, Refused::Full, &sent),
        sent: &sent,
        asked: &asked,
        had: &had,
        refuses: case.refuses,
        keeps: false,
    };
    check_same(rt, "fault", &finish(rt, alloc, out, case), &case.fault);
    check_same(rt, "asked", &asked.get(), &case.asked);
    check_same(rt, "had", &had.get(), &case.had);
    check_same(rt, "sent", &sent.get(), &case.sent);
}

#[test]
fn files_that_are_kept(rt: HostRuntime) {
    for case in &CASES {
        check_case(&rt, rt.alloc(), case);
    }
}

const NO_NUMBER: Ending = Ending::Refused(Refusal::Fault(CliFault::Json(JsonFault::WrongShape)));

const NOT_OUT: Ending = Ending::Refused(Refusal::Fault(CliFault::File(FileFault::WriteFailed)));

/// An answer, whether what was printed went out, and how the request ends.
static ENDINGS: [(
    Result<Outcome, Ending>,
    Result<(), CliFault>,
    Result<Outcome, Ending>,
); 4] = [
    (Ok(Outcome::Found), Ok(()), Ok(Outcome::Found)),
    (Err(NO_NUMBER), Ok(()), Err(NO_NUMBER)),
    (
        Ok(Outcome::Found),
        Err(CliFault::File(FileFault::WriteFailed)),
        Err(NOT_OUT),
    ),
    (
        Err(NO_NUMBER),
        Err(CliFault::File(FileFault::WriteFailed)),
        Err(NOT_OUT),
    ),
];

#[test]
fn answers_beside_a_failed_output(rt: HostRuntime) {
    for (answered, flushed, wanted) in &ENDINGS {
        check_same(&rt, "ending", &with_output(*answered, *flushed), wanted);
    }
}
