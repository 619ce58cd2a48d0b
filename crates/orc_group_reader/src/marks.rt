//! PRESENT from its positions on.
ghost use Rattle.std.specs.Prelude.{IfOk, IfErr, MatchResult};
ghost use Rattle.orc_row_index.specs.RunStreams.{present_runs};
ghost use Rattle.orc_group_reader.specs.Columns.{EntersMarks};
ghost use Rattle.orc_group_reader.specs.ReadersAt.{MarksAt};
ghost use Rattle.orc_group_reader.specs.Refusals.{EnteredStreamFails};
ghost use Rattle.orc_group_reader.specs.Streams.{NeverEnters};

use crate::entered::bits_from;
use orc_column_reader::Bits;
use orc_rle::RunFault;

/// Returns a reader of PRESENT from its positions on. It has none if it has no bytes.
pub(crate) fn marks_from<'a>(
    present: &'a [u8],
    positions: &[u64],
) -> Result<Option<Bits<'a>>, RunFault>
    ensures enters { MatchResult result
        (EntersMarks present.now positions.now)
        (λ _. NeverEnters (present_runs present.now) positions.now) }
    ensures at { IfOk result (MarksAt present.now positions.now) }
    ensures fault { IfErr result (EnteredStreamFails (present_runs present.now) positions.now) }
{
    match present {
        [] => match positions {
            [] => Ok(None),
            _ => Err(RunFault::BadPosition(0)),
        },
        _ => match bits_from(present, positions) {
            Ok(bits) => Ok(Some(bits)),
            Err(fault) => Err(fault),
        },
    }
}
