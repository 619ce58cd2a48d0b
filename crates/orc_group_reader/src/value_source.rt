//! The source of a column's values, made from readers at positions.
ghost use Rattle.std.specs.Prelude.{◌≡◌};
ghost use Rattle.orc_values.specs.Limits.{most_cells};
ghost use Rattle.orc_group_reader.specs.Columns.{IsSource};

use crate::entered::Entered;
use orc_column_reader::{Entry, ValueSource};

/// Returns the source of a column whose streams are read from positions on.
pub(crate) fn source_from<'a>(
    column: usize,
    own: Entered<'a>,
    octets: &'a [u8],
    entries: Option<Vec<Entry<'a>>>,
) -> ValueSource<'a>
    ensures source { IsSource own.entry octets.now result }
    ensures entries { result.entries ≡ entries.entry }
    ensures room { result.room ≡ most_cells }
    ensures column { result.column ≡ column }
{
    match own {
        Entered::Nothing => ValueSource::without_runs(column, octets, entries),
        Entered::Bits(bits) => ValueSource::of_bits(column, bits, octets, entries),
        Entered::Bytes(bytes) => ValueSource::of_bytes(column, bytes, octets, entries),
        Entered::Numbers(numbers) => ValueSource::of_numbers(column, numbers, octets, entries),
    }
}
