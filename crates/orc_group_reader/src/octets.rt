//! Plain bytes from their position on.
ghost use Rattle.std.specs.Prelude.{IfSome, IfNone};
ghost use Rattle.orc_row_index.specs.Walking.{lent_bytes};
ghost use Rattle.orc_group_reader.specs.Columns.{CutsOctets};
ghost use Rattle.orc_group_reader.specs.Refusals.{EndsBefore};

/// Plain bytes from their position on, and the positions that come after it.
#[derive(Clone, Copy)]
pub(crate) struct Cut<'a, 'p> {
    pub(crate) rest: &'a [u8],
    pub(crate) positions: &'p [u64],
}

/// Skips plain bytes, if a column has them: their position is how many bytes come before. Returns none if there is no
/// position or it is past the end.
pub(crate) fn octets_from<'a, 'p>(
    content: Option<&'a [u8]>,
    positions: &'p [u64],
) -> Option<Cut<'a, 'p>>
    ensures found { IfSome result
        (λ cut. CutsOctets (lent_bytes content.entry) positions.now cut.rest.now cut.positions.now) }
    ensures none { IfNone result (EndsBefore (lent_bytes content.entry) positions.now) }
{
    let Some(bytes) = content else {
        return Some(Cut {
            rest: &[],
            positions,
        });
    };
    let [offset, last @ ..] = positions else {
        return None;
    };
    if *offset > bytes.len() as u64 {
        return None;
    }
    let (_, rest) = bytes.split_at(*offset as usize);
    Some(Cut {
        rest,
        positions: last,
    })
}
