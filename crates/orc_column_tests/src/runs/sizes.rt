//! The size of the run in front, with other bytes behind it, by a codec which has no cheaper way to it than to decode.
ghost use Rattle.orc_rle.specs.RunOne.{IsRunOne, NoRunOne};
ghost use Rattle.orc_rle.specs.WrittenOne.{IsWrittenOne};
ghost use Rattle.orc_rle.specs.laws.OneLaws.{one_run, no_run, one_run_fault, not_empty, has_values};
ghost use Rattle.orc_rle.specs.laws.WrittenLaws.{written_one_is_stream, one_text_one};

use Sign::{Signed, Unsigned};
use orc_rle::*;

/// Bytes that begin with a run, its sign, its number of bytes and of values.
type Row = (&'static [u8], Sign, usize, usize);

static ONE: [Row; 7] = [
    (&[0x61, 0x00, 0x07], Unsigned, 3, 100),
    (&[0x61, 0xff, 0x64, 0xff], Unsigned, 3, 100),
    (&[0x00, 0x00, 0xd0, 0x0f, 0x00], Signed, 4, 3),
    (&[0xfb, 0x02, 0x03, 0x06, 0x07, 0x0b], Unsigned, 6, 5),
    (&[0xff, 0x87, 0x00, 0xff, 0x07], Unsigned, 3, 1),
    (&[0xfe, 0x96, 0x01, 0x01, 0xff, 0x07], Signed, 4, 2),
    (&[0xfd, 0x01, 0x80, 0x01, 0x80, 0x80, 0x01], Unsigned, 7, 3),
];

/// Version 1 as a codec of somebody else's, which has what a codec has to have, and no more.
struct OwnCodec;

impl RunCodec for OwnCodec {
    ghost is_run = { IsRunOne };

    ghost fails = { NoRunOne };

    ghost is_written = { IsWrittenOne };

    fn next_run(bytes: &[u8], sign: Sign, run: &mut Run) -> Result<usize, RunFault> {
        V1::next_run(bytes, sign, run)
    }

    fn put_runs(values: &[i64], sign: Sign, out: &mut Vec<u8>) -> Result<(), RunFault> {
        V1::put_runs(values, sign, out)
    }

    ghost one = { one_run };

    ghost none = { no_run };

    ghost one_fault = { one_run_fault };

    ghost one_text = { one_text_one };

    ghost again = { written_one_is_stream };

    ghost some = { not_empty };

    ghost some_values = { has_values };
}

/// Whether the codec says of each row what the row says.
fn are_sizes_of<C: RunCodec>(rows: &[Row]) -> bool {
    for (bytes, sign, len, values) in rows {
        let size = C::run_size(bytes, *sign);
        if size.bytes != *len || size.values != *values {
            return false;
        }
    }
    true
}

#[test]
fn sizes_by_decoding(rt: HostRuntime) {
    assert!(rt; are_sizes_of::<OwnCodec>(&ONE));
}
