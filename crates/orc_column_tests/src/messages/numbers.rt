//! Tests of numbers in messages: which one counts where several stand, and which are too large.
use super::*;

/// Texts of an encoding, and its kind and dictionary's size, or its fault.
static ENCODINGS: [(&'static [u8], Result<(u32, u32), WireFault>); 16] = [
    (&[0x08, 0x01, 0x08, 0x02], Ok((2, 0))),
    (&[0x10, 0x05, 0x08, 0x03], Ok((3, 5))),
    (
        &[0x08, 0x80, 0x80, 0x80, 0x80, 0x10],
        Err(WireFault::ValueRange(0)),
    ),
    (
        &[0x08, 0x80, 0x80, 0x80, 0x80, 0x10, 0x08, 0x02],
        Err(WireFault::ValueRange(0)),
    ),
    (&[0x08, 0xff, 0xff, 0xff, 0xff, 0x0f], Ok((u32::MAX, 0))),
    (
        &[
            0x08, 0x81, 0x80, 0x80, 0x80, 0x80, 0x80, 0x80, 0x80, 0x80, 0x00,
        ],
        Ok((1, 0)),
    ),
    (
        &[
            0x08, 0x80, 0x80, 0x80, 0x80, 0x80, 0x80, 0x80, 0x80, 0x80, 0x01,
        ],
        Err(WireFault::ValueRange(0)),
    ),
    (
        &[
            0x08, 0x80, 0x80, 0x80, 0x80, 0x80, 0x80, 0x80, 0x80, 0x80, 0x02,
        ],
        Err(WireFault::BadVarint(0)),
    ),
    // a known number with another wire type, and unknown fields of each wire type
    (
        &[0x0a, 0x01, 0x07, 0x08, 0x01, 0x0d, 1, 2, 3, 4],
        Ok((1, 0)),
    ),
    (
        &[0x18, 0x01, 0x08, 0x01, 0x19, 1, 2, 3, 4, 5, 6, 7, 8],
        Ok((1, 0)),
    ),
    (&[0x1a, 0x00, 0x08, 0x01, 0x1d, 1, 2, 3, 4], Ok((1, 0))),
    (&[0x08, 0x01, 0x1b], Err(WireFault::BadWireType(2))),
    (&[0x08, 0x01, 0x00], Err(WireFault::BadWireType(2))),
    (&[0x10, 0x01, 0x1a, 0x02, 0x00], Err(WireFault::Short(2))),
    (&[0x10, 0x01], Err(WireFault::Missing)),
    (&[], Err(WireFault::Missing)),
];

/// Texts of a stream, and its kind, column and length, or its fault.
static STREAMS: [(&'static [u8], Result<(u32, u32, u64), WireFault>); 3] = [
    (&[0x10, 0x01, 0x18, 0x03], Err(WireFault::Missing)),
    (&[0x13], Err(WireFault::BadWireType(0))),
    (&[0x08, 0x01, 0x10, 0xac, 0x02, 0x18, 0x00], Ok((1, 300, 0))),
];

/// Kinds of encodings of a dictionary of five, as they are written.
static WRITTEN: [(u32, &'static [u8]); 4] = [
    (0, &[0x08, 0x00]),
    (1, &[0x08, 0x01, 0x10, 0x05]),
    (2, &[0x08, 0x02]),
    (3, &[0x08, 0x03, 0x10, 0x05]),
];

/// The kind and the dictionary's size of an encoding's text, which takes no memory.
fn encoding_of(alloc: Global, text: &[u8]) -> Result<(u32, u32), WireFault> {
    let found = Encoding::read(alloc, text)?;
    Ok((found.kind, found.dictionary_size))
}

/// The kind, column and length of a stream's text, which takes no memory.
fn stream_of(alloc: Global, text: &[u8]) -> Result<(u32, u32, u64), WireFault> {
    let found = StreamMsg::read(alloc, text)?;
    Ok((found.kind, found.column, found.length))
}

/// Reading a message of numbers alone takes no memory.
#[test]
fn numbers_alone(rt: HostRuntime) {
    for (text, answer) in ENCODINGS {
        let found = encoding_of(rt.alloc(), text);
        check_same(&rt, "an encoding", &(text, found), &(text, answer));
    }
    for (text, answer) in STREAMS {
        let found = stream_of(rt.alloc(), text);
        check_same(&rt, "a stream", &(text, found), &(text, answer));
    }
}

#[test]
fn encodings_written(rt: HostRuntime) -> Result<(), Fail> {
    for (kind, text) in WRITTEN {
        check_encoding(&rt, rt.alloc(), kind, text)?;
    }
    Ok(())
}

/// An encoding of this kind with a dictionary of five is written so.
fn check_encoding(rt: &impl Abort, alloc: Global, kind: u32, text: &[u8]) -> Result<(), WireFault> {
    let encoding = Encoding {
        kind,
        dictionary_size: 5,
    };
    let out = text_of(alloc, &encoding)?;
    check_list(rt, "an encoding", &out, text);
    Ok(())
}
