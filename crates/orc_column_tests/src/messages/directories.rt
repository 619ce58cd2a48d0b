//! Tests of the messages that say where things stand in a file: postscripts, footers and stripes' directories.
use super::*;

/// The end of a file without rows, of one stripe, and of two.
static POSTSCRIPTS: [[u8; 19]; 3] = [
    [
        0x08, 0x24, 0x10, 0x00, 0x22, 0x02, 0x00, 0x0b, 0x28, 0x00, 0x30, 0x06, 0x82, 0xf4, 0x03,
        0x03, b'O', b'R', b'C',
    ],
    [
        0x08, 0x38, 0x10, 0x00, 0x22, 0x02, 0x00, 0x0b, 0x28, 0x16, 0x30, 0x06, 0x82, 0xf4, 0x03,
        0x03, b'O', b'R', b'C',
    ],
    [
        0x08, 0x44, 0x10, 0x00, 0x22, 0x02, 0x00, 0x0b, 0x28, 0x2c, 0x30, 0x06, 0x82, 0xf4, 0x03,
        0x03, b'O', b'R', b'C',
    ],
];

/// Footers of a file without rows, of one stripe and of two, and one with two of a user's pairs, one of
/// whose values is empty, a writer, and unknown fields; with the content's length, the rows and the writer.
static FOOTERS: [(&'static [u8], (u64, u64, Option<u32>)); 4] = [
    (
        &[
            0x08, 0x03, 0x10, 0x03, 0x22, 0x08, 0x08, 0x0c, 0x12, 0x01, 0x01, 0x1a, 0x01, 0x6e,
            0x22, 0x02, 0x08, 0x04, 0x30, 0x00, 0x3a, 0x04, 0x08, 0x00, 0x50, 0x00, 0x3a, 0x04,
            0x08, 0x00, 0x50, 0x00, 0x40, 0x00, 0x48, 0x63,
        ],
        (3, 0, Some(99)),
    ),
    (
        &[
            0x08, 0x03, 0x10, 0x16, 0x1a, 0x0a, 0x08, 0x03, 0x10, 0x00, 0x18, 0x03, 0x20, 0x10,
            0x28, 0x03, 0x22, 0x08, 0x08, 0x0c, 0x12, 0x01, 0x01, 0x1a, 0x01, 0x6e, 0x22, 0x02,
            0x08, 0x04, 0x30, 0x03, 0x3a, 0x04, 0x08, 0x03, 0x50, 0x00, 0x3a, 0x0c, 0x08, 0x03,
            0x12, 0x06, 0x08, 0x0e, 0x10, 0x0e, 0x18, 0x2a, 0x50, 0x00, 0x40, 0x00, 0x48, 0x63,
        ],
        (22, 3, Some(99)),
    ),
    (
        &[
            0x08, 0x03, 0x10, 0x29, 0x1a, 0x0a, 0x08, 0x03, 0x10, 0x00, 0x18, 0x03, 0x20, 0x10,
            0x28, 0x03, 0x1a, 0x0a, 0x08, 0x16, 0x10, 0x00, 0x18, 0x03, 0x20, 0x10, 0x28, 0x03,
            0x22, 0x08, 0x08, 0x0c, 0x12, 0x01, 0x01, 0x1a, 0x01, 0x6e, 0x22, 0x02, 0x08, 0x04,
            0x30, 0x06, 0x3a, 0x04, 0x08, 0x06, 0x50, 0x00, 0x3a, 0x0c, 0x08, 0x06, 0x12, 0x06,
            0x08, 0x0e, 0x10, 0x0e, 0x18, 0x54, 0x50, 0x00, 0x40, 0x00, 0x48, 0x63,
        ],
        (41, 6, Some(99)),
    ),
    (
        &[
            0x08, 0x00, 0x10, 0x00, 0x2a, 0x07, 0x0a, 0x03, 0x6b, 0x65, 0x79, 0x12, 0x00, 0x2a,
            0x06, 0x0a, 0x01, 0x61, 0x12, 0x01, 0x62, 0x30, 0x00, 0x40, 0x00, 0x48, 0x07, 0x58,
            0x01, 0x62, 0x01, 0xff, 0xc0, 0xb8, 0x02, 0x05,
        ],
        (0, 0, Some(7)),
    ),
];

/// A stripe's footer: a stream of kind DATA of column 1, and two direct encodings.
static DIRECTORY: [u8; 16] = [
    0x0a, 0x06, 0x08, 0x01, 0x10, 0x01, 0x18, 0x03, 0x12, 0x02, 0x08, 0x00, 0x12, 0x02, 0x08, 0x00,
];

static NO_DIRECTORIES: [(&'static [u8], WireFault); 6] = [
    (&[0x0a, 0x02, 0x08, 0x80], WireFault::Short(2)),
    (
        &[0x0a, 0x03, 0x08, 0x01, 0x13, 0x12],
        WireFault::BadWireType(4),
    ),
    (
        &[0x12, 0x80, 0x00, 0x12, 0x03, 0x10, 0x01, 0x00],
        WireFault::Missing,
    ),
    (&[0x12, 0x02, 0x10, 0x01, 0x13], WireFault::Missing),
    (
        &[0x12, 0x02, 0x08, 0x01, 0x12, 0x03, 0x08, 0x01],
        WireFault::Short(4),
    ),
    (
        &[
            0x12, 0x08, 0x08, 0x01, 0x10, 0x80, 0x80, 0x80, 0x80, 0x10, 0x13,
        ],
        WireFault::ValueRange(4),
    ),
];

/// A column's statistics end within their integers.
static NO_FOOTERS: [(&'static [u8], WireFault); 1] = [(
    &[0x3a, 0x04, 0x12, 0x02, 0x08, 0x80],
    WireFault::Short(4),
)];

/// The text is a postscript with these lengths of the footer and of the metadata, and is written so again.
fn check_postscript(
    rt: &impl Abort,
    alloc: Global,
    text: &[u8],
    lengths: (u64, u64),
) -> Result<(), WireFault> {
    let (postscript, out) = both_ways::<PostScript>(alloc, text)?;
    check_list(rt, "a postscript again", &out, text);
    let found = (postscript.footer_length, postscript.metadata_length);
    check_same(rt, "lengths", &found, &lengths);
    check_same(rt, "compression", &postscript.compression, &0);
    check_same(rt, "writer version", &postscript.writer_version, &Some(6));
    check_list(rt, "version", postscript.version.as_slice(), &[0, 11]);
    check_list(rt, "magic", postscript.magic.as_slice(), b"ORC");
    Ok(())
}

#[test]
fn postscripts(rt: HostRuntime) -> Result<(), Fail> {
    let lengths = [(36, 0), (56, 22), (68, 44)];
    for (text, lengths) in POSTSCRIPTS.iter().zip(lengths) {
        check_postscript(&rt, rt.alloc(), text, lengths)?;
    }
    Ok(())
}

#[test]
fn directories(rt: HostRuntime) -> Result<(), Fail> {
    check_directory(&rt, rt.alloc())?;
    check_refused::<StripeFooter>(&rt, rt.alloc(), &NO_DIRECTORIES);
    Ok(())
}

fn check_directory(rt: &impl Abort, alloc: Global) -> Result<(), WireFault> {
    let (footer, out) = both_ways::<StripeFooter>(alloc, &DIRECTORY)?;
    check_list(rt, "a directory again", &out, &DIRECTORY);
    check_stream(rt, footer.streams.as_slice());
    check_same(rt, "columns", &footer.columns.as_slice().len(), &2);
    Ok(())
}

/// The one stream of the directory.
fn check_stream(rt: &impl Abort, streams: &[StreamMsg]) {
    let stream = StreamMsg {
        kind: 1,
        column: 1,
        length: 3,
    };
    check_list(rt, "streams", streams, &[stream]);
}

#[test]
fn packed_lists(rt: HostRuntime) -> Result<(), Fail> {
    check_plain(&rt, rt.alloc())?;
    check_packed(&rt, rt.alloc())?;
    Ok(())
}

fn check_plain(rt: &impl Abort, alloc: Global) -> Result<(), WireFault> {
    let plain = read_message::<PostScript>(alloc, &[0x20, 0x00, 0x20, 0x0b])?;
    check_list(rt, "version", plain.version.as_slice(), &[0, 11]);
    Ok(())
}

/// Plain, packed and in three parts, before and behind other fields.
static VERSION: [u8; 12] = [
    0x20, 0x00, 0x22, 0x02, 0x0b, 0x05, 0x08, 0x01, 0x22, 0x00, 0x20, 0x07,
];

fn check_packed(rt: &impl Abort, alloc: Global) -> Result<(), WireFault> {
    let postscript = read_message::<PostScript>(alloc, &VERSION)?;
    check_list(rt, "version", postscript.version.as_slice(), &[0, 11, 5, 7]);
    check_same(rt, "footer length", &postscript.footer_length, &1);
    check_same(rt, "writer version", &postscript.writer_version, &None);
    Ok(())
}

/// A struct, a number with a kept field, and a list and a struct with one each.
static TYPES: [&'static [u8]; 4] = [
    &[0x08, 0x0c, 0x12, 0x01, 0x01, 0x1a, 0x01, b'n'],
    &[0x08, 0x04, 0x22, 0x01, 0x61, 0x2d, 1, 2, 3, 4],
    &[0x08, 0x0a, 0x12, 0x01, 0x01, 0x28, 0x01],
    &[0x08, 0x0c, 0x12, 0x01, 0x01, 0x1a, 0x01, b'n', 0x28, 0x01],
];

#[test]
fn types(rt: HostRuntime) -> Result<(), Fail> {
    for text in TYPES {
        check_written::<TypeMsg>(&rt, rt.alloc(), text, text);
    }
    check_kept(&rt, rt.alloc())?;
    Ok(())
}

/// A struct with kept fields between known ones.
static KEPT: [u8; 19] = [
    0x22, 0x01, 0x61, 0x08, 0x0c, 0x12, 0x01, 0x01, 0x2d, 1, 2, 3, 4, 0x1a, 0x01, b'n', 0x28, 0x80,
    0x00,
];

/// The kept fields alone.
static FIELDS: [u8; 11] = [0x22, 0x01, 0x61, 0x2d, 1, 2, 3, 4, 0x28, 0x80, 0x00];

fn check_kept(rt: &impl Abort, alloc: Global) -> Result<(), WireFault> {
    let message = read_message::<TypeMsg>(alloc, &KEPT)?;
    check_same(rt, "kind", &message.kind, &12);
    check_list(rt, "subtypes", message.subtypes.as_slice(), &[1]);
    check_names(rt, message.field_names.as_slice());
    check_list(rt, "kept", message.kept.as_slice(), &FIELDS);
    let back = Items::from_vec(message.kept.into_vec());
    check_list(rt, "kept, as a vector and back", back.as_slice(), &FIELDS);
    Ok(())
}

/// One name, which is n.
fn check_names(rt: &impl Abort, names: &[Bytes]) {
    check_same(rt, "names", &names.len(), &1);
    for name in names {
        check_list(rt, "a name", name.as_slice(), b"n");
    }
}

#[test]
fn footers(rt: HostRuntime) -> Result<(), Fail> {
    for (text, seen) in FOOTERS {
        check_footer(&rt, rt.alloc(), text, seen)?;
    }
    check_mixed(&rt, rt.alloc())?;
    check_refused::<Footer>(&rt, rt.alloc(), &NO_FOOTERS);
    Ok(())
}

/// The text is a footer with this content's length, these rows and this writer, and is written so again.
fn check_footer(
    rt: &impl Abort,
    alloc: Global,
    text: &[u8],
    seen: (u64, u64, Option<u32>),
) -> Result<(), WireFault> {
    let (footer, out) = both_ways::<Footer>(alloc, text)?;
    let is = (footer.content_length, footer.number_of_rows, footer.writer);
    check_same(rt, "content length, rows and writer", &is, &seen);
    check_list(rt, "a footer again", &out, text);
    Ok(())
}

/// A footer with unknown fields between known ones, and a known number with another wire type.
static MIXED: [u8; 15] = [
    0x58, 0x01, 0x08, 0x03, 0x0a, 0x00, 0x62, 0x01, 0xff, 0x10, 0x05, 0xc0, 0xb8, 0x02, 0x05,
];

fn check_mixed(rt: &impl Abort, alloc: Global) -> Result<(), WireFault> {
    let footer = read_message::<Footer>(alloc, &MIXED)?;
    check_same(rt, "header length", &footer.header_length, &3);
    check_same(rt, "writer", &footer.writer, &None);
    let kept = &[0x58, 0x01, 0x62, 0x01, 0xff, 0xc0, 0xb8, 0x02, 0x05];
    check_list(rt, "kept", footer.kept.as_slice(), kept);
    Ok(())
}
