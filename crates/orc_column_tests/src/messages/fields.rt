//! Tests of fields: a field of each wire type, read and written, and what is no field.
use super::*;

/// A field of each wire type, and its place in `TEXT`.
static FIELDS: [(u32, Value<'static>, usize); 4] = [
    (15, Value::Varint(150), 0),
    (16, Value::Eight([1, 2, 3, 4, 5, 6, 7, 8]), 3),
    (2047, Value::Bytes(b"ORC"), 13),
    (536_870_911, Value::Four([1, 2, 3, 4]), 19),
];

static TEXT: [u8; 28] = [
    0x78, 0x96, 0x01, 0x81, 0x01, 1, 2, 3, 4, 5, 6, 7, 8, 0xfa, 0x7f, 0x03, b'O', b'R', b'C', 0xfd,
    0xff, 0xff, 0xff, 0x0f, 1, 2, 3, 4,
];

/// Bytes whose last field isn't one, and why.
static FAULTS: [(&'static [u8], WireFault); 5] = [
    (
        &[0x80, 0x80, 0x80, 0x80, 0x10, 0x00],
        WireFault::BadWireType(0),
    ),
    (&[0x08, 0x01, 0x0c], WireFault::BadWireType(2)),
    (&[0x08], WireFault::Short(0)),
    (&[0x09, 1, 2, 3, 4, 5, 6, 7], WireFault::Short(0)),
    (
        &[0xff, 0xff, 0xff, 0xff, 0xff, 0xff, 0xff, 0xff, 0xff, 0x7f],
        WireFault::BadVarint(0),
    ),
];

/// Numbers that no field has.
static NO_NUMBERS: [u32; 3] = [0, 1 << 29, u32::MAX];

/// Puts a field.
fn put_field(writer: &mut FieldWriter<'_>, number: u32, value: Value<'_>) -> Result<(), WireFault> {
    writer.put(number, value)
}

/// Puts each of the fields, and none with a number that no field has.
fn put_fields(rt: &impl Abort, writer: &mut FieldWriter<'_>) {
    for (number, value, _) in FIELDS {
        let put = put_field(writer, number, value);
        check_same(rt, "a field", &(number, put), &(number, Ok(())));
    }
    for number in NO_NUMBERS {
        let put = put_field(writer, number, Value::Varint(1));
        let refused = Err(WireFault::BadWireType(28));
        check_same(rt, "no field", &(number, put), &(number, refused));
    }
}

#[test]
fn fields_written(rt: HostRuntime) {
    let mut out = Vec::new(rt.alloc());
    put_fields(&rt, &mut FieldWriter::new(&mut out));
    check_list(&rt, "fields", &out, &TEXT);
}

/// A field with this number, value and place was read.
fn check_field(
    rt: &impl Abort,
    read: Result<Field<'_>, WireFault>,
    wanted: (u32, Value<'_>, usize),
) {
    match read {
        Ok(field) => {
            let found = (field.number, field.value, field.place);
            check_same(rt, "a field", &found, &wanted);
        }
        Err(fault) => assert!(rt; false, "{fault}"),
    }
}

/// The fault of the last of the bytes' fields.
fn last_fault(text: &[u8]) -> Option<WireFault> {
    let mut last = None;
    for read in Fields::new(text) {
        last = read.err();
    }
    last
}

#[test]
fn fields_read(rt: HostRuntime) {
    assert_eq!(rt; Fields::new(&TEXT).count(), 4);
    for (read, wanted) in Fields::new(&TEXT).zip(FIELDS) {
        check_field(&rt, read, wanted);
    }
    for (text, answer) in FAULTS {
        check_fault(&rt, text, last_fault(text), answer);
    }
}
