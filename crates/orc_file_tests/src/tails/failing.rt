//! Files that fail one test each: the fault, how many ranges are read until then, and where the cap is tested.

use super::caps::read_capped;
use crate::assertions::check_same;
use orc_file::FileFault;
use orc_test_kit::SEVENS;
use orc_types::TypeFault;
use std::alloc::Global;
use std::process::Abort;

/// Bytes that are put at a place.
type Change = (usize, &'static [u8]);

/// Changes of `SEVENS` that fail one test each, in the order of the tests; the fault, and how many ranges are
/// read until then.
static FAILING: [(&[Change], FileFault, usize); 19] = [
    // not ORC in front
    (&[(0, &[0x50])], FileFault::NotOrc, 1),
    // a postscript longer than the file
    (&[(119, &[0xff])], FileFault::BadLengths, 2),
    // a key of no wire type
    (&[(108, &[0x0f])], FileFault::BadPostscript, 3),
    // 17 version numbers
    (
        &[(
            100,
            &[0x22, 17, 0, 0, 0, 0, 0, 0, 0, 0, 0, 0, 0, 0, 0, 0, 0, 0, 0],
        )],
        FileFault::BadPostscript,
        3,
    ),
    // another magic behind
    (&[(118, &[0x44])], FileFault::NotOrc, 3),
    (&[(103, &[0x01])], FileFault::Compressed(1), 3),
    // a footer longer than what is before it
    (&[(101, &[0x7f])], FileFault::BadLengths, 3),
    // a key of another wire type
    (&[(48, &[0x1b])], FileFault::BadFooter, 4),
    // field 10 in place of the writer
    (&[(98, &[0x52, 0x00])], FileFault::Encrypted, 4),
    // the column is a float
    (
        &[(64, &[0x12, 1, 1, 0x1a, 1, 0x6e, 0x22, 2, 8, 0x05])],
        FileFault::BadTypes(TypeFault::UnsupportedKind(5)),
        4,
    ),
    // a struct without fields, and fields 11 in place of the second type
    (
        &[(64, &[0x4a]), (67, &[0x4a]), (70, &[0x5a])],
        FileFault::BadFooter,
        4,
    ),
    (&[(22, &[0x0b])], FileFault::BadMetadata, 5),
    // field 11 in place of the stripe, and statistics of a stripe
    (&[(48, &[0x5a])], FileFault::BadMetadata, 5),
    // statistics of eight columns
    (
        &[(30, &[10, 0, 10, 0, 10, 0, 10, 0, 10, 0, 10, 0, 10, 0])],
        FileFault::BadMetadata,
        5,
    ),
    // a count of 2^63 - 1
    (
        &[(33, &[0xff, 0xff, 0xff, 0xff, 0xff, 0xff, 0xff, 0xff, 0x7f])],
        FileFault::Limit,
        5,
    ),
    // a stripe from byte 2 on
    (&[(51, &[0x02])], FileFault::BadStripe(0), 5),
    // a stripe of a byte more
    (
        &[(
            50,
            &[0x08, 0x03, 0x10, 0x00, 0x18, 0x04, 0x20, 0x10, 0x28, 0x03],
        )],
        FileFault::BadStripe(0),
        5,
    ),
    // 2^31 rows in a stripe
    (
        &[(
            50,
            &[0x08, 0x03, 0x20, 0x10, 0x28, 0x80, 0x80, 0x80, 0x80, 0x08],
        )],
        FileFault::Limit,
        5,
    ),
    (&[(75, &[0x04])], FileFault::RowCount, 5),
];

/// Puts bytes at a place, as many as there is room for.
fn overwrite(bytes: &mut [u8], place: usize, new: &[u8]) {
    let start = place.min(bytes.len());
    let len = new.len().min(bytes.len() - start);
    bytes[start..start + len].copy_from_slice(&new[..len]);
}

fn change(bytes: &mut [u8], changes: &[Change]) {
    for (place, new) in changes {
        overwrite(bytes, *place, new);
    }
}

/// How many rows are read under a cap of the file of sevens with these changes, and how many ranges.
fn changed_capped(
    alloc: Global,
    changes: &[Change],
    cap: u64,
) -> (Result<usize, FileFault>, usize) {
    let mut bytes = SEVENS;
    change(&mut bytes, changes);
    read_capped(alloc, &bytes, cap)
}

#[test]
fn one_test_fails(rt: HostRuntime) {
    for (i, (changes, fault, reads)) in FAILING.iter().enumerate() {
        let answer = changed_capped(rt.alloc(), changes, u64::MAX);
        check_same(&rt, &answer, &(Err(*fault), *reads), "test", &[i as u64]);
    }
}

/// The cap is tested behind the postscript and the lengths, and before the footer.
#[test]
fn where_the_cap_is_tested(rt: HostRuntime) {
    for (i, (changes, fault, reads)) in FAILING.iter().enumerate() {
        let wanted = if *reads <= 3 {
            *fault
        } else {
            FileFault::Limit
        };
        let answer = changed_capped(rt.alloc(), changes, 0);
        let wanted = (Err(wanted), (*reads).min(3));
        check_same(&rt, &answer, &wanted, "capped, test", &[i as u64]);
    }
}

/// A file that says of its footer and of its metadata that each has 2^63 bytes.
static HALVES: [u8; 41] = [
    0x4f, 0x52, 0x43, 0x08, 0x80, 0x80, 0x80, 0x80, 0x80, 0x80, 0x80, 0x80, 0x80, 0x01, 0x10, 0x00,
    0x22, 0x02, 0x00, 0x0b, 0x28, 0x80, 0x80, 0x80, 0x80, 0x80, 0x80, 0x80, 0x80, 0x80, 0x01, 0x30,
    0x06, 0x82, 0xf4, 0x03, 0x03, 0x4f, 0x52, 0x43, 0x25,
];

/// A cap, and why the file of sevens isn't read under it where the footer's 56 bytes are the metadata's.
static ALL_METADATA: [(u64, FileFault); 4] = [
    (19, FileFault::Limit),
    (77, FileFault::Limit),
    (96, FileFault::Limit),
    (97, FileFault::BadTypes(TypeFault::RootNotStruct)),
];

/// Both ends and the postscript alone are read.
fn check_three(
    rt: &impl Abort,
    answer: (Result<usize, FileFault>, usize),
    fault: FileFault,
    cap: u64,
) {
    check_same(rt, &answer, &(Err(fault), 3), "under", &[cap]);
}

#[test]
fn no_footer_is_read(rt: HostRuntime) {
    for cap in [0, 37, u64::MAX] {
        let answer = read_capped(rt.alloc(), &HALVES, cap);
        check_three(&rt, answer, FileFault::BadLengths, cap);
    }
    for (cap, fault) in ALL_METADATA {
        let answer = changed_capped(rt.alloc(), &[(101, &[0x00]), (109, &[0x4e])], cap);
        check_three(&rt, answer, fault, cap);
    }
}
