//! Statistics as files store them, tests, and which of them the bold rule keeps.
use Comparison::{AtMost, Below, Equal};
use Operand::{Bool, Bytes, Date, Int, Text};
use orc_skipping::Comparison;
use orc_stats::StatKind;

/// A column's kind, and the message of its statistic.
pub(super) type Told = (StatKind, &'static [u8]);

/// A constant that a table can hold.
#[derive(Clone, Copy)]
pub(super) enum Operand {
    Bool(bool),
    Int(i64),
    Date(i32),
    Text(&'static str),
    Bytes(&'static [u8]),
}

/// Three numbers from 2 to 9, and no null.
const NUMBERS: Told = (
    StatKind::Ints,
    &[0x08, 0x03, 0x12, 0x04, 0x08, 0x04, 0x10, 0x12, 0x50, 0x00],
);

/// Three numbers from 2 to 9, without hasNull.
const UNKNOWN_NULLS: Told = (
    StatKind::Ints,
    &[0x08, 0x03, 0x12, 0x04, 0x08, 0x04, 0x10, 0x12],
);

/// The number 7 three times, and null.
const SEVENS: Told = (
    StatKind::Ints,
    &[0x08, 0x03, 0x12, 0x04, 0x08, 0x0e, 0x10, 0x0e, 0x50, 0x01],
);

/// Nulls alone, in a column of numbers.
const ONLY_NULLS: Told = (StatKind::Ints, &[0x08, 0x00, 0x50, 0x01]);

/// No cell, in a column of numbers.
const NO_CELLS: Told = (StatKind::Ints, &[0x08, 0x00, 0x50, 0x00]);

/// Three numbers up to 9, of which the least isn't stored, and null.
const WITHOUT_LEAST: Told = (
    StatKind::Ints,
    &[0x08, 0x03, 0x12, 0x02, 0x10, 0x12, 0x50, 0x01],
);

/// Three numbers from 2 on, of which the greatest isn't stored, and null.
const WITHOUT_GREATEST: Told = (
    StatKind::Ints,
    &[0x08, 0x03, 0x12, 0x02, 0x08, 0x04, 0x50, 0x01],
);

/// Four times false.
const ALL_FALSE: Told = (
    StatKind::Bools,
    &[0x08, 0x04, 0x2a, 0x03, 0x0a, 0x01, 0x00, 0x50, 0x00],
);

/// Four times true.
const ALL_TRUE: Told = (
    StatKind::Bools,
    &[0x08, 0x04, 0x2a, 0x03, 0x0a, 0x01, 0x04, 0x50, 0x00],
);

/// Twice true and twice false.
const HALF_TRUE: Told = (
    StatKind::Bools,
    &[0x08, 0x04, 0x2a, 0x03, 0x0a, 0x01, 0x02, 0x50, 0x00],
);

/// Four booleans, without the count of true.
const UNKNOWN_TRUES: Told = (StatKind::Bools, &[0x08, 0x04, 0x50, 0x00]);

/// Two days, from 1969-12-31 to 1970-01-10.
const DAYS: Told = (
    StatKind::Dates,
    &[0x08, 0x02, 0x3a, 0x04, 0x08, 0x01, 0x10, 0x12, 0x50, 0x00],
);

/// The last day of the year 9999 and the first of 10000, which are days 2932896 and 2932897.
const LATE_DAYS: Told = (
    StatKind::Dates,
    &[
        0x08, 0x02, 0x3a, 0x0a, 0x08, 0xc0, 0x82, 0xe6, 0x02, 0x10, 0xc2, 0x82, 0xe6, 0x02, 0x50,
        0x00,
    ],
);

/// Two days, of which the greatest isn't stored.
const DAYS_WITHOUT_GREATEST: Told = (
    StatKind::Dates,
    &[0x08, 0x02, 0x3a, 0x02, 0x08, 0x01, 0x50, 0x00],
);

/// Three texts from `B` to `é`.
const TEXTS: Told = (
    StatKind::Texts,
    &[
        0x08, 0x03, 0x22, 0x07, 0x0a, 0x01, 0x42, 0x12, 0x02, 0xc3, 0xa9, 0x50, 0x00,
    ],
);

/// The text of the character U+FFFD.
const REPLACEMENT: Told = (
    StatKind::Texts,
    &[
        0x08, 0x01, 0x22, 0x0a, 0x0a, 0x03, 0xef, 0xbf, 0xbd, 0x12, 0x03, 0xef, 0xbf, 0xbd, 0x50,
        0x00,
    ],
);

/// A text of two bytes, with the sum of the lengths and without a least or a greatest text.
const WITHOUT_BOUNDS: Told = (
    StatKind::Texts,
    &[0x08, 0x01, 0x22, 0x02, 0x18, 0x04, 0x50, 0x00],
);

/// A text, and no record of texts.
const WITHOUT_RECORD: Told = (StatKind::Texts, &[0x08, 0x01, 0x50, 0x00]);

/// Two byte strings.
const BYTES: Told = (
    StatKind::Bins,
    &[0x08, 0x02, 0x42, 0x02, 0x08, 0x0a, 0x50, 0x00],
);

/// Nulls alone, in a column of byte strings.
const NULL_BYTES: Told = (StatKind::Bins, &[0x08, 0x00, 0x50, 0x01]);

/// A list of one element and one of two.
const LISTS: Told = (
    StatKind::Children,
    &[
        0x08, 0x02, 0x62, 0x06, 0x08, 0x01, 0x10, 0x02, 0x18, 0x03, 0x50, 0x00,
    ],
);

/// Two structs, and null.
const STRUCTS: Told = (StatKind::Plain, &[0x08, 0x02, 0x50, 0x01]);

/// Comparisons, and whether the rows are kept for them and for their negations.
pub(super) static COMPARED: [(Told, Comparison, Operand, (bool, bool)); 59] = [
    (NUMBERS, Equal, Int(1), (false, true)),
    (NUMBERS, Equal, Int(2), (true, true)),
    (NUMBERS, Equal, Int(5), (true, true)),
    (NUMBERS, Equal, Int(9), (true, true)),
    (NUMBERS, Equal, Int(10), (false, true)),
    (NUMBERS, Below, Int(2), (false, true)),
    (NUMBERS, Below, Int(3), (true, true)),
    (NUMBERS, Below, Int(9), (true, true)),
    (NUMBERS, Below, Int(10), (true, false)),
    (NUMBERS, AtMost, Int(1), (false, true)),
    (NUMBERS, AtMost, Int(2), (true, true)),
    (NUMBERS, AtMost, Int(8), (true, true)),
    (NUMBERS, AtMost, Int(9), (true, false)),
    // `<>` is skipped only if all values are the constant
    (SEVENS, Equal, Int(7), (true, false)),
    (SEVENS, Equal, Int(8), (false, true)),
    (SEVENS, Below, Int(7), (false, true)),
    (SEVENS, AtMost, Int(7), (true, false)),
    // null compares with nothing
    (ONLY_NULLS, Equal, Int(7), (false, false)),
    (ONLY_NULLS, Equal, Date(7), (false, false)),
    (NO_CELLS, Below, Int(7), (false, false)),
    (UNKNOWN_NULLS, Equal, Int(5), (true, true)),
    (UNKNOWN_NULLS, Equal, Int(1), (false, true)),
    // a statistic without a bound is taken for one of nulls alone
    (WITHOUT_LEAST, Equal, Int(5), (false, false)),
    (WITHOUT_GREATEST, Equal, Int(5), (false, false)),
    (DAYS_WITHOUT_GREATEST, Equal, Date(5), (false, false)),
    (WITHOUT_BOUNDS, Equal, Text("ab"), (false, false)),
    (WITHOUT_RECORD, Equal, Text("ab"), (false, false)),
    // a constant of another kind excludes nothing
    (NUMBERS, Equal, Date(1), (true, true)),
    (NUMBERS, Equal, Text("1"), (true, true)),
    (ALL_TRUE, Equal, Int(0), (true, true)),
    (DAYS, Equal, Int(10), (true, true)),
    (TEXTS, Equal, Bytes(b"A"), (true, true)),
    (ALL_FALSE, Equal, Bool(true), (false, true)),
    (ALL_FALSE, Equal, Bool(false), (true, false)),
    (ALL_FALSE, Below, Bool(true), (true, false)),
    (ALL_TRUE, Equal, Bool(true), (true, false)),
    (ALL_TRUE, Equal, Bool(false), (false, true)),
    (ALL_TRUE, AtMost, Bool(false), (false, true)),
    (HALF_TRUE, Equal, Bool(true), (true, true)),
    (HALF_TRUE, Equal, Bool(false), (true, true)),
    (HALF_TRUE, Below, Bool(false), (false, true)),
    (UNKNOWN_TRUES, Equal, Bool(true), (true, true)),
    (DAYS, Equal, Date(-2), (false, true)),
    (DAYS, Equal, Date(-1), (true, true)),
    (DAYS, Below, Date(0), (true, true)),
    (DAYS, AtMost, Date(9), (true, false)),
    (DAYS, Equal, Date(10), (false, true)),
    // by its text, `10000-01-01` would be below `9999-12-31`
    (LATE_DAYS, Equal, Date(2932897), (true, true)),
    (LATE_DAYS, Below, Date(2932896), (false, true)),
    (LATE_DAYS, AtMost, Date(2932897), (true, false)),
    // texts by unsigned bytes, so that `é` is above `z`, and U+FFFD below U+10000
    (TEXTS, Equal, Text("A"), (false, true)),
    (TEXTS, Equal, Text("z"), (true, true)),
    (TEXTS, Equal, Text("éa"), (false, true)),
    (TEXTS, AtMost, Text("é"), (true, false)),
    (REPLACEMENT, Below, Text("\u{10000}"), (true, false)),
    (BYTES, Equal, Bytes(b"\x0f"), (true, true)),
    (NULL_BYTES, Equal, Bytes(b"\x0f"), (false, false)),
    (LISTS, Equal, Int(1), (true, true)),
    (STRUCTS, Equal, Int(1), (true, true)),
];

/// Whether the rows are kept for `IS NULL`, and for `IS NOT NULL`.
pub(super) static NULLS: [(Told, (bool, bool)); 14] = [
    (NUMBERS, (false, true)),
    (SEVENS, (true, true)),
    (ONLY_NULLS, (true, false)),
    (NO_CELLS, (false, false)),
    (UNKNOWN_NULLS, (false, true)),
    (WITHOUT_LEAST, (true, false)),
    (WITHOUT_GREATEST, (true, false)),
    (DAYS_WITHOUT_GREATEST, (false, false)),
    (WITHOUT_BOUNDS, (false, false)),
    (UNKNOWN_TRUES, (false, true)),
    (BYTES, (false, true)),
    (NULL_BYTES, (true, false)),
    (LISTS, (false, true)),
    (STRUCTS, (true, true)),
];

/// The least and the greatest number of `BETWEEN`, and whether the rows are kept for it, and for its negation.
pub(super) static BETWEEN: [(Told, i64, i64, (bool, bool)); 7] = [
    (NUMBERS, 3, 5, (true, true)),
    (NUMBERS, 0, 1, (false, true)),
    (NUMBERS, 10, 12, (false, true)),
    (NUMBERS, 2, 9, (true, false)),
    // no number is between these, but each comparison alone may be true
    (NUMBERS, 8, 3, (true, true)),
    (SEVENS, 7, 7, (true, false)),
    (ONLY_NULLS, 0, 9, (false, false)),
];

/// The two numbers of `IN`, and whether the rows are kept for it, and for its negation.
pub(super) static ONE_OF: [(Told, i64, i64, (bool, bool)); 5] = [
    (NUMBERS, 1, 5, (true, true)),
    (NUMBERS, 1, 10, (false, true)),
    (SEVENS, 7, 8, (true, false)),
    (SEVENS, 6, 8, (false, true)),
    (ONLY_NULLS, 7, 8, (false, false)),
];

/// The number 7 2^62 times, and null.
const MOST_SEVENS: Told = (
    StatKind::Ints,
    &[
        0x08, 0x80, 0x80, 0x80, 0x80, 0x80, 0x80, 0x80, 0x80, 0x40, 0x12, 0x04, 0x08, 0x0e, 0x10,
        0x0e, 0x50, 0x01,
    ],
);

/// The number 7 once more than a statistic may count.
const TOO_MANY_SEVENS: Told = (
    StatKind::Ints,
    &[
        0x08, 0x81, 0x80, 0x80, 0x80, 0x80, 0x80, 0x80, 0x80, 0x40, 0x12, 0x04, 0x08, 0x0e, 0x10,
        0x0e, 0x50, 0x01,
    ],
);

/// Messages of columns, or none, and whether the rows are kept for `= 8`.
pub(super) static MESSAGES: [(Option<Told>, bool); 6] = [
    (None, true),
    (Some(NUMBERS), true),
    (Some(SEVENS), false),
    (Some(MOST_SEVENS), false),
    (Some(TOO_MANY_SEVENS), true),
    (Some(WITHOUT_BOUNDS), false),
];

/// The row index of four groups of numbers: from 1 to 3, without a statistic, from 5 to 9, and nulls alone.
pub(super) static INDEX: [u8; 38] = [
    0x0a, 0x0c, 0x12, 0x0a, 0x08, 0x03, 0x12, 0x04, 0x08, 0x02, 0x10, 0x06, 0x50, 0x00, 0x0a, 0x00,
    0x0a, 0x0c, 0x12, 0x0a, 0x08, 0x02, 0x12, 0x04, 0x08, 0x0a, 0x10, 0x12, 0x50, 0x00, 0x0a, 0x06,
    0x12, 0x04, 0x08, 0x00, 0x50, 0x01,
];
