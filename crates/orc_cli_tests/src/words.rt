//! What the words of a command line say beside the request.

use crate::assertions::{check_same, demand};
use orc_cli_args::{matches_of, unread_number, wants_progress};

/// Words, whether progress is wanted, and which option has no number.
static LINES: [(&[&str], bool, Option<&str>); 9] = [
    (&["orcm", "rows", "a"], false, None),
    (&["orcm", "rows", "--progress", "a"], true, None),
    (
        &["orcm", "rows", "a", "--from", "1:2", "--progress"],
        true,
        None,
    ),
    (&["orcm", "check", "--progress", "a"], true, None),
    (&["orcm", "merge", "a", "--progress", "b"], true, None),
    (&["orcm", "merge", "a", "--", "--progress"], false, None),
    (&["orcm", "show", "a"], false, None),
    (
        &[
            "orcm",
            "write",
            "--schema=s",
            "--rle=1",
            "--stride=7",
            "--stripe-rows=+7",
            "--progress",
            "a",
            "b",
        ],
        true,
        Some("stripe-rows"),
    ),
    (
        &[
            "orcm",
            "write",
            "--schema=s",
            "--rle=1",
            "--stride=+7",
            "--stripe-rows=+7",
            "a",
            "b",
        ],
        false,
        Some("stride"),
    ),
];

#[test]
fn words_beside_a_request(rt: HostRuntime) {
    for (words, progress, unread) in &LINES {
        match matches_of(rt.alloc(), words) {
            Ok(matches) => {
                check_same(&rt, "progress", &wants_progress(&matches), progress);
                check_same(&rt, "unread", &unread_number(&matches), unread);
            }
            Err(_) => demand(&rt, false, "words", words.len()),
        }
    }
}
