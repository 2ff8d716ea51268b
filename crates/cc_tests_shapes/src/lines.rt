//! Lines that are about as long as a line may be, which has at most 120 bytes before its line feed.

use crate::text::Part::{Each, Once};
use crate::text::plays;

/// A first byte, how many bytes `a` come behind it, what comes then, and the answer.
const LINES: [(&str, u32, &str, &str); 7] = [
    ("%", 119, "\n", ""),
    ("%", 120, "\n", "! long\n"),
    ("a", 118, "\r\n", "! line\n"),
    ("a", 119, "\r\n", "! long\n"),
    ("a", 120, "", "! long\n"),
    ("a", 120, "\ncensus\r\n", "! long\n= census 0\n"),
    ("a", 9999, "\ncensus", "! long\n= census 0\n"),
];

#[test]
fn a_line_of_more_than_120_bytes_is_told(rt: HostRuntime) {
    for (first, more, end, answer) in LINES.iter() {
        let script = [Once(*first), Each(1, *more, "a"), Once(*end)];
        plays(&rt, &script, &[Once(*answer)]);
    }
}
