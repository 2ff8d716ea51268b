//! A long made script, which was worked out apart from this crate. Short ones are theorems, and the program `ccmade` writes one.

use cc_made::MadeSource;
use cc_outside::Source;

/// The length of what a source gives, and a sum of it that tells an order from another.
fn sum_of<S: Source>(source: &mut S) -> (u64, u64) {
    let mut length: u64 = 0;
    let mut sum: u64 = 0;
    for _ in 0..1000 {
        let mut room = [0; 4096];
        let Ok(count) = source.read(&mut room) else {
            break;
        };
        length = length.wrapping_add(count as u64);
        for byte in &room[..count] {
            sum = sum.wrapping_mul(31).wrapping_add(u64::from(*byte));
        }
    }
    (length, sum)
}

#[test]
fn a_long_script_is_the_reference_script(rt: HostRuntime) {
    assert_eq!(rt;
        sum_of(&mut MadeSource::new(7, 100_000)),
        (1111280, 9162698497929575156)
    );
}
