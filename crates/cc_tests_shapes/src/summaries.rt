//! Summaries of made scripts.

use crate::text::Part::Once;
use crate::text::{answers, status_of};
use cc_outside::{BytesSink, Sink, SureSource};
use cc_replay::Status;

/// Words with the seed and the count of lines, and the summary, which another program gave.
const SUMMARIES: [(&[&str], &str); 7] = [
    (
        &["ccreplay", "make", "7", "0"],
        "commands 20\nok 19\nnamed 0\nnone 0\nrefused 0\n\
            nomem 0\nabandoned 0\nunlinked 0\nfreed 0\ncensus 0\n",
    ),
    (
        &["ccreplay", "make", "7", "3"],
        "commands 23\nok 20\nnamed 0\nnone 0\nrefused 2\n\
            nomem 0\nabandoned 0\nunlinked 0\nfreed 0\ncensus 0\n",
    ),
    (
        &["ccreplay", "make", "111", "30"],
        "commands 50\nok 25\nnamed 4\nnone 2\nrefused 18\n\
            nomem 0\nabandoned 0\nunlinked 0\nfreed 4\ncensus 0\n",
    ),
    (
        &["ccreplay", "make", "18446744073709551615", "4"],
        "commands 24\nok 21\nnamed 0\nnone 0\nrefused 2\n\
            nomem 0\nabandoned 0\nunlinked 0\nfreed 0\ncensus 0\n",
    ),
    (
        &["ccreplay", "make", "1", "1000"],
        "commands 1020\nok 264\nnamed 278\nnone 93\nrefused 384\n\
            nomem 0\nabandoned 0\nunlinked 14\nfreed 226\ncensus 0\n",
    ),
    (
        &["ccreplay", "make", "2", "20000"],
        "commands 20020\nok 5103\nnamed 5351\nnone 1902\nrefused 7663\n\
            nomem 0\nabandoned 0\nunlinked 249\nfreed 4413\ncensus 0\n",
    ),
    (
        &["ccreplay", "make", "7", "100000"],
        "commands 100020\nok 25463\nnamed 26842\nnone 9629\nrefused 38085\n\
            nomem 0\nabandoned 0\nunlinked 1310\nfreed 22272\ncensus 0\n",
    ),
];

#[test]
fn made_scripts_are_summed_up(rt: HostRuntime) {
    for (words, summary) in SUMMARIES.iter() {
        let wanted = [Once(*summary)];
        let reads = answers(&rt, *words, &[Once("census\n")], &wanted);
        assert!(rt; reads == 0, "at {words:?}");
    }
}

#[test]
fn a_summary_stops_where_a_write_fails(rt: HostRuntime) {
    let fronts: [&[u8]; 3] = [b"", b"commands 20\n", b"commands 20\nok 19\n"];
    for (place, written) in fronts.iter().enumerate() {
        let fails = [place as u64 + 1].to_vec(rt.alloc()).expect(&rt, "memory");
        let mut source = SureSource::new(Vec::new(rt.alloc()));
        let mut sink = BytesSink::new(rt.alloc(), 300, fails).expect(&rt, "memory");
        let words = ["ccreplay", "make", "7", "0"];
        let status = status_of(rt.alloc(), &words, &mut source, &mut sink);
        assert!(rt; status == Status::WriteFault, "{status:?} at {place}");
        assert!(rt; sink.written() == *written, "at {place}");
        assert!(rt; sink.faults() == 1, "at {place}");
    }
}
