//! The worked examples within narrower limits.
//!
//! Made by tools/worked_examples.py from examples/worked.txt.

use crate::script::{Example, are_answered};
use cc_replay::Status;

const EXAMPLES: [Example<'static>; 14] = [
    // The limit of natives counts those that were freed.
    Example {
        name: "limit_counts_freed_natives",
        natives: 1,
        scripts: 1000000,
        bytes: 4294967295,
        input: b"native n0 0\ndrop n0\nnative n0 0\n",
        output: b"= #1\n- free #1\n= ok\n! full\n",
        status: Status::Done,
    },
    // The limit of script objects counts those that were freed.
    Example {
        name: "limit_counts_freed_script_objects",
        natives: 1000000,
        scripts: 1,
        bytes: 4294967295,
        input: b"script s0 0\ndrop s0\ngc\nscript s0 0\n",
        output: b"= @1\n= ok\n- free @1\n= ok\n! full\n",
        status: Status::Done,
    },
    // Plain script objects and weak maps are counted together, up to the limit itself.
    Example {
        name: "limit_counts_weak_maps",
        natives: 1000000,
        scripts: 2,
        bytes: 4294967295,
        input: b"script s0 0\nweakmap s1\nweakmap s2\nscript s3 0\n",
        output: b"= @1\n= @2\n! full\n! full\n",
        status: Status::Done,
    },
    // An input of as many bytes as may be read is read whole.
    Example {
        name: "input_of_exactly_the_bytes_allowed",
        natives: 1000000,
        scripts: 1000000,
        bytes: 12,
        input: b"native n0 0\n",
        output: b"= #1\n",
        status: Status::Done,
    },
    // An input of one byte more ends the run after the lines that end within the limit.
    Example {
        name: "input_of_one_byte_more",
        natives: 1000000,
        scripts: 1000000,
        bytes: 12,
        input: b"native n0 0\n\n",
        output: b"= #1\n",
        status: Status::Limit,
    },
    // With no byte allowed one byte ends the run with nothing written.
    Example {
        name: "input_where_no_byte_is_allowed",
        natives: 1000000,
        scripts: 1000000,
        bytes: 0,
        input: b"x",
        output: b"",
        status: Status::Limit,
    },
    // Where the line feed of the only line is one byte more than may be read, nothing is answered.
    Example {
        name: "input_of_one_byte_less",
        natives: 1000000,
        scripts: 1000000,
        bytes: 11,
        input: b"native n0 0\n",
        output: b"",
        status: Status::Limit,
    },
    // An empty input is read whole where no byte is allowed.
    Example {
        name: "empty_input_where_no_byte_is_allowed",
        natives: 1000000,
        scripts: 1000000,
        bytes: 0,
        input: b"",
        output: b"",
        status: Status::Done,
    },
    // Proxies count with plain objects and weak maps, and an empty register is told before the limit.
    Example {
        name: "limit_counts_proxies",
        natives: 1000000,
        scripts: 2,
        bytes: 4294967295,
        input: b"script s0 0\nproxy s1 s0\nproxy s2 s0\nproxy s2 s9\nweakmap s2\nscript s2 0\n",
        output: b"= @1\n= @2\n! full\n! empty\n! full\n! full\n",
        status: Status::Done,
    },
    // A proxy that is refused for the limit preserves no reflector.
    Example {
        name: "full_proxy_preserves_nothing",
        natives: 1000000,
        scripts: 1,
        bytes: 4294967295,
        input: b"native n0 0\nscript s1 0\nwrap s0 n0\nproxy s2 s0\ndrop s0\ngc\n",
        output: b"= #1\n= @1\n= ~1\n! full\n= ok\n- free ~1\n= ok\n",
        status: Status::Done,
    },
    // The lines that end within the limit are answered in version 2, where the input goes on behind it.
    Example {
        name: "version_two_within_the_bytes_allowed",
        natives: 1000000,
        scripts: 1000000,
        bytes: 24,
        input: b"version 2\nnative n256 0\ncensus\n",
        output: b"= ok\n= #1\n",
        status: Status::Limit,
    },
    // Version 2 is not asked for where its line feed is one byte more than may be read.
    Example {
        name: "version_two_of_one_byte_too_many",
        natives: 1000000,
        scripts: 1000000,
        bytes: 9,
        input: b"version 2\n",
        output: b"",
        status: Status::Limit,
    },
    // A name beyond the limit is asked for as any other that was never made.
    Example {
        name: "limit_leaves_names_that_were_never_made",
        natives: 1,
        scripts: 1,
        bytes: 4294967295,
        input: b"version 2\nnative n0 0\nnative n1 0\nwhy #2\nwhy #1\nwhy @2\n",
        output: b"= ok\n= #1\n! full\n= none\n: #1 n0\n= ok\n= none\n",
        status: Status::Done,
    },
    // It is not answered where its line feed is one byte more than may be read.
    Example {
        name: "why_of_one_byte_too_many",
        natives: 1000000,
        scripts: 1000000,
        bytes: 35,
        input: b"version 2\nnative n0 0\nwhy #1\nwhy #1\n",
        output: b"= ok\n= #1\n: #1 n0\n= ok\n",
        status: Status::Limit,
    },
];

#[test]
fn worked_examples_are_answered(rt: HostRuntime) {
    are_answered(&rt, &EXAMPLES);
}
