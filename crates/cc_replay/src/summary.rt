//! The text of a summary: ten lines, each a word and a number.

ghost use Rattle.std.specs.Prelude.{◌≡◌, true, ◌≤◌, ◌+◌, [], ◌∷◌, ◌++◌, length, map, All, OnErr, OnOk};
ghost use Rattle.std.specs.Io.KnownBytes.{Appends};
ghost use Rattle.cc_lists.specs.Faults.{raised};
ghost use Rattle.cc_model.specs.Telling.{AppendsFront};
ghost use Rattle.cc_replay.specs.Summaries.{line_of, summary_lines, summary_text};

use crate::outlet::write_all;
use cc_model::Sums;
use cc_names::LineBuf;
use cc_outside::{Failed, Sink};
use itoa::Buffer;

/// A line of a summary: its word, and its number.
#[derive(Clone, Copy, Drop)]
struct Line(&'static [u8], u64);

/// The ten lines of a summary, in order.
fn lines_of(sums: &Sums) -> [Line; 10]
    ensures lines { map (λ l. (l.0.now, l.1)) result ≡ summary_lines sums.now }
    ensures short { All (λ l. length l.0.now ≤ 9) result }
{
    [
        Line(b"commands", sums.commands),
        Line(b"ok", sums.ok),
        Line(b"named", sums.named),
        Line(b"none", sums.none),
        Line(b"refused", sums.refused),
        Line(b"nomem", sums.nomem),
        Line(b"abandoned", sums.abandoned),
        Line(b"unlinked", sums.unlinked),
        Line(b"freed", sums.freed),
        Line(b"census", sums.census),
    ]
}

/// The text of a line, whose word has at most 9 bytes.
fn text_of(line: Line) -> LineBuf
    requires { length line.0.now ≤ 9 }
    ensures { result ≡ line_of (line.0.now, line.1) }
{
    let mut text = LineBuf::new();
    text.push(line.0);
    text.push(b" ");
    text.push(Buffer::new().format(line.1).as_bytes());
    text.push(b"\n");
    text
}

/// Writes a summary, line by line. A write that fails is the last.
pub(crate) fn write_summary<K: Sink>(sums: &Sums, sink: &mut K) -> Result<(), Failed>
    ensures whole { OnOk result (Appends (K.written sink.old) (K.written sink.new) (summary_text sums.now)) }
    ensures calm { OnOk result (K.faults sink.new ≡ K.faults sink.old) }
    ensures part { OnErr result (AppendsFront (K.written sink.old) (K.written sink.new) (summary_text sums.now)) }
    ensures once { OnErr result (K.faults sink.new ≡ raised (K.faults sink.old) 1) }
    ensures last { OnErr result ((K.writes sink.new).last_failed ≡ true) }
{
    'lines: for line in lines_of(sums).iter() {
        write_all(sink, text_of(*line).bytes())?;
    }
    Ok(())
}
