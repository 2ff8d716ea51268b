//! A sink that items are told to, each as one line.

ghost use Rattle.std.specs.Prelude.{◌≡◌, true, None, OnErr, OnOk};
ghost use Rattle.std.specs.Io.KnownBytes.{Appends};
ghost use Rattle.cc_lists.specs.Faults.{raised};
ghost use Rattle.cc_model.specs.Telling.{AppendsFront};

use cc_model::{Counter, Item, Notices, write_item};
use cc_names::LineBuf;
use cc_outside::{Failed, Sink};

/// Writes all the bytes, going on with the rest where the sink takes less. A write that fails is the last.
pub(crate) fn write_all<K: Sink>(sink: &mut K, bytes: &[u8]) -> Result<(), Failed>
    ensures whole { OnOk result (Appends (K.written sink.old) (K.written sink.new) bytes.now) }
    ensures calm { OnOk result (K.faults sink.new ≡ K.faults sink.old) }
    ensures part { OnErr result (AppendsFront (K.written sink.old) (K.written sink.new) bytes.now) }
    ensures once { OnErr result (K.faults sink.new ≡ raised (K.faults sink.old) 1) }
    ensures last { OnErr result ((K.writes sink.new).last_failed ≡ true) }
{
    let mut done = 0;
    'pieces: while done < bytes.len() {
        let taken = sink.write(&bytes[done..])?;
        done += taken;
    }
    Ok(())
}

/// Those that are told items and say whether a write failed.
pub(crate) trait Reports: Notices {
    /// Whether a write failed. Nothing is told any more then.
    fn is_broken(&self) -> bool
        ensures { result ≡ (Self.telling self.now).broken };
}

/// A sink that items are told to, each as one line. After a write that failed nothing more is written.
#[derive(Drop)]
pub(crate) struct Outlet<'a, K: Sink> {
    pub(crate) sink: &'a mut K,
    pub(crate) broken: bool,
    ghost last: { broken ≡ true → (K.writes sink.now).last_failed ≡ true },
}

impl<'a, K: Sink> Notices for Outlet<'a, K> {
    ghost telling = { λ o. record {
      told = K.written o.sink.now;
      broken = o.broken;
      faults = K.faults o.sink.now;
      sink = o.sink.ghost_name;
      sums = None;
      items = None;
    } };

    fn tell(&mut self, item: Item) {
        if self.broken {
            return;
        }
        let mut line = LineBuf::new();
        write_item(&item, &mut line);
        if write_all(self.sink, line.bytes()).is_err() {
            self.broken = true;
        }
    }
}

impl<'a, K: Sink> Reports for Outlet<'a, K> {
    fn is_broken(&self) -> bool {
        self.broken
    }
}

impl Reports for Counter {
    /// Never: a counter writes nothing.
    fn is_broken(&self) -> bool {
        false
    }
}
