//! A host of the collector: both heaps, the collector that runs in them, the roots of a program, and a queue of what was told. No call
//! asks anything of who calls.
//!
//! What a program keeps of an object is an `Object`: its name, the key at which it stands, and the mark of its host. It may be
//! kept for ever. Each call takes any `Object` at all, and answers a `Stop` exactly where it can't do what is asked: for one
//! of another host, one that is gone, one of the wrong kind, an index that is not there, a limit reached, want of memory. Then
//! nothing changed; but three calls that want memory, `wrap`, `set_entry` and `new_proxy`, may have exposed an object or made a
//! native a suspect by then, and leave the graph as it is; and the four that make an object may have taken room for what can be told.
//! No call has a `requires`.
//!
//! What is alive is what the roots reach. A `Root` holds any object from `root` until `release`; it is used only once, and there may be
//! some thousand million at a time. Each stands in a register behind the numbered roots, so it is no object, counts for no limit, and
//! what is in use holds what it was given (`IsBooked`). 1023 numbered roots hold natives, and 1023 hold script objects. The host sees to
//! all that the heaps want of a caller: what is stored is exposed to script before, a reflector that is written is preserved before, and
//! a native that is written is held meanwhile, so that nothing is forgotten. What is handed in is reached; a reflector that `wrap` just
//! made is held by nothing, and may be handed in where its native is reached.
//!
//! A `Weak` is a reference to a native that keeps nothing alive: `upgrade` brings the native back as long as it was not told as
//! unlinked or freed, and from then on it is gone, for each call.
//!
//! What goes is told, and waits in a queue that loses nothing until `next_told` fetches it: the room for what can be told of an object
//! is taken when it is made. A collection that finds no room beside what was told before, and not fetched, does nothing and says so.
//!
//! The contracts say of each call what it makes of an object graph from which nothing is freed (`Does`), and of each
//! collection that it leaves the graph as it is, tells what leaves, and spares what the roots reach (`Collects`). A call makes
//! no object but the one that it answers (`came`, `none_came`), and where it tells nothing it lets none go (`Quiet`).
//! Nothing comes back by any call: what is gone is gone for ever, but for a reflector that `wrap` makes again, and numbers made never
//! fall (`lasts`). What a collection tells as freed was there, and is told once (`freed_once`). So what holds of each call holds of calls
//! in any order (`nothing_comes_back`).
//! What was there for a call, and is in the heaps still, is there for each call still (`stays`): only a collection unlinks what it leaves.
//!
//! A collection in slices that begins after `gc` takes each native that nothing reached by then, where the calls between, and those
//! between its slices, are handed what is reached, unless the collection is abandoned, which is told (`garbage`, `begins`, `takes`;
//! `lost`, `later` where calls come before it begins, and `what_was_lost_is_taken_later`).
//! `forget` before it spares it the suspects that are alive, and changes nothing of this (`forgets`).
//!
//! What a collection has unlinked, and each script object that led to it, is gone after the next `gc`, where the calls between are
//! handed what is reached (`frees`, and `what_was_unlinked_goes_at_the_next_gc`).
//!
//! What a first program names comes from here: besides a host's own types the names of objects, what is told (`Item`, `Event`), why an
//! object is there (`Reason`), and whether a collection came to its end (`Ended`).
//!
//! `mark` frees script objects that nothing reaches in slices, where `gc` does it at once. All calls may come between them; a slice
//! of a collection brings a marking that goes on to its end, and `gc` drops it.
#![tactic(auto)]

mod book;
mod changes;
mod data;
mod figures;
mod hindrance;
mod host;
mod lasting;
pub mod loose;
mod marks;
mod missing;
mod next;
mod object;
mod queue;
mod root;
mod runtime;
mod stop;
mod weak;

pub use cc_collector::Ended;
pub use cc_model::{Event, Item, Reason};
pub use cc_names::{Kind, NKey, Name, NativeNo, Reg, RegNo, SKey, ScriptNo, SlotNo};
pub use figures::figures_are_these;
pub use hindrance::Hindrance;
pub use host::Host;
pub use lasting::nothing_comes_back;
pub use marks::Marks;
pub use missing::calls_make_it_miss_nothing;
pub use next::{what_was_lost_is_taken_later, what_was_unlinked_goes_at_the_next_gc};
pub use object::Object;
pub use root::Root;
pub use runtime::{FIRST_PLACE, NUMBERED_ROOTS};
pub use stop::Stop;
pub use weak::Weak;
