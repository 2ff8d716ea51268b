//! The two heaps together: counted natives, traced script objects, and the registers, which are the roots.
//!
//! `Heaps` has the registers, the counted heap, the script heap and the entries of weak maps as its fields. They fit
//! together at each step: what registers and slots of natives hold is there, and each native has the key of its reflector.
//! They stand for lists by names, which are those of the definitions (`Keyed`), and each call that changes them is one
//! equation with a function of the definitions.
//!
//! Natives hold natives by counted references, and script objects, which are not counted; script objects hold script
//! objects. A native has at most one reflector, a script object that stands for it and owns one counted reference to it;
//! the native refers to its reflector once that is preserved (`places` and `place` list what an object refers to). A proxy
//! refers to its delegate, a script object that it stands for, for good. What comes into a script register is exposed. A weak
//! map holds nothing by itself: an entry keeps its value while its map and its key live, and never its own key by itself:
//! where that is a proxy, the entry keeps it while its map and the key's delegate live.
//!
//! A walk over both heaps has a set of objects, each of which it gives once (`walk_clear`, `walk_add`, `walk_next`, `walked`). It
//! takes no memory, and says nothing of the heaps; an object that leaves its heap leaves the walk.
//!
//! A marking of script objects that goes on in slices has marks of its own, beside the colours, and two lists of objects to scan
//! (`begin_new`, `scan_new`, `drop_new`). At its end its marks become the colours, and what is white is swept (`end_new`). It takes
//! no memory: each object that is made gets its places on these lists. While it goes on, what is exposed is black by the new mark
//! too. Any other change leaves it as it is (`KeepsMarks`), and either leaves its lists right (`marks_stay_listed`).
//!
//! What the laws make of these equations is said beside them, for callers who know no law. For which graph the heaps
//! stand afterwards is one clause (`stands`). What a change keeps is another (`kept`), one promise of seven parts
//! (`KeepsParts`): objects keep their keys, the heaps stay in order, no count is greater than all references there can
//! be, the colour invariant stays, snapshots stay fresh, no native that nothing reaches is forgotten, and a marking in
//! slices goes on. A call that may come while a collection runs promises all seven (`KeepsAll`). `select_next`,
//! `sweep`, `end_new`, `root`, `unlink` and `unroot` are made where no snapshot is kept, and say nothing of the last three
//! (`KeepsHeaps`). `mark_scripts` says nothing of snapshots and suspects either, and leaves objects white besides
//! (`KeepsObjects`); `sweep` takes these out.
//!
//! Some promises need more of what is handed in. A snapshot stays fresh where what is stored is black
//! (`KeepsAllIfBlack`). No native is forgotten where the native that is written into, or loses its mark, is reached
//! (`KeepsAllIfReached`).
//! `stands` asks that what is handed in is reached from the registers (`IsReached`), or reflects what is
//! (`IsReachedOrReflects`), and of a reflector whose slot is written that it is preserved (`MayHold`). The clause says
//! so; the call itself does not ask for it, but for `store_script`, which takes a black object alone.
#![tactic(auto)]

mod heaps;
mod laws;
mod make_stop;
mod rooted;
mod to_scan;

pub use heaps::Heaps;
pub use laws::marks_stay_listed;
pub use make_stop::MakeStop;
pub use rooted::Rooted;
