//! What one line of the input asks.

use cc_names::{Name, Reg, RegNo, SlotNo, WeakNo};

/// What one line of the input asks, by its word and its tokens in their order.
///
/// The first register of a command that has a destination is the destination. Registers are 0 to 1023 (their type has room for
/// those that a host alone names), weak registers 0 to 255, numbers of slots 0 to 256, indexes of slots 0 to 4294967295, numbers
/// of units 1 to 1000000. Version 1 of the language names the registers 0 to 255 alone, gives 64 slots at most, and has no `move`,
/// `why`, `forget`, `mark`, `weak`, `deref` and `drop wX`.
#[derive(Clone, Copy, Debug, PartialEq, Eq, Drop)]
pub enum Command {
    /// A blank line or a comment.
    Nothing,
    /// `version 2`: the rest of the script is of version 2.
    Version2,
    /// `native nD K`: makes a native with K empty slots.
    Native(RegNo, SlotNo),
    /// `script sD K`: makes a plain script object with K empty slots.
    Script(RegNo, SlotNo),
    /// `weakmap sD`: makes an empty weak map.
    WeakMap(RegNo),
    /// `proxy sD sS`: makes a proxy of what the source holds.
    Proxy(RegNo, RegNo),
    /// `copy nD nS`: the destination holds what the source holds.
    CopyNative(RegNo, RegNo),
    /// `copy sD sS`: the same for script registers.
    CopyScript(RegNo, RegNo),
    /// `drop R`: empties a register.
    Drop(Reg),
    /// `set nD i R`, or `set nD i none`: writes slot i of a native.
    Set(RegNo, u32, Option<Reg>),
    /// `get R nS i`: reads slot i of a native.
    Get(Reg, RegNo, u32),
    /// `move nD i nS j`: slot i of a native takes what slot j of a native holds, which is emptied.
    Move(RegNo, u32, RegNo, u32),
    /// `put sD i sS`, or `put sD i none`: writes slot i of a plain object or a reflector.
    Put(RegNo, u32, Option<RegNo>),
    /// `take sD sS i`: reads slot i of a plain object or a reflector.
    Take(RegNo, RegNo, u32),
    /// `wrap sD nS`: the reflector of a native, made where there is none.
    Wrap(RegNo, RegNo),
    /// `unwrap nD sS`: the native of a reflector.
    Unwrap(RegNo, RegNo),
    /// `preserve sS`: a reflector is traced from its native from now on.
    Preserve(RegNo),
    /// `wset sM sK sV`, or `wset sM sK none`: sets or takes out an entry of a weak map.
    SetEntry(RegNo, RegNo, Option<RegNo>),
    /// `wget sD sM sK`: the value of a key in a weak map.
    GetEntry(RegNo, RegNo, RegNo),
    /// `expose nS i`: script touches what slot i of a native holds.
    Expose(RegNo, u32),
    /// `forget`: suspects that the registers reach over edges lose their mark.
    Forget,
    /// `weak wD nS`: a weak register notes the native that the source holds.
    Weak(WeakNo, RegNo),
    /// `deref nD wS`: the destination holds what a weak register notes, where that has not ended.
    Deref(RegNo, WeakNo),
    /// `why NAME`: how the registers reach an object.
    Why(Name),
    /// `slice U`: up to U units of a collection.
    Slice(u32),
    /// `collect`: a whole collection.
    Collect,
    /// `gc`: a script collection.
    Gc,
    /// `mark U`: up to U units of a script marking.
    Mark(u32),
    /// `census`: lists the objects.
    Census,
}
