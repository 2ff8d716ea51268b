//! Numbers of objects, which are never used again, and keys, which are.
ghost use Rattle.std.specs.Prelude.{◌≡◌, ◌<◌, IfOk, IsOk};

use crate::no_memory::NoMemory;

/// The number of a native: how many natives had been made with it. The first is 1.
#[derive(Clone, Copy, Debug, PartialEq, Eq, PartialOrd, Ord, Drop)]
pub struct NativeNo(pub u32);

/// The number of a plain script object, a weak map or a proxy, in one numbering from 1.
#[derive(Clone, Copy, Debug, PartialEq, Eq, PartialOrd, Ord, Drop)]
pub struct ScriptNo(pub u32);

/// Where a native stands in its heap. A key may come back for another native once its own is gone.
#[derive(Clone, Copy, Debug, PartialEq, Eq, PartialOrd, Ord, Drop)]
pub struct NKey(pub u32);

/// Where a script object stands in its heap. A key may come back for another object once its own is gone.
#[derive(Clone, Copy, Debug, PartialEq, Eq, PartialOrd, Ord, Drop)]
pub struct SKey(pub u32);

/// A place in memory as a key. `NoMemory` exactly where it needs more than 32 bits.
pub fn narrow_key(place: usize) -> Result<u32, NoMemory>
    ensures key { IfOk result (λ key. key ≡ place) }
    ensures fits { place < 4294967296 → IsOk result }
{
    u32::try_from(place).map_err(|_| NoMemory)
}
