//! The sizes of the language, each once. Whatever else needs one of them has it by its name.

/// The number of a register in its bank, counted from 0. Commands name the first registers alone; a bank may have more.
pub type RegNo = u32;

/// The number of a weak register, counted from 0.
pub type WeakNo = u8;

/// The number of a slot of an object, counted from 0, and a number of slots.
pub type SlotNo = u16;

/// How many native registers commands can name, and how many script registers. Each bank has so many or more.
pub const BANK_LENGTH: usize = 1024;

/// The most registers that a bank has.
pub const MOST_ROOTS: RegNo = 1_073_741_824;

/// How many weak registers there are.
pub const WEAK_LENGTH: usize = 256;

/// The most slots that a native or a plain object has.
pub const MOST_SLOTS: SlotNo = 256;

/// How many registers of each kind a script of version 1 can name: the first ones.
pub const FIRST_BANK_LENGTH: usize = 256;

/// The most slots that a script of version 1 gives a native or a plain object.
pub const FIRST_MOST_SLOTS: SlotNo = 64;
