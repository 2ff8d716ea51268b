//! Weak registers: each notes a native, and keeps none alive.
//!
//! A register notes a native by its key and by its number. Nothing is told to it when the native goes, and no native knows of
//! the registers that note it: a native costs nothing for them, and goes as it would without. So a register is asked anew each
//! time (`resolve`), and looks whether the native of its number still stands at its key, and was not unlinked. The number
//! tells a key that was given out again, for another native.
//!
//! Who notes a native that is there gives its own key (`HoldKeys`). It stays so, whatever the heaps do: a native keeps its key
//! as long as it is there, and no number is given out twice.
#![tactic(auto)]

mod going_on;
mod noted;
mod weak_regs;

pub use going_on::weak_registers_go_on;
pub use noted::Noted;
pub use weak_regs::WeakRegs;
