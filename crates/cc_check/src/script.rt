//! The lines of a script that were not asked yet.

ghost use Rattle.std.specs.Prelude.{◌+◌, ◌<◌, ◌^◌, length};

use cc_model::Dialect;

/// The lines of a script that were not asked yet, how the next one is read, and how many lines were asked.
#[derive(Clone, Copy, Drop)]
pub(crate) struct Script<'a> {
    pub(crate) left: &'a [u8],
    pub(crate) dialect: Dialect,
    pub(crate) asked: u64,
    ghost fits: { asked + length left.now < 2 ^ 64 },
}
