//! Where hosts get their marks.
ghost use Rattle.std.specs.Prelude.{◌≡◌, ◌≤◌, ◌+◌, ◌^◌, ℕ, Some, None, IfSome};

use std::marker::Model;

/// A source of marks. Each host has a mark, by which its objects and roots are known, and no two hosts of a program may have the same
/// one: then a stale object of a host that is gone is `Foreign` to each other. So a program makes one source, once, and hands it to
/// each host that it makes.
#[derive(Drop)]
pub struct Marks {
    last: u64,
}

impl Model for Marks {
    ghost use Rattle.std.specs.Prelude.{ℕ};

    ghost Value = { ℕ };

    ghost view = { λ m. m.last };
}

impl Marks {
    /// A source that gave no mark yet. The first that it gives is 1.
    pub fn new() -> Marks
        ensures { result ≡ 0 }
    {
        Marks { last: 0 }
    }

    /// A mark that it never gave before; none once it gave 18 446 744 073 709 551 615.
    pub(crate) fn draw(&mut self) -> Option<u64>
        ensures drawn { IfSome result (λ mark. (mark ≡ self.old + 1) × (self.new ≡ mark)) }
        ensures none { result ≡ None → (self.new ≡ self.old) × (2 ^ 64 ≤ self.old + 1) }
    {
        let mark = self.last.checked_add(1)?;
        self.last = mark;
        Some(mark)
    }
}
