//! Numbers, counted from one, as places, counted from zero.
ghost use Rattle.std.specs.Prelude.{◌≡◌, ◌+◌, ◌<◌, ◌≤◌, ◌⊎◌, IfSome, IfNone};

/// The place of a number among so many; none where there is none with that number.
pub(crate) fn place_of(number: u32, count: usize) -> Option<usize>
    ensures place { IfSome result (λ place. (number ≡ place + 1) × (place < count)) }
    ensures none { IfNone result ((number ≡ 0) ⊎ (count < number)) }
{
    if number == 0 || number as usize > count {
        return None;
    }
    Some(number as usize - 1)
}
