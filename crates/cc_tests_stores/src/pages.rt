//! Each call once, over the borders of pages and groups.

use cc_names::NoMemory;
use cc_pages::Pages;

/// Four numbers get a value each: the first and the last of all, and two on both sides of a page's border.
fn fill(pages: &mut Pages) -> Result<(), NoMemory> {
    pages.insert(u32::MAX, 4)?;
    pages.insert(127, 2)?;
    pages.insert(0, 1)?;
    pages.insert(128, 3)
}

/// Whether these are all numbers that have a value, with their values, in order.
fn are_all(pages: &Pages, wanted: &[(u32, u32)]) -> bool {
    let mut same = true;
    let mut last = None;
    for (number, value) in wanted {
        same &= pages.get(*number) == Some(*value);
        same &= pages.next_after(last) == Some((*number, *value));
        last = Some(*number);
    }
    same & pages.next_after(last).is_none()
}

/// Whether the numbers are known and come in order, and go.
fn values_come_and_go(pages: &mut Pages) -> bool {
    let filled = fill(pages).is_ok();
    let all = are_all(pages, &[(0, 1), (127, 2), (128, 3), (u32::MAX, 4)]);
    pages.remove(127);
    let rest = are_all(pages, &[(0, 1), (128, 3), (u32::MAX, 4)]);
    pages.clear();
    filled & all & rest & are_all(pages, &[])
}

#[test]
fn values_are_known_by_number_and_come_in_order(rt: HostRuntime) {
    let mut pages = Pages::new(rt.alloc());
    assert!(rt; values_come_and_go(&mut pages));
}
