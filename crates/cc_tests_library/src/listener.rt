//! A listener that closes over its element, through both heaps: made, let go, and collected in slices.
//!
//! No call of a host has a condition that its caller must meet, so nothing had to be proved of this file.
use cc_host::{Ended, Hindrance, Host, Marks, Stop};
use std::alloc::Global;

// An element holds its listener, which holds the element's reflector. Then no root holds any of them.
fn listen(host: &mut Host) -> Result<(), Stop> {
    let element = host.new_native(0, 1)?;
    let listener = host.new_plain(0, 1)?;
    let reflector = host.wrap(element)?;
    host.store(listener, 0, Some(reflector))?;
    host.store(element, 0, Some(listener))?;
    host.set_script_root(0, None)?;
    host.set_native_root(0, None)
}

// A frame of the program: a few units, and a script collection where one came to its end.
fn frame(host: &mut Host) -> Result<(), Hindrance> {
    if host.slice(10)? == Ended::Yes {
        host.gc()?;
    }
    Ok(())
}

// Whether so many items wait, and no more. They are fetched.
fn fetches(host: &mut Host, items: usize) -> bool {
    let mut all = true;
    for _ in 0..items {
        all &= host.next_told().is_some();
    }
    all & host.next_told().is_none()
}

// What is told of three of them, once they went: of each that its element was unlinked, and that three objects were freed.
fn collects(host: &mut Host) -> bool {
    let mut made = true;
    for _ in 0..3 {
        made &= listen(host).is_ok();
    }
    made &= host.gc().is_ok();
    for _ in 0..3 {
        made &= frame(host).is_ok();
    }
    made & !host.has_suspects() & fetches(host, 3 * 4)
}

fn new_host_collects(alloc: Global) -> bool {
    let mut marks = Marks::new();
    match Host::new(alloc, 1000, 1000, &mut marks) {
        Ok(mut host) => collects(&mut host),
        Err(_) => false,
    }
}

#[test]
fn listeners_go_with_their_elements(rt: HostRuntime) {
    assert!(rt; new_host_collects(rt.alloc()));
}
