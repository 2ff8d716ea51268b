//! The collector as a library: the lines that the README shows.
use anyhow::Result;
use cc_host::{Event, Host, Item, Marks, Name, NativeNo};
use std::alloc::Global;

const UNLINKED: Item = Item::Event(Event::Unlinked(Name::Native(NativeNo(1))));

const FREED: Item = Item::Event(Event::Freed(Name::Native(NativeNo(1))));

fn collects(host: &mut Host) -> Result<bool> {
    // root 0 holds #1, whose one slot holds #1 too
    let native = host.new_native(0, 1)?;
    host.store(native, 0, Some(native))?;

    // let go, it is counted still: nothing is freed
    host.set_native_root(0, None)?;
    let stays = host.next_told().is_none() & host.is_there(native);

    // the collector finds it
    host.settle()?;
    let goes = (host.next_told() == Some(UNLINKED)) & (host.next_told() == Some(FREED));
    Ok(stays & goes & !host.is_there(native))
}

fn new_host_collects(alloc: Global) -> Result<bool> {
    let mut marks = Marks::new();
    let mut host = Host::new(alloc, 1000, 1000, &mut marks)?;
    collects(&mut host)
}

#[test]
fn host_collects_native_that_holds_itself(rt: HostRuntime) {
    assert!(rt; matches!(new_host_collects(rt.alloc()), Ok(true)));
}
