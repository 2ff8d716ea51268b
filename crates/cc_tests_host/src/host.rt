//! What no other page tries: the laws, and what is printed.
use cc_collector::running_collections_go_on;
use cc_counted::Held;
use cc_host::{Hindrance, Stop, calls_make_it_miss_nothing, figures_are_these, nothing_comes_back};
use cc_names::SKey;
use std::test::Fail;

#[test]
fn laws_are_called(_rt: HostRuntime) {
    running_collections_go_on();
    calls_make_it_miss_nothing();
    figures_are_these();
    nothing_comes_back();
}

#[test]
fn stops_and_what_is_held_are_printed(rt: HostRuntime) -> Result<(), Fail> {
    let (stop, held) = (Stop::Foreign, Held::Script(SKey(4)));
    let text = format!(in rt.alloc(); "{stop}; {stop:?} {held:?}; {}", Hindrance::Unfetched)?;
    assert_eq!(rt;
        text.as_str(),
        "an object is of another host; Foreign Script(SKey(4)); what was told waits to be fetched"
    );
    Ok(())
}
