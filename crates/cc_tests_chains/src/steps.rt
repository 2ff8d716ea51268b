//! Tests of the counter.
ghost use Rattle.std.specs.Prelude.{◌≡◌, ◌<◌};

use cc_steps::Steps;
use std::marker::Brand;
use std::sync::ledger::{Blank, Ledger};
use std::test::Fail;

/// Counts twice.
fn count<L: Ledger>(blank: Blank)
    requires name { blank.name ≡ L.name }
    requires parts { blank.parts ≡ L.parts }
    requires some { 0 < L.parts }
{
    let mut steps = Steps::<L>::new(blank);
    steps.tick();
    steps.tick();
}

#[test]
fn counter_is_made_and_counts(_rt: HostRuntime) -> Result<(), Fail> {
    count::<Brand>(Blank::new(1));
    Ok(())
}
