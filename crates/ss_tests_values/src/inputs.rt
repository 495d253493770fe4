// A program without a Main admits no input. Those with one are rows of the suite.

use crate::part::program;
use ss_store::admitted;
use std::test::Fail;

#[test]
fn without_a_main_none(rt: HostRuntime) -> Result<(), Fail> {
    let alloc = rt.alloc();
    let c = program(alloc)?;
    let is_admitted = admitted(alloc, &c, &[])?;
    assert!(rt; !is_admitted);
    Ok(())
}
