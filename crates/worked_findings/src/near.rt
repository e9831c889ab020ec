//! Near names of which no line of `abnf_findings` shows anything: each name there has a letter, and core rules are known.

use near_names::nearest;
use std::alloc::AllocError;

#[test]
fn no_name_is_near(rt: HostRuntime) -> Result<(), AllocError> {
    assert!(rt; nearest(rt.alloc(), "", &["ab", ""])? == None);
    assert!(rt; nearest(rt.alloc(), "ab", &[])? == None);
    Ok(())
}
