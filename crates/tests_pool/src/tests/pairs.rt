use std::test::Fail;
use tests_log::there_and_back;

#[test]
fn a_half_goes_to_another_thread_and_back(rt: HostRuntime) -> Result<(), Fail> {
    assert!(rt; there_and_back(&rt, rt.alloc(), 7)? == Some((7, 7)));
    Ok(())
}
