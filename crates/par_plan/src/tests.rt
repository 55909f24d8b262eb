use crate::{Method, cut, cut_count};
use std::test::Fail;

#[test]
fn kernels_share_elements_evenly(rt: HostRuntime) -> Result<(), Fail> {
    assert_eq!(rt; cut_count(10, Method::Coarsest, 3), 3);
    assert_eq!(rt; cut(10, Method::Coarsest, 3, 0).to, 4);
    assert_eq!(rt; cut(10, Method::Coarsest, 3, 1).to, 7);
    assert_eq!(rt; cut(10, Method::Coarsest, 3, 2).to, 10);
    Ok(())
}

#[test]
fn a_chunk_is_for_some_element(rt: HostRuntime) -> Result<(), Fail> {
    assert_eq!(rt; cut_count(2, Method::Coarsest, 16), 2);
    assert_eq!(rt; cut_count(5, Method::Coarsest, 0), 1);
    assert_eq!(rt; cut_count(0, Method::Coarsest, 4), 0);
    assert_eq!(rt; cut_count(0, Method::Per(3), 4), 0);
    Ok(())
}

#[test]
fn the_last_chunk_has_what_is_left(rt: HostRuntime) -> Result<(), Fail> {
    assert_eq!(rt; cut_count(10, Method::Per(4), 2), 3);
    assert_eq!(rt; cut(10, Method::Per(4), 2, 2).from, 8);
    assert_eq!(rt; cut(10, Method::Per(4), 2, 2).to, 10);
    assert_eq!(rt; cut_count(u64::MAX, Method::Per(u64::MAX), 2), 1);
    Ok(())
}
