// The call of an edge.

use flow_graph::calls::CallSite;
use std::test::Fail;
use test_forms::edges::call_of;

fn is_call_of(site: &CallSite, procedure: u32, arguments: &[u32], results: &[u32]) -> bool {
    site.procedure() == procedure && site.arguments() == arguments && site.results() == results
}

#[test]
fn tells_arguments_from_results(rt: HostRuntime) -> Result<(), Fail> {
    let edge = call_of(rt.alloc(), (3, 4), 2, &[1, 0, 1], &[5, 6])?;
    let site = CallSite::of(&edge);
    assert!(rt; is_call_of(&site, 2, &[1, 0, 1], &[5, 6]));
    Ok(())
}
