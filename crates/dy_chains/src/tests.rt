use super::*;
use std::test::*;

#[test]
fn facts_do_not_follow_by_themselves(rt: HostRuntime) -> Result<(), Fail> {
    let mut chain = Chain::new(rt.alloc());
    chain.add(3, &[])?;
    assert_eq!(rt; [chain.has(0), chain.has(2)], [false, false]);
    assert_eq!(rt; chain.place(1), None);
    assert_eq!(rt;
        (chain.facts(), chain.rules().len(), chain.log().len()),
        (3, 0, 0)
    );
    Ok(())
}
