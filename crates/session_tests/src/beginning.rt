use jt_session::{End, Fed, Session};
use std::test::Fail;

#[test]
fn a_session_has_the_number_that_it_was_begun_with(rt: HostRuntime) -> Result<(), Fail> {
    let first = Session::new(rt.alloc(), 1)?;
    let last = Session::new(rt.alloc(), 4_294_967_295)?;
    assert!(rt; first.number() == 1);
    assert!(rt; last.number() == 4_294_967_295);
    Ok(())
}

#[test]
fn an_end_is_told_from_going_on(rt: HostRuntime) {
    assert!(rt; Fed::Stop(End::Fenced(2)) != Fed::On);
    assert!(rt; Fed::Stop(End::Fenced(2)) != Fed::Stop(End::Fenced(3)));
}
