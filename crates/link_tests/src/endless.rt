use jt_outside::{Link, LinkGot, Put, ScriptLink, Sink};
use std::test::Fail;

#[test]
fn an_endless_link(rt: HostRuntime) -> Result<(), Fail> {
    let mut link = ScriptLink::endless(rt.alloc(), 7, 2)?;
    let mut buf = [0u8; 3];
    assert_eq!(rt; link.read(&mut buf), LinkGot::Bytes(3));
    assert_eq!(rt; buf, [7, 7, 7]);
    assert_eq!(rt; link.write(&[1, 2, 3]), Put::Count(2));
    assert_eq!(rt; link.write(&[3]), Put::Failed);
    assert_eq!(rt; link.read(&mut buf), LinkGot::Bytes(3));
    assert_eq!(rt; link.written(), [1, 2].as_slice());
    Ok(())
}

#[test]
fn a_quiet_link(rt: HostRuntime) -> Result<(), Fail> {
    let mut link = ScriptLink::quiet(rt.alloc(), 1)?;
    let mut buf = [0u8; 3];
    assert_eq!(rt; link.read(&mut buf), LinkGot::Quiet);
    assert_eq!(rt; link.write(&[5]), Put::Count(1));
    assert_eq!(rt; link.read(&mut buf), LinkGot::Quiet);
    assert_eq!(rt; link.written(), [5].as_slice());
    Ok(())
}
