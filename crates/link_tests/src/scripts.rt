use jt_outside::{
    Clock, Dial, Link, LinkGot, Put, ScriptClock, ScriptDial, ScriptLink, Sink, write_all,
};
use jt_value::{Octets, Seq};
use std::alloc::Global;
use std::test::Fail;

fn link(alloc: Global, octets: &[u8], failing: u64) -> Result<ScriptLink, Fail> {
    let octets = Octets::from_vec(Vec::from_slice(alloc, octets)?);
    let failing = Seq::from_vec(vec![in alloc; failing]?);
    Ok(ScriptLink::new(alloc, octets, 5, failing)?)
}

#[test]
fn a_link_in_memory(rt: HostRuntime) -> Result<(), Fail> {
    let alloc = rt.alloc();
    let mut buf = [0u8; 2];
    let mut link = link(alloc, &[7, 8, 9], 3)?;
    assert_eq!(rt; link.read(&mut buf), LinkGot::Bytes(2));
    assert_eq!(rt; buf, [7, 8]);
    assert_eq!(rt; link.write(&[1, 2]), Put::Count(2));
    assert_eq!(rt; link.read(&mut buf), LinkGot::Failed);
    assert_eq!(rt; link.read(&mut buf), LinkGot::Bytes(1));
    assert_eq!(rt; link.read(&mut buf), LinkGot::End);
    assert!(rt; !write_all(&mut link, &[3, 4, 5, 6]));
    assert_eq!(rt; link.written(), [1, 2, 3, 4, 5].as_slice());
    Ok(())
}

#[test]
fn a_dial_in_memory(rt: HostRuntime) -> Result<(), Fail> {
    let alloc = rt.alloc();
    let mut links = Seq::new(alloc);
    links.push(ScriptLink::new(alloc, Octets::new(alloc), 5, Seq::new(alloc))?)?;
    let failing = Seq::from_vec(vec![in alloc; 1]?);
    let mut dial = ScriptDial::new(alloc, links, failing)?;
    assert!(rt; dial.dial("localhost", 1).is_none());
    let mut written = false;
    if let Some(mut link) = dial.dial("localhost", 1) {
        written = write_all(&mut link, &[1, 2]);
        dial.back(link);
    }
    assert!(rt; written);
    assert!(rt; dial.dial("localhost", 1).is_none());
    assert_eq!(rt; dial.links_back().len(), 1);
    Ok(())
}

#[test]
fn a_clock_in_memory(rt: HostRuntime) -> Result<(), Fail> {
    let alloc = rt.alloc();
    let mut clock = ScriptClock::new(Seq::from_vec(vec![in alloc; 3, 3, 9]?));
    for moment in [3, 3, 9, 9] {
        assert_eq!(rt; clock.now(), moment);
    }
    assert_eq!(rt; ScriptClock::new(Seq::new(alloc)).now(), 0);
    Ok(())
}
