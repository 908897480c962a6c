//! An order of 2019.

use crate::frames::{RESPONSE_2019, TEXT_2019};
use crate::setting::{expect_frame, open, terminal, vault, wrap};
use jt_order::MemLog;
use jt_value::{Edition, Seq};

#[test]
fn a_terminal_of_2019_performs_an_order(rt: HostRuntime) {
    let alloc = rt.alloc();
    let wrapped = terminal(&rt, alloc, Edition::E2019, vault(alloc));
    let log = MemLog::new(alloc, Seq::new(alloc));
    let mut terminal = wrap(&rt, alloc, wrapped, log);
    open(&rt, &mut terminal);
    expect_frame(&rt, &mut terminal, TEXT_2019, RESPONSE_2019);
    let performed = terminal.log().performed();
    assert!(rt; performed.len() == 1);
    assert!(rt; performed[0].result == 0);
    assert!(rt; performed[0].order.body() == b"\x01\0A".as_slice());
    drop(terminal);
}
