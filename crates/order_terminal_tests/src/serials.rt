//! More orders than there are serials.

use crate::frames::{LAST_RESPONSE, LAST_TEXT, RESPONSE, TEXT};
use crate::setting::{expect_frame, open, start, vault};
use jt_order::{MemLog, Order, OrderLog};
use jt_value::{Edition, Seq};
use std::alloc::Global;
use std::process::Abort;

// A log of as many texts as there are serials, less one.
fn log(rt: &impl Abort, alloc: Global) -> MemLog {
    let text = Order::read(alloc, Edition::E2013, 0x8300, b"\x01A")
        .ok()
        .expect(rt, "it is an order");
    let mut log = MemLog::new(alloc, Seq::new(alloc));
    for _ in 0..65_535 {
        assert!(rt; log.perform(alloc, &text, 0).is_ok());
    }
    log
}

#[test]
fn behind_the_last_serial_comes_the_first(rt: HostRuntime) {
    let alloc = rt.alloc();
    let mut terminal = start(&rt, alloc, vault(alloc), log(&rt, alloc));
    open(&rt, &mut terminal);
    expect_frame(&rt, &mut terminal, LAST_TEXT, LAST_RESPONSE);
    assert!(rt; terminal.log().performed().len() == 65_536);
    expect_frame(&rt, &mut terminal, TEXT, RESPONSE);
    assert!(rt; terminal.log().performed().len() == 65_537);
    expect_frame(&rt, &mut terminal, TEXT, RESPONSE);
    assert!(rt; terminal.log().performed().len() == 65_537);
    drop(terminal);
}
