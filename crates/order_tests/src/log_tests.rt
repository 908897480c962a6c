use crate::values::{failing, is, order};
use jt_order::{MemLog, OrderLog, Performed};
use jt_store::StoreError;
use jt_value::Seq;
use std::alloc::Global;
use std::test::Fail;

// Puts a text in the log. None where it is no order.
fn perform(
    alloc: Global,
    log: &mut MemLog,
    body: &[u8],
    outcome: u8,
) -> Option<Result<(), StoreError>> {
    match order(alloc, 0x8300, body) {
        Ok(order) => Some(log.perform(alloc, &order, outcome)),
        Err(_) => None,
    }
}

// Whether these are two texts with these bodies and results.
fn are(performed: &[Performed], first: (&[u8], u8), second: (&[u8], u8)) -> bool {
    match performed {
        [a, b] => {
            let bodies = is(&a.order, 0x8300, first.0) && is(&b.order, 0x8300, second.0);
            bodies && a.result == first.1 && b.result == second.1
        }
        _ => false,
    }
}

#[test]
fn a_log_keeps_orders_and_results_in_order(rt: HostRuntime) -> Result<(), Fail> {
    let alloc = rt.alloc();
    let mut log = MemLog::new(alloc, Seq::new(alloc));
    assert!(rt; log.performed().is_empty());
    assert!(rt; perform(alloc, &mut log, b"\x01A", 0) == Some(Ok(())));
    assert!(rt; perform(alloc, &mut log, b"\x01B", 3) == Some(Ok(())));
    assert!(rt; are(log.performed(), (b"\x01A", 0), (b"\x01B", 3)));
    match log.load(alloc) {
        Ok(found) => assert!(rt; are(found.as_slice(), (b"\x01A", 0), (b"\x01B", 3))),
        Err(_) => assert!(rt; false),
    }
    Ok(())
}

#[test]
fn a_listed_call_of_a_log_fails_and_changes_nothing(rt: HostRuntime) -> Result<(), Fail> {
    let alloc = rt.alloc();
    let mut log = MemLog::new(alloc, failing(alloc, 2).expect(&rt, "memory"));
    assert!(rt; perform(alloc, &mut log, b"\x01A", 0) == Some(Ok(())));
    assert!(rt; perform(alloc, &mut log, b"\x01C", 0) == Some(Err(StoreError::Failed)));
    assert!(rt; perform(alloc, &mut log, b"\x01B", 1) == Some(Ok(())));
    assert!(rt; are(log.performed(), (b"\x01A", 0), (b"\x01B", 1)));
    let mut log = MemLog::new(alloc, failing(alloc, 1).expect(&rt, "memory"));
    match log.load(alloc) {
        Ok(_) => assert!(rt; false),
        Err(error) => assert!(rt; error == StoreError::Failed),
    }
    Ok(())
}
