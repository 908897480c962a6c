use crate::values::order;
use jt_order::{Performed, Ruling, rule};
use std::alloc::Global;

// The ruling on an order where so many were performed, and this one last, with result 1.
fn ruled(
    alloc: Global,
    count: u64,
    last: (u16, &[u8]),
    serial: u16,
    id: u16,
    body: &[u8],
) -> Option<Ruling> {
    match order(alloc, last.0, last.1) {
        Ok(order) => {
            let performed = Some(Performed { order, result: 1 });
            Some(rule(count, &performed, serial, id, body))
        }
        Err(_) => None,
    }
}

#[test]
fn before_any_order_the_serial_is_zero(rt: HostRuntime) {
    assert!(rt; rule(0, &None, 0, 0x8300, b"\x01A") == Ruling::Performs);
    assert!(rt; rule(0, &None, 1, 0x8300, b"\x01A") == Ruling::Refuses);
    assert!(rt; rule(0, &None, 65_535, 0x8300, b"\x01A") == Ruling::Refuses);
}

// The last order is a text of serial n - 1 where n were performed.
#[test]
fn the_three_rules_in_their_order(rt: HostRuntime) {
    let last: (u16, &[u8]) = (0x8300, b"\x01A");
    let rows: &[(u64, u16, u16, &[u8], Ruling)] = &[
        (1, 0, 0x8300, b"\x01A", Ruling::Again(1)),
        (1, 1, 0x8300, b"\x01A", Ruling::Performs),
        (1, 0, 0x8300, b"\x01B", Ruling::Refuses),
        (1, 0, 0x8105, b"\x01A", Ruling::Refuses),
        (1, 2, 0x8300, b"\x01A", Ruling::Refuses),
        (65_536, 65_535, 0x8300, b"\x01A", Ruling::Again(1)),
        (65_536, 0, 0x8300, b"\x01A", Ruling::Performs),
        (65_537, 0, 0x8300, b"\x01A", Ruling::Again(1)),
        (65_537, 1, 0x8300, b"\x01", Ruling::Performs),
        (65_537, 65_535, 0x8300, b"\x01A", Ruling::Refuses),
    ];
    for &(count, serial, id, body, wanted) in rows {
        assert!(rt; ruled(rt.alloc(), count, last, serial, id, body) == Some(wanted));
    }
}
