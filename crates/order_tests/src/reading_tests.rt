use crate::values::is;
use jt_order::{Order, OrderError, is_order};
use jt_value::{Edition, Refusal, Why};
use std::alloc::Global;

// Whether these octets are read as an order of this id with this body.
fn reads(alloc: Global, edition: Edition, id: u16, body: &[u8]) -> bool {
    match Order::read(alloc, edition, id, body) {
        Ok(order) => is(&order, id, body),
        Err(_) => false,
    }
}

fn error_of(alloc: Global, edition: Edition, id: u16, body: &[u8]) -> Option<OrderError> {
    match Order::read(alloc, edition, id, body) {
        Ok(_) => None,
        Err(error) => Some(error),
    }
}

fn refused(inside: u64, why: Why) -> Option<OrderError> {
    Some(OrderError::Refused(Refusal { at: 0, inside, why }))
}

#[test]
fn orders_of_both_editions(rt: HostRuntime) {
    let rows: &[(Edition, u16, &[u8])] = &[
        (Edition::E2013, 0x8300, b"\x01A"),
        (Edition::E2013, 0x8103, b"\x01\0\0\0\x01\x04\0\0\0\x1E"),
        (Edition::E2013, 0x8105, b"\x03"),
        (Edition::E2013, 0x8601, b"\0"),
        (Edition::E2013, 0x8607, b"\x01\0\0\0\x07"),
        (Edition::E2019, 0x8300, b"\x01\0A"),
        (Edition::E2019, 0x8600, b"\x01"),
        (Edition::E2019, 0x8606, b""),
    ];
    for &(edition, id, body) in rows {
        assert!(rt; reads(rt.alloc(), edition, id, body));
    }
}

#[test]
fn ids_that_are_no_orders(rt: HostRuntime) {
    let ids: &[u16] = &[
        0x0001, 0x0200, 0x8001, 0x8102, 0x8104, 0x8106, 0x82FF, 0x8301, 0x85FF, 0x8608,
    ];
    for &id in ids {
        assert!(rt; !is_order(id));
        assert!(rt;
            error_of(rt.alloc(), Edition::E2013, id, &[]) == Some(OrderError::NotOrder(id))
        );
    }
}

#[test]
fn ids_of_orders(rt: HostRuntime) {
    let ids: &[u16] = &[
        0x8103, 0x8105, 0x8300, 0x8600, 0x8601, 0x8602, 0x8603, 0x8604, 0x8605, 0x8606, 0x8607,
    ];
    for &id in ids {
        assert!(rt; is_order(id));
    }
}

#[test]
fn bodies_that_are_refused(rt: HostRuntime) {
    let rows: &[(Edition, u16, &[u8], u64, Why)] = &[
        (Edition::E2013, 0x8300, b"", 0, Why::Truncated),
        (Edition::E2019, 0x8300, b"\x01", 1, Why::Truncated),
        (Edition::E2013, 0x8103, b"\x01", 1, Why::Truncated),
        (Edition::E2013, 0x8600, b"\x01", 1, Why::Truncated),
        (Edition::E2013, 0x8601, b"\0\0", 1, Why::Trailing),
    ];
    for &(edition, id, body, inside, why) in rows {
        assert!(rt; error_of(rt.alloc(), edition, id, body) == refused(inside, why));
    }
}

// A body of 1,024 octets is too long before it is refused, and of an id that is no order's it is no order.
#[test]
fn bodies_have_at_most_1023_octets(rt: HostRuntime) {
    let octets = [0; 1024];
    let body = octets.as_slice();
    assert!(rt; reads(rt.alloc(), Edition::E2013, 0x8300, &body[..1023]));
    let long = Some(OrderError::Long(1024));
    assert!(rt; error_of(rt.alloc(), Edition::E2013, 0x8300, body) == long);
    assert!(rt; error_of(rt.alloc(), Edition::E2013, 0x8601, body) == long);
    let none = Some(OrderError::NotOrder(0x0200));
    assert!(rt; error_of(rt.alloc(), Edition::E2013, 0x0200, body) == none);
}
