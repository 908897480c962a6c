use crate::values::{failing, is, order};
use jt_order::{MemBook, ORDER_LIMIT, Order, OrderBook};
use jt_store::StoreError;
use jt_value::Seq;
use std::alloc::Global;
use std::test::Fail;

// Issues a text. None where it is no order.
fn issue(alloc: Global, book: &mut MemBook, body: &[u8]) -> Option<Result<u64, StoreError>> {
    match order(alloc, 0x8300, body) {
        Ok(order) => Some(book.issue(alloc, &order)),
        Err(_) => None,
    }
}

// Answers the oldest order, if one is not answered. None where each is.
fn answer(alloc: Global, book: &mut MemBook, outcome: u8) -> Option<Result<(), StoreError>> {
    match book.load(alloc) {
        Ok(state) => {
            if state.answered < state.issued {
                return Some(book.answer(alloc, outcome));
            }
            None
        }
        Err(error) => Some(Err(error)),
    }
}

// Whether the book tells these counts, and a text of this body as the oldest that is not answered.
fn tells(
    alloc: Global,
    book: &mut MemBook,
    issued: u64,
    answered: u64,
    oldest: Option<&[u8]>,
) -> bool {
    let Ok(state) = book.load(alloc) else {
        return false;
    };
    if state.issued != issued || state.answered != answered {
        return false;
    }
    match (&state.oldest, oldest) {
        (Some(order), Some(body)) => is(order, 0x8300, body),
        (None, None) => true,
        _ => false,
    }
}

#[test]
fn orders_are_numbered_and_answered_in_order(rt: HostRuntime) -> Result<(), Fail> {
    let alloc = rt.alloc();
    let mut book = MemBook::new(alloc, Seq::new(alloc));
    assert!(rt; tells(alloc, &mut book, 0, 0, None));
    assert!(rt; answer(alloc, &mut book, 0) == None);
    assert!(rt; issue(alloc, &mut book, b"\x01A") == Some(Ok(0)));
    assert!(rt; issue(alloc, &mut book, b"\x01B") == Some(Ok(1)));
    assert!(rt; tells(alloc, &mut book, 2, 0, Some(b"\x01A")));
    assert!(rt; answer(alloc, &mut book, 3) == Some(Ok(())));
    assert!(rt; tells(alloc, &mut book, 2, 1, Some(b"\x01B")));
    assert!(rt; answer(alloc, &mut book, 0) == Some(Ok(())));
    assert!(rt; tells(alloc, &mut book, 2, 2, None));
    assert!(rt; book.results() == b"\x03\0".as_slice());
    Ok(())
}

#[test]
fn a_listed_call_of_a_book_fails_and_changes_nothing(rt: HostRuntime) -> Result<(), Fail> {
    let alloc = rt.alloc();
    let mut book = MemBook::new(alloc, failing(alloc, 2).expect(&rt, "memory"));
    assert!(rt; issue(alloc, &mut book, b"\x01A") == Some(Ok(0)));
    assert!(rt; issue(alloc, &mut book, b"\x01B") == Some(Err(StoreError::Failed)));
    assert!(rt; tells(alloc, &mut book, 1, 0, Some(b"\x01A")));
    let mut book = MemBook::new(alloc, failing(alloc, 3).expect(&rt, "memory"));
    assert!(rt; issue(alloc, &mut book, b"\x01A") == Some(Ok(0)));
    assert!(rt; answer(alloc, &mut book, 0) == Some(Err(StoreError::Failed)));
    assert!(rt; tells(alloc, &mut book, 1, 0, Some(b"\x01A")));
    assert!(rt; answer(alloc, &mut book, 0) == Some(Ok(())));
    assert!(rt; book.results() == b"\0".as_slice());
    let mut book = MemBook::new(alloc, failing(alloc, 1).expect(&rt, "memory"));
    assert!(rt; !tells(alloc, &mut book, 0, 0, None));
    assert!(rt; tells(alloc, &mut book, 0, 0, None));
    Ok(())
}

// A book of as many orders as it takes, each of them this one. None where it takes fewer, or numbers them otherwise.
fn full_book(alloc: Global, order: &Order) -> Option<MemBook> {
    let mut book = MemBook::new(alloc, Seq::new(alloc));
    for number in 0..ORDER_LIMIT {
        if book.issue(alloc, order) != Ok(number) {
            return None;
        }
    }
    Some(book)
}

#[test]
fn a_book_takes_a_million_orders_and_stays_full(rt: HostRuntime) -> Result<(), Fail> {
    let alloc = rt.alloc();
    let text = order(alloc, 0x8300, b"\0")
        .ok()
        .expect(&rt, "it is an order");
    let mut book = full_book(alloc, &text).expect(&rt, "it takes as many");
    assert!(rt; book.issue(alloc, &text) == Err(StoreError::Full(1_000_000)));
    assert!(rt; tells(alloc, &mut book, 1_000_000, 0, Some(b"\0")));
    assert!(rt; answer(alloc, &mut book, 0) == Some(Ok(())));
    assert!(rt; book.issue(alloc, &text) == Err(StoreError::Full(1_000_000)));
    assert!(rt; tells(alloc, &mut book, 1_000_000, 1, Some(b"\0")));
    Ok(())
}
