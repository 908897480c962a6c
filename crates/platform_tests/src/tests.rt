use crate::acting::*;
use crate::journaling::{
    ALL_BUT_MEMORY, FAILING, LIMIT, first_untold, held_by, last_of, marks_beside_ghost,
};
use crate::turning::by_turn;
use jt_platform::code_of;
use std::test::*;

const A: u16 = 0x41;

const B: u16 = 0x42;

// A plate that is not in the fleet.
const C: u16 = 0x43;

#[test]
fn a_later_authentication_takes_the_phone_over(rt: HostRuntime) {
    let steps = [
        (1, Who::First, Ask::Register, A, b'1', Told::Registered, 0),
        (1, Who::First, Ask::Auth, 0, 0, Told::Accepted, 0),
        (2, Who::First, Ask::Auth, 0, 0, Told::Accepted, 0),
        (1, Who::First, Ask::Auth, 0, 0, Told::Accepted, 0),
        (1, Who::First, Ask::Unit, 2, b'x', Told::Fenced, 2),
        (2, Who::First, Ask::Unit, 2, b'x', Told::Stored, 2),
        (1, Who::First, Ask::Close, 0, 0, Told::Accepted, 0),
        (1, Who::First, Ask::Unit, 2, b'x', Told::NotLive, 0),
    ];
    assert!(rt; all_go(rt.alloc(), 100, &[], &steps, 8));
}

#[test]
fn a_full_list_takes_no_row_but_knows_repeats(rt: HostRuntime) {
    let steps = [
        (1, Who::First, Ask::Register, A, b'1', Told::Registered, 0),
        (1, Who::First, Ask::Auth, 0, 0, Told::Accepted, 0),
        (1, Who::First, Ask::Unit, 2, b'x', Told::Stored, 2),
        (1, Who::First, Ask::Unit, 3, b'y', Told::ListFull, 1),
        (1, Who::First, Ask::Unit, 2, b'x', Told::Repeat, 2),
    ];
    assert!(rt; all_go(rt.alloc(), 1, &[], &steps, 4));
}

// The fleet has the plates A and B and the terminal ids 1 and 2.
#[test]
fn registrations_are_denied_in_order(rt: HostRuntime) {
    let steps = [
        (1, Who::First, Ask::Register, C, b'1', Told::Denied, 2),
        (1, Who::First, Ask::Register, A, b'3', Told::Denied, 4),
        (1, Who::First, Ask::Register, C, b'3', Told::Denied, 2),
        (1, Who::First, Ask::Register, A, b'1', Told::Registered, 0),
        (
            1,
            Who::First,
            Ask::RegisterZeros,
            A,
            b'1',
            Told::Registered,
            0,
        ),
        (2, Who::Second, Ask::Register, A, b'2', Told::Denied, 1),
        (2, Who::Second, Ask::Register, B, b'1', Told::Denied, 3),
        (2, Who::Second, Ask::RegisterZeros, B, b'1', Told::Denied, 3),
        (2, Who::Second, Ask::Register, A, b'1', Told::Denied, 1),
        (2, Who::Second, Ask::Auth, 0, 0, Told::Denied, 1),
        (
            2,
            Who::Second,
            Ask::RegisterZeros,
            B,
            b'2',
            Told::Registered,
            0,
        ),
        (1, Who::First, Ask::Register, A, b'2', Told::Denied, 3),
        (2, Who::Second, Ask::Auth, 0, 0, Told::Accepted, 0),
    ];
    assert!(rt; all_go(rt.alloc(), 100, &[], &steps, 13));
}

#[test]
fn one_phone_in_both_editions(rt: HostRuntime) {
    let steps = [
        (1, Who::First, Ask::Register, A, b'1', Told::Registered, 0),
        (1, Who::First, Ask::Auth, 0, 0, Told::Accepted, 0),
        (1, Who::First, Ask::Unit, 2, b'x', Told::Stored, 2),
        (2, Who::Same, Ask::OtherAuth, 0, 0, Told::Denied, 1),
        (2, Who::Same, Ask::Register, A, b'1', Told::Registered, 0),
        (2, Who::Same, Ask::Auth, 0, 0, Told::Accepted, 0),
        (2, Who::Same, Ask::Unit, 2, b'x', Told::Repeat, 2),
        (2, Who::Same, Ask::Unit, 3, b'y', Told::Stored, 3),
        (1, Who::First, Ask::Unit, 4, b'z', Told::Fenced, 2),
    ];
    assert!(rt; all_go(rt.alloc(), 100, &[], &steps, 9));
}

#[test]
fn the_last_session_holds_its_phone(rt: HostRuntime) {
    let steps = [
        (1, Who::First, Ask::Register, A, b'1', Told::Registered, 0),
        (1, Who::First, Ask::Auth, 0, 0, Told::Accepted, 0),
        (1, Who::First, Ask::Unit, 2, b'x', Told::Stored, 2),
        (2, Who::First, Ask::Auth, 0, 0, Told::Accepted, 0),
    ];
    let mut hub = hub(rt.alloc(), 100, &[]).expect(&rt, "memory");
    assert!(rt; matches!(first_other(rt.alloc(), &mut hub, &steps), Ok(None)));
    assert!(rt; !hub.holds(1, &phone(Who::First)));
    assert!(rt; hub.holds(2, &phone(Who::First)));
    assert!(rt; !hub.holds(2, &phone(Who::Second)));
    assert!(rt; hub.keeper().rows(&phone(Who::First)).len() == 1);
}

// SHA-256 over 12345678 in ASCII is ef797c8118f02dfb649607dd.., and over 12, four zero octets and 345678 it is
// 337338e726f241401e66a501..
#[test]
fn a_code_is_of_secret_and_phone(rt: HostRuntime) {
    assert!(rt; code_of(b"12", &phone(Who::First)) == *b"ef797c8118f02dfb");
    assert!(rt; code_of(b"12", &phone(Who::Same)) == *b"337338e726f24140");
}

// Serial 3 is 9 above 65,530. Serial 65,530 is then 65,527 above it, so the unit is a repeat of row 65,530, or one of a
// terminal that began anew: 65,539 + 65,527 + 65,536.
#[test]
fn a_unit_far_above_is_a_repeat_or_numbered_anew(rt: HostRuntime) {
    let steps = [
        (1, Who::First, Ask::Register, A, b'1', Told::Registered, 0),
        (1, Who::First, Ask::Auth, 0, 0, Told::Accepted, 0),
        (1, Who::First, Ask::Unit, 65530, b'x', Told::Stored, 65530),
        (1, Who::First, Ask::Unit, 3, b'y', Told::Stored, 65539),
        (1, Who::First, Ask::Unit, 65530, b'x', Told::Repeat, 65530),
        (
            1,
            Who::First,
            Ask::Unit,
            65530,
            b'z',
            Told::Renumbered,
            196602,
        ),
    ];
    assert!(rt; all_go(rt.alloc(), 100, &[], &steps, 6));
}

#[test]
fn a_deregistered_phone_keeps_its_rows_alone(rt: HostRuntime) {
    let steps = [
        (1, Who::First, Ask::Register, A, b'1', Told::Registered, 0),
        (1, Who::First, Ask::Auth, 0, 0, Told::Accepted, 0),
        (1, Who::First, Ask::Unit, 2, b'x', Told::Stored, 2),
        (1, Who::First, Ask::Deregister, 0, 0, Told::Accepted, 0),
        (1, Who::First, Ask::Unit, 3, b'y', Told::NotLive, 0),
        (2, Who::First, Ask::Auth, 0, 0, Told::Denied, 1),
    ];
    let mut hub = hub(rt.alloc(), 100, &[]).expect(&rt, "memory");
    assert!(rt; matches!(first_other(rt.alloc(), &mut hub, &steps), Ok(None)));
    let mut keeper = keeper_of(hub);
    assert!(rt; !is_registered(rt.alloc(), &mut keeper, Who::First));
    assert!(rt; last_row(rt.alloc(), &mut keeper, Who::First) == Some(2));
}

// The keeper's first call, that of the registration, fails.
#[test]
fn a_fault_of_the_keeper_makes_no_entry(rt: HostRuntime) {
    let steps = [
        (1, Who::First, Ask::Register, A, b'1', Told::StoreFault, 0),
        (1, Who::First, Ask::Register, A, b'1', Told::Registered, 0),
    ];
    assert!(rt; all_go(rt.alloc(), 100, &[1], &steps, 1));
}

#[test]
fn a_closed_session_is_answered_close_alone(rt: HostRuntime) {
    let steps = [
        (1, Who::First, Ask::Register, A, b'1', Told::Registered, 0),
        (1, Who::First, Ask::Auth, 0, 0, Told::Accepted, 0),
        (1, Who::First, Ask::Other, 0, 0, Told::Accepted, 0),
        (2, Who::First, Ask::Other, 0, 0, Told::NotLive, 0),
        (1, Who::First, Ask::Close, 0, 0, Told::Accepted, 0),
        (1, Who::First, Ask::Other, 0, 0, Told::NotLive, 0),
        (1, Who::First, Ask::Auth, 0, 0, Told::NotLive, 0),
        (1, Who::First, Ask::Register, A, b'1', Told::NotLive, 0),
        (1, Who::First, Ask::Close, 0, 0, Told::Accepted, 0),
        (3, Who::First, Ask::Close, 0, 0, Told::Accepted, 0),
        (3, Who::First, Ask::Auth, 0, 0, Told::NotLive, 0),
    ];
    assert!(rt; all_go(rt.alloc(), 100, &[], &steps, 11));
}

// A hub that went through its history at each request would not end in the time of a test.
#[test]
fn no_request_goes_through_the_history(rt: HostRuntime) {
    let steps = [
        (1, Who::First, Ask::Register, A, b'1', Told::Registered, 0),
        (1, Who::First, Ask::Auth, 0, 0, Told::Accepted, 0),
    ];
    let mut hub = hub(rt.alloc(), 100, &[]).expect(&rt, "memory");
    assert!(rt; matches!(first_other(rt.alloc(), &mut hub, &steps), Ok(None)));
    assert!(rt; accepted(&mut hub, 1, Who::First, 300_000) == 300_000);
}

#[test]
fn a_hub_behind_a_turn(rt: HostRuntime) {
    let steps = [
        (1, Who::First, Ask::Register, A, b'1', Told::Registered, 0),
        (1, Who::First, Ask::Auth, 0, 0, Told::Accepted, 0),
        (1, Who::First, Ask::Unit, 2, b'x', Told::Stored, 2),
        (1, Who::First, Ask::Close, 0, 0, Told::Accepted, 0),
        (1, Who::First, Ask::Other, 0, 0, Told::NotLive, 0),
    ];
    let hub = hub(rt.alloc(), 100, &[]).expect(&rt, "memory");
    let hub = by_turn(&rt, rt.alloc(), hub, &steps).expect(&rt, "the turn");
    assert!(rt; hub.history().len() == 5);
    let mut keeper = keeper_of(hub);
    assert!(rt; last_row(rt.alloc(), &mut keeper, Who::First) == Some(2));
}

#[test]
fn a_hub_replies_the_same_whatever_its_journal_keeps(rt: HostRuntime) {
    let mut keeps = hub(rt.alloc(), LIMIT, FAILING).expect(&rt, "memory");
    let marks = marks_beside_ghost(&rt, rt.alloc(), &mut keeps);
    drop(keeps);
    assert!(rt; marks == Some(ALL_BUT_MEMORY));
}

// What a refused authentication and a Close let go is not that of another session, nor of another phone.
#[test]
fn closed_sessions_and_denied_phones_are_let_go_alone(rt: HostRuntime) {
    let steps: &[Step] = &[
        (1, Who::First, Ask::Register, A, b'1', Told::Registered, 0),
        (1, Who::First, Ask::Auth, 0, 0, Told::Accepted, 0),
        (1, Who::First, Ask::OtherAuth, 0, 0, Told::Denied, 1),
        (1, Who::Second, Ask::Auth, 0, 0, Told::Denied, 1),
        (2, Who::First, Ask::OtherAuth, 0, 0, Told::Denied, 1),
        (2, Who::Second, Ask::Auth, 0, 0, Told::Denied, 1),
        (1, Who::First, Ask::Unit, 2, b'x', Told::Stored, 2),
        (2, Who::First, Ask::Close, 0, 0, Told::Accepted, 0),
        (1, Who::First, Ask::Unit, 3, b'x', Told::Stored, 3),
        (3, Who::First, Ask::Auth, 0, 0, Told::Accepted, 0),
        (1, Who::First, Ask::Close, 0, 0, Told::Accepted, 0),
        (3, Who::First, Ask::Unit, 4, b'x', Told::Stored, 4),
        (1, Who::First, Ask::Auth, 0, 0, Told::NotLive, 0),
        (2, Who::First, Ask::Unit, 5, b'x', Told::NotLive, 0),
        (3, Who::First, Ask::Close, 0, 0, Told::Accepted, 0),
        (3, Who::First, Ask::Other, 0, 0, Told::NotLive, 0),
        (4, Who::Second, Ask::Register, B, b'2', Told::Registered, 0),
        (4, Who::Second, Ask::Auth, 0, 0, Told::Accepted, 0),
        (4, Who::First, Ask::Other, 0, 0, Told::NotLive, 0),
        (4, Who::First, Ask::Auth, 0, 0, Told::Accepted, 0),
        (4, Who::Second, Ask::Deregister, 0, 0, Told::Accepted, 0),
        (4, Who::First, Ask::Other, 0, 0, Told::Accepted, 0),
        (4, Who::Second, Ask::Other, 0, 0, Told::NotLive, 0),
    ];
    let mut hub = ghostly(rt.alloc(), 100, &[]).expect(&rt, "memory");
    let untold = first_untold(rt.alloc(), &mut hub, steps);
    let held = held_by(&hub, 4);
    let row = last_of(rt.alloc(), hub, Who::First);
    assert!(rt; untold == None);
    assert!(rt; held == (true, false));
    assert!(rt; row == Some(4));
}
