//! What the terminal says at each event, in both editions.

use crate::talking::{Row, expect_both};

// An octet more than a code may have.
const CODE: &[u8] =
    b"CCCCCCCCCCCCCCCCCCCCCCCCCCCCCCCCCCCCCCCCCCCCCCCCCCCCCCCCCCCCCCCCCCCCCCCCCCCCCCCCCCCCCCCCCCCCCCCCCCCCCCCCCCCCCCCCCCCCCCCCCCCCCCCCCCCCCCCCCCCCCCCCCCCCCCCCCCCCCCCCCCCCCCCCCCCCCCCCCCCCCCCCCCCCCCCCCCCCCCCCCCCCCCCCCCCCCCCCCCCCCCCCCCCCCCCCCCCCCCCCCCCCCCCCCCCCCCCC";

#[test]
fn waits_grow(rt: HostRuntime) {
    let rows: &[Row] = &[
        (b'O', 0, 0x0000, 0, b"", "registration_0"),
        (b'T', 10000, 0x0000, 0, b"", "registration_0"),
        (b'T', 30000, 0x0000, 0, b"", "registration_0"),
        (b'T', 90000, 0x0000, 0, b"", "registration_0"),
        (b'T', 329999, 0x0000, 0, b"", "-"),
        (b'T', 330000, 0x0000, 0, b"", "timed_out"),
    ];
    expect_both(&rt, rt.alloc(), rows);
}

#[test]
fn a_response_to_another_id_is_passed_over(rt: HostRuntime) {
    let rows: &[Row] = &[
        (b'O', 0, 0x0000, 0, b"", "registration_0"),
        (b'R', 0, 0x0000, 0, b"AB", "authentication_1"),
        (b'A', 1, 0x0102, 0, b"", "-"),
        (b'F', 1, 0x0000, 0, b"", "-"),
        (b'T', 0, 0x0000, 0, b"", "unit_2"),
        (b'A', 2, 0x0002, 0, b"", "-"),
        (b'A', 3, 0x0200, 0, b"", "-"),
        (b'A', 2, 0x0200, 0, b"", "told"),
    ];
    expect_both(&rt, rt.alloc(), rows);
}

#[test]
fn a_unit_is_denied(rt: HostRuntime) {
    let rows: &[Row] = &[
        (b'O', 0, 0x0000, 0, b"", "registration_0"),
        (b'R', 0, 0x0000, 0, b"AB", "authentication_1"),
        (b'A', 1, 0x0102, 0, b"", "-"),
        (b'F', 1, 0x0000, 0, b"", "-"),
        (b'T', 0, 0x0000, 0, b"", "unit_2"),
        (b'A', 2, 0x0200, 1, b"", "denied_unit"),
        (b'T', 0, 0x0000, 0, b"", "-"),
    ];
    expect_both(&rt, rt.alloc(), rows);
}

#[test]
fn an_alarm_that_is_handled_accepts(rt: HostRuntime) {
    let rows: &[Row] = &[
        (b'O', 0, 0x0000, 0, b"", "registration_0"),
        (b'R', 0, 0x0000, 0, b"AB", "authentication_1"),
        (b'A', 1, 0x0102, 0, b"", "-"),
        (b'F', 1, 0x0000, 0, b"", "-"),
        (b'T', 0, 0x0000, 0, b"", "unit_2"),
        (b'A', 2, 0x0200, 4, b"", "told"),
        (b'A', 2, 0x0200, 4, b"", "-"),
    ];
    expect_both(&rt, rt.alloc(), rows);
}

#[test]
fn a_window_of_sixteen(rt: HostRuntime) {
    let rows: &[Row] = &[
        (b'O', 0, 0x0000, 0, b"", "registration_0"),
        (b'R', 0, 0x0000, 0, b"AB", "authentication_1"),
        (b'A', 1, 0x0102, 0, b"", "-"),
        (b'F', 1, 0x0000, 0, b"", "-"),
        (b'T', 0, 0x0000, 0, b"", "unit_2"),
        (b'F', 2, 0x0000, 0, b"", "-"),
        (b'T', 0, 0x0000, 0, b"", "unit_3"),
        (b'F', 3, 0x0000, 0, b"", "-"),
        (b'T', 0, 0x0000, 0, b"", "unit_4"),
        (b'F', 4, 0x0000, 0, b"", "-"),
        (b'T', 0, 0x0000, 0, b"", "unit_5"),
        (b'F', 5, 0x0000, 0, b"", "-"),
        (b'T', 0, 0x0000, 0, b"", "unit_6"),
        (b'F', 6, 0x0000, 0, b"", "-"),
        (b'T', 0, 0x0000, 0, b"", "unit_7"),
        (b'F', 7, 0x0000, 0, b"", "-"),
        (b'T', 0, 0x0000, 0, b"", "unit_8"),
        (b'F', 8, 0x0000, 0, b"", "-"),
        (b'T', 0, 0x0000, 0, b"", "unit_9"),
        (b'F', 9, 0x0000, 0, b"", "-"),
        (b'T', 0, 0x0000, 0, b"", "unit_10"),
        (b'F', 10, 0x0000, 0, b"", "-"),
        (b'T', 0, 0x0000, 0, b"", "unit_11"),
        (b'F', 11, 0x0000, 0, b"", "-"),
        (b'T', 0, 0x0000, 0, b"", "unit_12"),
        (b'F', 12, 0x0000, 0, b"", "-"),
        (b'T', 0, 0x0000, 0, b"", "unit_13"),
        (b'F', 13, 0x0000, 0, b"", "-"),
        (b'T', 0, 0x0000, 0, b"", "unit_14"),
        (b'F', 14, 0x0000, 0, b"", "-"),
        (b'T', 0, 0x0000, 0, b"", "unit_15"),
        (b'F', 15, 0x0000, 0, b"", "-"),
        (b'T', 0, 0x0000, 0, b"", "unit_16"),
        (b'F', 16, 0x0000, 0, b"", "-"),
        (b'T', 0, 0x0000, 0, b"", "unit_17"),
        (b'F', 17, 0x0000, 0, b"", "-"),
        (b'T', 0, 0x0000, 0, b"", "-"),
        (b'F', 18, 0x0000, 0, b"", "-"),
        (b'T', 0, 0x0000, 0, b"", "-"),
        (b'F', 19, 0x0000, 0, b"", "-"),
        (b'T', 0, 0x0000, 0, b"", "-"),
        (b'F', 20, 0x0000, 0, b"", "-"),
        (b'T', 0, 0x0000, 0, b"", "-"),
        (b'A', 2, 0x0200, 0, b"", "batch_18"),
    ];
    expect_both(&rt, rt.alloc(), rows);
}

#[test]
fn a_code_that_is_too_long(rt: HostRuntime) {
    let rows: &[Row] = &[
        (b'O', 0, 0x0000, 0, b"", "registration_0"),
        (b'R', 0, 0x0000, 0, CODE, "denied_for_its_code"),
        (b'O', 0, 0x0000, 0, b"", "registration_1"),
    ];
    expect_both(&rt, rt.alloc(), rows);
}

#[test]
fn a_registration_is_denied(rt: HostRuntime) {
    let rows: &[Row] = &[
        (b'O', 0, 0x0000, 0, b"", "registration_0"),
        (b'R', 1, 0x0000, 0, b"AB", "-"),
        (b'R', 0, 0x0000, 1, b"", "denied_registration"),
        (b'O', 0, 0x0000, 0, b"", "registration_1"),
    ];
    expect_both(&rt, rt.alloc(), rows);
}

#[test]
fn a_stored_code(rt: HostRuntime) {
    let rows: &[Row] = &[
        (b'O', 0, 0x0000, 0, b"", "registration_0"),
        (b'R', 0, 0x0000, 0, b"AB", "authentication_1"),
        (b'A', 1, 0x0102, 0, b"", "-"),
        (b'L', 0, 0x0000, 0, b"", "-"),
        (b'O', 0, 0x0000, 0, b"", "authentication_2"),
        (b'A', 1, 0x0102, 0, b"", "-"),
        (b'A', 2, 0x0102, 1, b"", "denied_authentication"),
        (b'O', 0, 0x0000, 0, b"", "registration_3"),
    ];
    expect_both(&rt, rt.alloc(), rows);
}

#[test]
fn forty_fixes_that_wait(rt: HostRuntime) {
    let rows: &[Row] = &[
        (b'F', 1, 0x0000, 0, b"", "-"),
        (b'F', 2, 0x0000, 0, b"", "-"),
        (b'F', 3, 0x0000, 0, b"", "-"),
        (b'F', 4, 0x0000, 0, b"", "-"),
        (b'F', 5, 0x0000, 0, b"", "-"),
        (b'F', 6, 0x0000, 0, b"", "-"),
        (b'F', 7, 0x0000, 0, b"", "-"),
        (b'F', 8, 0x0000, 0, b"", "-"),
        (b'F', 9, 0x0000, 0, b"", "-"),
        (b'F', 10, 0x0000, 0, b"", "-"),
        (b'F', 11, 0x0000, 0, b"", "-"),
        (b'F', 12, 0x0000, 0, b"", "-"),
        (b'F', 13, 0x0000, 0, b"", "-"),
        (b'F', 14, 0x0000, 0, b"", "-"),
        (b'F', 15, 0x0000, 0, b"", "-"),
        (b'F', 16, 0x0000, 0, b"", "-"),
        (b'F', 17, 0x0000, 0, b"", "-"),
        (b'F', 18, 0x0000, 0, b"", "-"),
        (b'F', 19, 0x0000, 0, b"", "-"),
        (b'F', 20, 0x0000, 0, b"", "-"),
        (b'F', 21, 0x0000, 0, b"", "-"),
        (b'F', 22, 0x0000, 0, b"", "-"),
        (b'F', 23, 0x0000, 0, b"", "-"),
        (b'F', 24, 0x0000, 0, b"", "-"),
        (b'F', 25, 0x0000, 0, b"", "-"),
        (b'F', 26, 0x0000, 0, b"", "-"),
        (b'F', 27, 0x0000, 0, b"", "-"),
        (b'F', 28, 0x0000, 0, b"", "-"),
        (b'F', 29, 0x0000, 0, b"", "-"),
        (b'F', 30, 0x0000, 0, b"", "-"),
        (b'F', 31, 0x0000, 0, b"", "-"),
        (b'F', 32, 0x0000, 0, b"", "-"),
        (b'F', 33, 0x0000, 0, b"", "-"),
        (b'F', 34, 0x0000, 0, b"", "-"),
        (b'F', 35, 0x0000, 0, b"", "-"),
        (b'F', 36, 0x0000, 0, b"", "-"),
        (b'F', 37, 0x0000, 0, b"", "-"),
        (b'F', 38, 0x0000, 0, b"", "-"),
        (b'F', 39, 0x0000, 0, b"", "-"),
        (b'F', 40, 0x0000, 0, b"", "-"),
        (b'O', 0, 0x0000, 0, b"", "registration_0"),
        (b'R', 0, 0x0000, 0, b"AB", "authentication_1"),
        (b'A', 1, 0x0102, 0, b"", "batch_2"),
    ];
    expect_both(&rt, rt.alloc(), rows);
}

#[test]
fn heartbeats(rt: HostRuntime) {
    let rows: &[Row] = &[
        (b'O', 0, 0x0000, 0, b"", "registration_0"),
        (b'R', 0, 0x0000, 0, b"AB", "authentication_1"),
        (b'A', 1, 0x0102, 0, b"", "-"),
        (b'T', 59999, 0x0000, 0, b"", "-"),
        (b'T', 60000, 0x0000, 0, b"", "heartbeat_2"),
        (b'T', 119999, 0x0000, 0, b"", "-"),
        (b'B', 0, 0x0000, 0, b"", "heartbeat_3"),
        (b'T', 120000, 0x0000, 0, b"", "-"),
        (b'T', 179999, 0x0000, 0, b"", "heartbeat_4"),
        (b'L', 0, 0x0000, 0, b"", "-"),
        (b'B', 0, 0x0000, 0, b"", "-"),
    ];
    expect_both(&rt, rt.alloc(), rows);
}

#[test]
fn a_unit_is_sent_again(rt: HostRuntime) {
    let rows: &[Row] = &[
        (b'O', 0, 0x0000, 0, b"", "registration_0"),
        (b'R', 0, 0x0000, 0, b"AB", "authentication_1"),
        (b'A', 1, 0x0102, 0, b"", "-"),
        (b'F', 1, 0x0000, 0, b"", "-"),
        (b'T', 0, 0x0000, 0, b"", "unit_2"),
        (b'T', 10000, 0x0000, 0, b"", "unit_2"),
        (b'T', 29999, 0x0000, 0, b"", "-"),
        (b'T', 30000, 0x0000, 0, b"", "unit_2"),
        (b'T', 90000, 0x0000, 0, b"", "unit_2"),
        (b'T', 330000, 0x0000, 0, b"", "timed_out"),
        (b'O', 0, 0x0000, 0, b"", "authentication_3"),
        (b'A', 3, 0x0102, 0, b"", "unit_2"),
    ];
    expect_both(&rt, rt.alloc(), rows);
}
