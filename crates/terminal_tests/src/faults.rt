//! Calls of the vault that fail. All is of 2013.

use crate::talking::{Row, first_wrong};
use jt_value::Edition;

const SET_PARAMETERS: &[u8] =
    b"\x7e\x81\x03\x00\x0a\x01\x39\x12\x34\x56\x78\x00\x64\x01\x00\x00\x00\x02\x04\x00\x00\x00\x64\xbf\x7e";

const QUERY: &[u8] = b"\x7e\x81\x04\x00\x00\x01\x39\x12\x34\x56\x78\x00\x65\xd0\x7e";

const CIRCLE: &[u8] =
    b"\x7e\x86\x00\x00\x14\x01\x39\x12\x34\x56\x78\x00\x69\x01\x01\x00\x00\x00\x07\x00\x00\x00\x00\x00\x01\x00\x00\x00\x02\x00\x00\x00\x03\xcc\x7e";

const CIRCLE_A: &[u8] =
    b"\x7e\x86\x00\x00\x14\x01\x39\x12\x34\x56\x78\x00\x69\x02\x01\x00\x00\x00\x07\x00\x00\x00\x00\x00\x01\x00\x00\x00\x02\x00\x00\x00\x03\xcf\x7e";

#[test]
fn recording_a_fix_fails(rt: HostRuntime) {
    let rows: &[Row] = &[
        (b'F', 1, 0x0000, 0, b"", "failed"),
        (b'O', 0, 0x0000, 0, b"", "registration_0"),
        (b'R', 0, 0x0000, 0, b"AB", "authentication_1"),
        (b'A', 1, 0x0102, 0, b"", "-"),
        (b'T', 0, 0x0000, 0, b"", "-"),
    ];
    assert!(rt; first_wrong(rt.alloc(), Edition::E2013, &[2], rows) == 5);
}

#[test]
fn storing_the_code_fails(rt: HostRuntime) {
    let rows: &[Row] = &[
        (b'F', 1, 0x0000, 0, b"", "-"),
        (b'O', 0, 0x0000, 0, b"", "registration_0"),
        (b'R', 0, 0x0000, 0, b"AB", "store"),
        (b'T', 60000, 0x0000, 0, b"", "-"),
        (b'O', 0, 0x0000, 0, b"", "registration_1"),
    ];
    assert!(rt; first_wrong(rt.alloc(), Edition::E2013, &[3], rows) == 5);
}

#[test]
fn forming_fails(rt: HostRuntime) {
    let rows: &[Row] = &[
        (b'F', 1, 0x0000, 0, b"", "-"),
        (b'O', 0, 0x0000, 0, b"", "registration_0"),
        (b'R', 0, 0x0000, 0, b"AB", "authentication_1"),
        (b'A', 1, 0x0102, 0, b"", "store"),
        (b'T', 0, 0x0000, 0, b"", "-"),
        (b'O', 0, 0x0000, 0, b"", "authentication_2"),
        (b'A', 2, 0x0102, 0, b"", "late_unit_3"),
    ];
    assert!(rt; first_wrong(rt.alloc(), Edition::E2013, &[4], rows) == 7);
}

#[test]
fn accepting_fails(rt: HostRuntime) {
    let rows: &[Row] = &[
        (b'F', 1, 0x0000, 0, b"", "-"),
        (b'O', 0, 0x0000, 0, b"", "registration_0"),
        (b'R', 0, 0x0000, 0, b"AB", "authentication_1"),
        (b'A', 1, 0x0102, 0, b"", "unit_2"),
        (b'A', 2, 0x0200, 0, b"", "store"),
        (b'T', 0, 0x0000, 0, b"", "-"),
        (b'O', 0, 0x0000, 0, b"", "authentication_3"),
        (b'A', 3, 0x0102, 0, b"", "unit_2"),
        (b'A', 2, 0x0200, 0, b"", "told"),
    ];
    assert!(rt; first_wrong(rt.alloc(), Edition::E2013, &[5], rows) == 9);
}

#[test]
fn removing_the_code_fails(rt: HostRuntime) {
    let rows: &[Row] = &[
        (b'O', 0, 0x0000, 0, b"", "registration_0"),
        (b'R', 0, 0x0000, 0, b"AB", "authentication_1"),
        (b'A', 1, 0x0102, 0, b"", "-"),
        (b'L', 0, 0x0000, 0, b"", "-"),
        (b'O', 0, 0x0000, 0, b"", "authentication_2"),
        (b'A', 2, 0x0102, 1, b"", "store"),
        (b'O', 0, 0x0000, 0, b"", "authentication_3"),
    ];
    assert!(rt; first_wrong(rt.alloc(), Edition::E2013, &[3], rows) == 7);
}

#[test]
fn parameters_are_as_before_where_forming_fails(rt: HostRuntime) {
    let rows: &[Row] = &[
        (b'O', 0, 0x0000, 0, b"", "registration_0"),
        (b'R', 0, 0x0000, 0, b"AB", "authentication_1"),
        (b'A', 1, 0x0102, 0, b"", "-"),
        (b'F', 1, 0x0000, 0, b"", "-"),
        (b'D', 0, 0x0000, 0, SET_PARAMETERS, "store"),
        (b'O', 0, 0x0000, 0, b"", "authentication_3"),
        (b'A', 3, 0x0102, 0, b"", "late_unit_4"),
        (b'D', 0, 0x0000, 0, QUERY, "parameters_5"),
        (b'T', 10000, 0x0000, 0, b"", "late_unit_4"),
    ];
    assert!(rt; first_wrong(rt.alloc(), Edition::E2013, &[4], rows) == 9);
}

#[test]
fn regions_are_as_before_where_forming_fails(rt: HostRuntime) {
    let rows: &[Row] = &[
        (b'O', 0, 0x0000, 0, b"", "registration_0"),
        (b'R', 0, 0x0000, 0, b"AB", "authentication_1"),
        (b'A', 1, 0x0102, 0, b"", "-"),
        (b'F', 1, 0x0000, 0, b"", "-"),
        (b'D', 0, 0x0000, 0, CIRCLE, "store"),
        (b'O', 0, 0x0000, 0, b"", "authentication_3"),
        (b'A', 3, 0x0102, 0, b"", "late_unit_4"),
        (b'D', 0, 0x0000, 0, CIRCLE_A, "answer_5"),
    ];
    assert!(rt; first_wrong(rt.alloc(), Edition::E2013, &[4], rows) == 8);
}
