//! What sessions write, and what a hub has of them.

use crate::running::run_closed;
use std::alloc::Global;
use std::process::Abort;

// The first row whose stream, behind the octets before, is not answered so, or the number of rows. In a row stand the stream,
// what is written, and a letter for each reply.
fn wrong_row(
    rt: &impl Abort,
    alloc: Global,
    before: &[u8],
    rows: &[(&[u8], &[u8], &[u8])],
) -> usize {
    for (place, row) in rows.iter().enumerate() {
        let (stream, written, replies) = *row;
        let ran = run_closed(rt, alloc, before, stream, 0);
        if ran.written.as_slice() != written || ran.replies.as_slice() != replies {
            return place;
        }
    }
    rows.len()
}

// The registration of phone 333435363738, and its authentication.
const START: &[u8] =
    b"\x7e\x01\0\0\x26345678\0\0\0\0\0\0\0\0\0\0\0\0\0\0\0\0\0\0\0\0\0\0\0\0\0\0\0\0\0\0\01\0\0\0\0\0\0\x01A\x5d\x7e\x7e\x01\x02\0\x10345678\0\x01ef797c8118f02dfbD\x7e";

// The same in the edition of 2019.
const START_2019: &[u8] =
    b"\x7e\x01\0\x40M\x01\0\0\0\0345678\0\0\0\0\0\0\0\0\0\0\0\0\0\0\0\0\0\0\0\0\0\0\0\0\0\0\0\0\0\0\0\0\0\0\0\0\0\0\0\0\0\0\0\0\0\0\01\0\0\0\0\0\0\0\0\0\0\0\0\0\0\0\0\0\0\0\0\0\0\0\0\0\0\0\0\0\x01Aw\x7e\x7e\x01\x02\x404\x01\0\0\0\0345678\0\x01\x10337338e726f24140000000000000000v\0\0\0\0\0\0\0\0\0\0\0\0\0\0\0\0\0\0\0\x26\x7e";

#[test]
fn first_frames(rt: HostRuntime) {
    let rows: &[(&[u8], &[u8], &[u8])] = &[
        // A heartbeat.
        (
            b"\x7e\0\x02\0\0\x019\x124Vx\0\02\x7e",
            b"\x7e\x80\x01\0\x05\x019\x124Vx\0\0\0\0\0\x02\x01\xb7\x7e",
            b"LA",
        ),
        // A registration.
        (
            b"\x7e\x01\0\0\x26345678\0\0\0\0\0\0\0\0\0\0\0\0\0\0\0\0\0\0\0\0\0\0\0\0\0\0\0\0\0\0\01\0\0\0\0\0\0\x01A\x5d\x7e",
            b"\x7e\x81\0\0\x13345678\0\0\0\0\0ef797c8118f02dfb\xc4\x7e",
            b"RA",
        ),
        // A registration and an authentication.
        (
            b"\x7e\x01\0\0\x26345678\0\0\0\0\0\0\0\0\0\0\0\0\0\0\0\0\0\0\0\0\0\0\0\0\0\0\0\0\0\0\01\0\0\0\0\0\0\x01A\x5d\x7e\x7e\x01\x02\0\x10345678\0\x01ef797c8118f02dfbD\x7e",
            b"\x7e\x81\0\0\x13345678\0\0\0\0\0ef797c8118f02dfb\xc4\x7e\x7e\x80\x01\0\x05345678\0\x01\0\x01\x01\x02\0\x8c\x7e",
            b"RAA",
        ),
        // A registration and an authentication of 2019.
        (
            b"\x7e\x01\0\x40M\x01\0\0\0\0345678\0\0\0\0\0\0\0\0\0\0\0\0\0\0\0\0\0\0\0\0\0\0\0\0\0\0\0\0\0\0\0\0\0\0\0\0\0\0\0\0\0\0\0\0\0\0\01\0\0\0\0\0\0\0\0\0\0\0\0\0\0\0\0\0\0\0\0\0\0\0\0\0\0\0\0\0\x01Aw\x7e\x7e\x01\x02\x404\x01\0\0\0\0345678\0\x01\x10337338e726f24140000000000000000v\0\0\0\0\0\0\0\0\0\0\0\0\0\0\0\0\0\0\0\x26\x7e",
            b"\x7e\x81\0\x40\x13\x01\0\0\0\0345678\0\0\0\0\0337338e726f24140\xd4\x7e\x7e\x80\x01\x40\x05\x01\0\0\0\0345678\0\x01\0\x01\x01\x02\0\xcd\x7e",
            b"RAA",
        ),
        // A frame of another phone.
        (
            b"\x7e\0\x02\0\0\x019\x124Vx\0\02\x7e\x7e\0\x02\0\0\x019\x124Vy\0\x074\x7e",
            b"\x7e\x80\x01\0\x05\x019\x124Vx\0\0\0\0\0\x02\x01\xb7\x7e\x7e\x80\x01\0\x05\x019\x124Vy\0\x01\0\x07\0\x02\x01\xb0\x7e",
            b"LA",
        ),
        // The same digits in the other edition.
        (
            b"\x7e\0\x02\0\0\x019\x124Vx\0\02\x7e\x7e\0\x02\x40\0\x01\0\0\0\0\x019\x124Vx\0\x05v\x7e",
            b"\x7e\x80\x01\0\x05\x019\x124Vx\0\0\0\0\0\x02\x01\xb7\x7e\x7e\x80\x01\x40\x05\x01\0\0\0\0\x019\x124Vx\0\x01\0\x05\0\x02\x01\xf2\x7e",
            b"LLA",
        ),
        // A refused body.
        (
            b"\x7e\0\x02\0\x01\x019\x124Vx\0\x03\00\x7e",
            b"\x7e\x80\x01\0\x05\x019\x124Vx\0\0\0\x03\0\x02\x02\xb7\x7e",
            b"A",
        ),
        // A refused body in one packet.
        (
            b"\x7e\0\x02\x20\x01\x019\x124Vx\0\x03\0\x01\0\x01\0\x10\x7e",
            b"\x7e\x80\x01\0\x05\x019\x124Vx\0\0\0\x03\0\x02\x02\xb7\x7e",
            b"A",
        ),
        // A packet of too many.
        (
            b"\x7e\x01\x04\x20\x02\x019\x124Vx\0\x0a\x01\x01\0\x01\0\x07\x1b\x7e",
            b"\x7e\x80\x01\0\x05\x019\x124Vx\0\0\0\x0a\x01\x04\x02\xb9\x7e",
            b"A",
        ),
        // The same packet twice.
        (
            b"\x7e\x01\x04\x20\x02\x019\x124Vx\0\x0a\0\x03\0\x01\0\x07\x18\x7e\x7e\x01\x04\x20\x02\x019\x124Vx\0\x0a\0\x03\0\x01\0\x07\x18\x7e",
            b"",
            b"A",
        ),
        // Five messages in packets begun.
        (
            b"\x7e\x01\x04\x20\x02\x019\x124Vx\0\0\0\x03\0\x01\0\x07\x12\x7e\x7e\x01\x04\x20\x02\x019\x124Vx\0\x0a\0\x03\0\x01\0\x07\x18\x7e\x7e\x01\x04\x20\x02\x019\x124Vx\0\x14\0\x03\0\x01\0\x07\x06\x7e\x7e\x01\x04\x20\x02\x019\x124Vx\0\x1e\0\x03\0\x01\0\x07\x0c\x7e\x7e\x01\x04\x20\x02\x019\x124Vx\0\x28\0\x03\0\x01\0\x07\x3a\x7e",
            b"",
            b"A",
        ),
        // A plate that is not in the fleet.
        (
            b"\x7e\x01\0\0\x26345678\0\x09\0\0\0\0\0\0\0\0\0\0\0\0\0\0\0\0\0\0\0\0\0\0\0\0\0\0\0\0\01\0\0\0\0\0\0\x01BW\x7e",
            b"\x7e\x81\0\0\x03345678\0\0\0\x09\x02\x82\x7e",
            b"DA",
        ),
        // A code that is not the phone's.
        (
            b"\x7e\x01\x02\0\x01345678\0\x0900\x7e",
            b"\x7e\x80\x01\0\x05345678\0\0\0\x09\x01\x02\x01\x84\x7e",
            b"DA",
        ),
        // A unit before the authentication.
        (
            b"\x7e\x02\0\0\x1c345678\0\x09\0\0\0\0\0\0\0\0\0\0\0\0\0\0\0\0\0\0\0\0\0\0\0\0\0\0\0\0\x1c\x7e",
            b"\x7e\x80\x01\0\x05345678\0\0\0\x09\x02\0\x01\x85\x7e",
            b"LA",
        ),
        // A frame whose check octet is wrong.
        (
            b"\x7e\0\x02\0\0\x019\x124Vx\0\03\x7e\x7e\0\x02\0\0\x019\x124Vx\0\02\x7e",
            b"\x7e\x80\x01\0\x05\x019\x124Vx\0\0\0\0\0\x02\x01\xb7\x7e",
            b"LA",
        ),
    ];
    assert!(rt; wrong_row(&rt, rt.alloc(), &[], rows) == 15);
}

#[test]
fn frames_of_a_live_session(rt: HostRuntime) {
    let rows: &[(&[u8], &[u8], &[u8])] = &[
        // A unit.
        (
            b"\x7e\x02\0\0\x1c345678\0\x02\0\0\0\0\0\0\0\0\0\0\0\0\0\0\0\0\0\0\0\0\0\0\0\0\0\0\0\0\x17\x7e",
            b"\x7e\x80\x01\0\x05345678\0\x02\0\x02\x02\0\0\x8d\x7e",
            b"RASA",
        ),
        // A unit in three packets, the last one first.
        (
            b"\x7e\x02\0\x20\x08345678\0\x04\0\x03\0\x03\x14\x15\0\0\0\0\0\0\x24\x7e\x7e\x02\0\x20\x0a345678\0\x02\0\x03\0\x01\0\x01\x02\x03\x04\x05\x06\x07\x08\x09\x22\x7e\x7e\x02\0\x20\x0a345678\0\x03\0\x03\0\x02\x0a\x0b\x0c\x0d\x0e\x0f\x10\x11\x12\x13\x20\x7e",
            b"\x7e\x80\x03\0\x07345678\0\x02\0\x02\x02\0\x01\0\x02\x8e\x7e\x7e\x80\x01\0\x05345678\0\x03\0\x02\x02\0\0\x8c\x7e",
            b"RASA",
        ),
        // A message that is no row of the table.
        (
            b"\x7e\x0f\xff\0\x02345678\0\x02ab\xf8\x7e",
            b"\x7e\x80\x01\0\x05345678\0\x02\0\x02\x0f\xff\x03\x7c\x7e",
            b"RAAA",
        ),
        // A heartbeat of a live session.
        (
            b"\x7e\0\x02\0\0345678\0\x02\x0b\x7e",
            b"\x7e\x80\x01\0\x05345678\0\x02\0\x02\0\x02\0\x8d\x7e",
            b"RAAA",
        ),
        // A response of the terminal.
        (
            b"\x7e\0\x01\0\x05345678\0\x02\0\0\x81\x03\0\x8f\x7e",
            b"",
            b"RAAA",
        ),
        // A registration given up, and a heartbeat behind it.
        (
            b"\x7e\0\x03\0\0345678\0\x02\x0a\x7e\x7e\0\x02\0\0345678\0\x03\x0a\x7e",
            b"\x7e\x80\x01\0\x05345678\0\x02\0\x02\0\x03\0\x8c\x7e\x7e\x80\x01\0\x05345678\0\x03\0\x03\0\x02\x01\x8c\x7e",
            b"RAALA",
        ),
        // The same unit twice.
        (
            b"\x7e\x02\0\0\x1c345678\0\x02\0\0\0\0\0\0\0\0\0\0\0\0\0\0\0\0\0\0\0\0\0\0\0\0\0\0\0\0\x17\x7e\x7e\x02\0\0\x1c345678\0\x02\0\0\0\0\0\0\0\0\0\0\0\0\0\0\0\0\0\0\0\0\0\0\0\0\0\0\0\0\x17\x7e",
            b"\x7e\x80\x01\0\x05345678\0\x02\0\x02\x02\0\0\x8d\x7e\x7e\x80\x01\0\x05345678\0\x03\0\x02\x02\0\0\x8c\x7e",
            b"RASPA",
        ),
    ];
    assert!(rt; wrong_row(&rt, rt.alloc(), START, rows) == 7);
}

#[test]
fn packets_of_2019(rt: HostRuntime) {
    let rows: &[(&[u8], &[u8], &[u8])] = &[
        // A unit in three packets, the last one first.
        (
            b"\x7e\x02\0\x60\x08\x01\0\0\0\0345678\0\x04\0\x03\0\x03\x14\x15\0\0\0\0\0\0e\x7e\x7e\x02\0\x60\x0a\x01\0\0\0\0345678\0\x02\0\x03\0\x01\0\x01\x02\x03\x04\x05\x06\x07\x08\x09c\x7e\x7e\x02\0\x60\x0a\x01\0\0\0\0345678\0\x03\0\x03\0\x02\x0a\x0b\x0c\x0d\x0e\x0f\x10\x11\x12\x13a\x7e",
            b"\x7e\x80\x03\x40\x08\x01\0\0\0\0345678\0\x02\0\x02\0\x02\0\x01\0\x02\xc0\x7e\x7e\x80\x01\x40\x05\x01\0\0\0\0345678\0\x03\0\x02\x02\0\0\xcd\x7e",
            b"RASA",
        ),
    ];
    assert!(rt; wrong_row(&rt, rt.alloc(), START_2019, rows) == 1);
}

// A registration, an authentication and a unit.
const DAY: &[u8] =
    b"\x7e\x01\0\0\x26345678\0\0\0\0\0\0\0\0\0\0\0\0\0\0\0\0\0\0\0\0\0\0\0\0\0\0\0\0\0\0\01\0\0\0\0\0\0\x01A\x5d\x7e\x7e\x01\x02\0\x10345678\0\x01ef797c8118f02dfbD\x7e\x7e\x02\0\0\x1c345678\0\x02\0\0\0\0\0\0\0\0\0\0\0\0\0\0\0\0\0\0\0\0\0\0\0\0\0\0\0\0\x17\x7e";

const ANSWERS: &[u8] =
    b"\x7e\x81\0\0\x13345678\0\0\0\0\0ef797c8118f02dfb\xc4\x7e\x7e\x80\x01\0\x05345678\0\x01\0\x01\x01\x02\0\x8c\x7e\x7e\x80\x01\0\x05345678\0\x02\0\x02\x02\0\0\x8d\x7e";

const ENTRIES: &[u8] =
    b"R\0\0\0\0345678ARef797c8118f02dfbA\0\0\0\0345678ef797c8118f02dfbAU\0\0\0\0345678\0\x02\x02\0\0\0\0\0\0\0\0\0\0\0\0\0\0\0\0\0\0\0\0\0\0\0\0\0\0\0\0\0S\0\0\0\0\0\0\0\x02CA";

// Whether the day tells this where it is cut after so many octets.
fn says_all(rt: &impl Abort, alloc: Global, cut: usize) -> bool {
    let ran = run_closed(rt, alloc, &[], DAY, cut);
    ran.written.as_slice() == ANSWERS && ran.entries.as_slice() == ENTRIES
}

#[test]
fn cut_after_each_octet(rt: HostRuntime) {
    for cut in 0..=DAY.len() {
        assert!(rt; says_all(&rt, rt.alloc(), cut));
    }
}
