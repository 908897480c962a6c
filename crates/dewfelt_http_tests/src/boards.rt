//! What a board shows of what it was told.

use dewfelt_board::{Board, Changes, Cursor, vehicle_line};
use jt_platform::{Entry, Reply, Request};
use jt_register::Register;
use jt_service::Ended;
use jt_session::{End, Report};
use jt_value::{Edition, Octets, Phone, Seq};
use std::alloc::Global;
use std::net::SocketAddr;
use std::process::Abort;

const RUN: u32 = 0x6772_c577;

const NOW: u64 = 1_800_000_000;

fn phone(last: u8) -> Phone {
    Phone {
        edition: Edition::E2013,
        digits: [0, 0, 0, 0, 0x01, 0x39, 0x12, 0x34, 0x56, last],
    }
}

fn board(rt: &impl Abort, alloc: Global) -> Board {
    Board::new(alloc, RUN).expect(rt, "memory")
}

fn changes(rt: &impl Abort, alloc: Global, board: &Board, since: Option<Cursor>) -> Changes {
    let since = match since {
        Some(cursor) => Some((RUN, cursor)),
        None => None,
    };
    board.changes(alloc, since, 2).expect(rt, "memory")
}

fn octets(rt: &impl Abort, alloc: Global, octets: &[u8]) -> Octets {
    Seq::from_vec(Vec::from_slice(alloc, octets).expect(rt, "memory"))
}

fn tell_once<R: Abort>(rt: &R, alloc: Global, board: &mut Board) {
    board.seat(&phone(1), b"\xd4\xc1A00021", b"T000005\0\0");
    let first = changes(rt, alloc, board, None);
    assert!(rt; first.is_full && !first.is_more);
    assert_eq!(rt; first.vehicles.len(), 1);
    assert!(rt; first.vehicles[0].terminal.as_slice() == b"T000005".as_slice());
    let next = changes(rt, alloc, board, Some(first.cursor));
    assert!(rt; !next.is_full);
    assert_eq!(rt; next.vehicles.len(), 0);
}

#[test]
fn a_registered_phone_is_told_once(rt: HostRuntime) {
    let mut board = board(&rt, rt.alloc());
    tell_once(&rt, rt.alloc(), &mut board);
}

fn follow_pages<R: Abort>(rt: &R, alloc: Global, board: &mut Board) {
    for last in 0..5u8 {
        board.seat(&phone(last), b"A", b"T");
    }
    let first = changes(rt, alloc, board, None);
    assert!(rt; first.is_full && first.is_more && first.vehicles.len() == 2);
    board.let_in(7, &phone(0));
    let second = changes(rt, alloc, board, Some(first.cursor));
    assert!(rt; !second.is_full && second.is_more && second.vehicles.len() == 2);
    let third = changes(rt, alloc, board, Some(second.cursor));
    assert!(rt; !third.is_full && !third.is_more && third.vehicles.len() == 2);
    assert!(rt; third.vehicles[1].digits == phone(0).digits);
    assert!(rt; third.vehicles[1].session == Some(7));
}

#[test]
fn pages_name_each_vehicle_once(rt: HostRuntime) {
    let mut board = board(&rt, rt.alloc());
    follow_pages(&rt, rt.alloc(), &mut board);
}

fn read_anew<R: Abort>(rt: &R, alloc: Global, board: &mut Board) {
    board.seat(&phone(1), b"A", b"T");
    board.seat(&phone(2), b"B", b"U");
    let first = changes(rt, alloc, board, None);
    board.unseat(&phone(1));
    let next = changes(rt, alloc, board, Some(first.cursor));
    assert!(rt; next.is_full && !next.is_more);
    assert!(rt; next.vehicles.len() == 1);
    let last = changes(rt, alloc, board, Some(next.cursor));
    assert!(rt; !last.is_full && last.vehicles.len() == 0);
    let other = board.changes(alloc, Some((1, next.cursor)), 2);
    assert!(rt; other.expect(rt, "memory").is_full);
}

#[test]
fn who_follows_reads_all_anew_where_a_vehicle_left(rt: HostRuntime) {
    let mut board = board(&rt, rt.alloc());
    read_anew(&rt, rt.alloc(), &mut board);
}

// A position: alarm 0, status 3, 22.514446 north, 113.943110 east, 48 m, 42.1 km/h, 90 degrees, 2026-11-30 15:05:00, 12090.7 km.
const POSITION: &[u8] =
    b"\0\0\0\0\0\0\0\x03\x01\x57\x8b\x0e\x06\xca\xa2\x46\0\x30\x01\xa5\0\x5a\x26\x11\x30\x15\x05\0\x01\x04\0\x01\xd8\x4b";

// A batch of two positions of 28 octets, at 1.000000 and 2.000000 degrees.
const BATCH: &[u8] =
    b"\0\x02\0\0\x1c\0\0\0\0\0\0\0\x03\0\x0f\x42\x40\0\x0f\x42\x40\0\0\0\0\0\0\x26\x11\x30\x15\x05\0\0\x1c\0\0\0\0\0\0\0\x03\0\x1e\x84\x80\0\x1e\x84\x80\0\0\0\0\0\0\x26\x11\x30\x15\x06\0";

fn show_fixes<R: Abort>(rt: &R, alloc: Global, board: &mut Board) {
    board.seat(&phone(1), b"A", b"T");
    board.row(&phone(1), 77, 0x0200, POSITION);
    let shown = board.vehicle(&phone(1).digits).expect(rt, "a vehicle");
    let fix = shown.fix.expect(rt, "a fix");
    assert!(rt; shown.last == Some(77) && fix.number == 77 && fix.at == 0);
    assert!(rt; fix.fixed.lat == 22_514_446 && fix.fixed.lon == 113_943_110);
    assert!(rt; fix.fixed.speed == 421 && fix.mileage == Some(120_907));
    board.row(&phone(1), 78, 0x0704, BATCH);
    let shown = board.vehicle(&phone(1).digits).expect(rt, "a vehicle");
    let fix = shown.fix.expect(rt, "a fix");
    assert!(rt; shown.last == Some(78) && fix.at == 1 && fix.fixed.lat == 2_000_000);
    board.row(&phone(1), 79, 0x0200, b"\0");
    let shown = board.vehicle(&phone(1).digits).expect(rt, "a vehicle");
    assert!(rt; shown.last == Some(79) && shown.fix.expect(rt, "a fix").number == 78);
}

#[test]
fn the_last_fix_of_a_row_is_shown(rt: HostRuntime) {
    let mut board = board(&rt, rt.alloc());
    show_fixes(&rt, rt.alloc(), &mut board);
}

fn denied(rt: &impl Abort, alloc: Global, session: u32, phone: Phone, plate: &[u8]) -> Entry {
    Entry {
        session,
        request: Request::Register {
            phone,
            register: Register {
                province: 44,
                city: 3,
                maker: octets(rt, alloc, b"MAKER"),
                model: octets(rt, alloc, b"M"),
                terminal: octets(rt, alloc, b"Z900001\0\0"),
                colour: 1,
                plate: octets(rt, alloc, plate),
            },
        },
        reply: Reply::Denied(2),
    }
}

fn peer(rt: &impl Abort, text: &str) -> Option<SocketAddr> {
    Some(text.parse().expect(rt, "an address"))
}

fn list_stranger<R: Abort>(rt: &R, alloc: Global, board: &mut Board) {
    board.began(9, peer(rt, "192.0.2.17:4000"), NOW);
    let entry = denied(rt, alloc, 9, phone(0x78), b"\xd4\xc1B99999");
    board.noted(&entry, NOW);
    board.noted(&entry, NOW + 5);
    let list = board.strangers().as_slice();
    assert_eq!(rt; list.len(), 1);
    assert!(rt; list[0].tried == 2 && list[0].first == NOW && list[0].last == NOW + 5);
    let line = last_line(rt, alloc, board).expect(rt, "a line");
    assert!(rt; line.as_str() == "vehicle \"粤B99999\" \"Z900001\" 013912345678");
    board.seat(&phone(0x78), b"\xd4\xc1B99999", b"Z900001");
    assert_eq!(rt; board.strangers().as_slice().len(), 0);
}

#[test]
fn strangers_are_listed_with_their_line(rt: HostRuntime) {
    let mut board = board(&rt, rt.alloc());
    list_stranger(&rt, rt.alloc(), &mut board);
}

fn crowd_address<R: Abort>(rt: &R, alloc: Global, board: &mut Board) {
    board.began(1, peer(rt, "192.0.2.17:4000"), NOW);
    board.began(2, peer(rt, "[2001:db8::1]:4000"), NOW);
    let other = denied(rt, alloc, 2, phone(0x99), b"B");
    board.noted(&other, NOW);
    for last in 0..9u8 {
        let entry = denied(rt, alloc, 1, phone(last), b"A");
        board.noted(&entry, NOW);
    }
    let list = board.strangers().as_slice();
    assert_eq!(rt; list.len(), 6);
    assert!(rt; list[0].digits == phone(0x99).digits);
    assert!(rt; list[1].digits == phone(4).digits);
}

#[test]
fn an_address_has_five_strangers_at_most(rt: HostRuntime) {
    let mut board = board(&rt, rt.alloc());
    crowd_address(&rt, rt.alloc(), &mut board);
}

// The line of the terminal that came last.
fn last_line<R: Abort>(rt: &R, alloc: Global, board: &Board) -> Option<String> {
    let last = board.strangers().as_slice().last().expect(rt, "a stranger");
    vehicle_line(alloc, last).expect(rt, "memory")
}

fn show_digits<R: Abort>(rt: &R, alloc: Global, board: &mut Board) {
    board.noted(&denied(rt, alloc, 9, phone(0x78), b"\xff\x01"), NOW);
    let line = last_line(rt, alloc, board).expect(rt, "a line");
    assert!(rt; line.as_str() == "vehicle ff01 \"Z900001\" 013912345678");
    board.noted(&denied(rt, alloc, 9, phone(0x78), b""), NOW);
    assert!(rt; last_line(rt, alloc, board).is_none());
}

#[test]
fn a_plate_that_is_no_text_has_a_line_of_digits(rt: HostRuntime) {
    let mut board = board(&rt, rt.alloc());
    show_digits(&rt, rt.alloc(), &mut board);
}

fn ended(session: u32, phone: Phone) -> Ended {
    Ended {
        report: Report {
            session,
            read: 100,
            written: 20,
            frames: 3,
            refused: 1,
            dropped: 0,
            end: End::Idle,
        },
        peer: None,
        phone: Some(phone),
        cut: None,
        milliseconds: 60_000,
    }
}

fn end_links<R: Abort>(rt: &R, alloc: Global, board: &mut Board) {
    board.seat(&phone(1), b"A", b"T");
    board.began(5, None, NOW);
    board.let_in(5, &phone(1));
    assert!(rt;
        board
            .vehicle(&phone(1).digits)
            .expect(rt, "a vehicle")
            .session
            == Some(5)
    );
    board.let_in(6, &phone(1));
    board.ended(&ended(5, phone(1)), NOW);
    assert!(rt;
        board
            .vehicle(&phone(1).digits)
            .expect(rt, "a vehicle")
            .session
            == Some(6)
    );
    board.ended(&ended(6, phone(1)), NOW);
    let vehicle = board.vehicle(&phone(1).digits).expect(rt, "a vehicle");
    assert!(rt; vehicle.session.is_none());
    assert!(rt; vehicle.end.expect(rt, "an end").ending.word() == "idle");
    assert_eq!(rt; board.sessions().count(), 0);
    assert_eq!(rt; board.sessions().ended(alloc).expect(rt, "memory").len(), 2);
    assert!(rt; board.counters().read == 200 && board.counters().frames == 6);
}

#[test]
fn a_link_that_ends_is_told_with_its_end(rt: HostRuntime) {
    let mut board = board(&rt, rt.alloc());
    end_links(&rt, rt.alloc(), &mut board);
}

#[test]
fn a_cursor_reads_back(rt: HostRuntime) {
    let rows: &[(&str, u32, u64, u64)] = &[
        ("6772c577.13", RUN, 13, 13),
        ("00000001.0", 1, 0, 0),
        ("6772c577.7:13", RUN, 7, 13),
    ];
    for (text, run, told, point) in rows {
        let cursor = Cursor {
            told: *told,
            point: *point,
        };
        assert!(rt; Cursor::read(text) == Some((*run, cursor)));
        let written = cursor.text(rt.alloc(), *run).expect(&rt, "memory");
        assert!(rt; written.as_str() == *text);
    }
    let wrong: &[&str] = &[
        "",
        "q",
        "6772c577",
        "6772C577.1",
        "6772c577.",
        "6772c577.1:",
        "6772c577.-1",
        "6772c57.1",
        "6772c577.18446744073709551616",
    ];
    for text in wrong {
        assert!(rt; Cursor::read(text).is_none());
    }
}
