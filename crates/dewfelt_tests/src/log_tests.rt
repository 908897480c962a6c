use dewfelt_log::{Line, Outbox, ROOM, Rate, empty_room, in_gbk, time_text};
use std::alloc::{AllocError, Global};
use std::net::SocketAddr;
use std::test::Fail;

// 2026-11-30T15:05:02+08:00, by `date -u -d 2026-11-30T07:05:02Z +%s`.
const MOMENT: u64 = 1_796_022_302;

#[test]
fn moments(rt: HostRuntime) {
    // by `date -u -d .. +%s`
    let rows: &[(u64, &[u8])] = &[
        (0, b"1970-01-01T08:00:00+08:00"),
        (MOMENT, b"2026-11-30T15:05:02+08:00"),
        (951_782_399, b"2000-02-29T07:59:59+08:00"),
        (1_709_222_400, b"2024-03-01T00:00:00+08:00"),
        (4_102_415_999, b"2099-12-31T23:59:59+08:00"),
        (u64::MAX, b"0000-00-00T00:00:00+08:00"),
    ];
    for (seconds, expected) in rows {
        let found = time_text(*seconds);
        assert!(rt; found.as_slice() == *expected, "{seconds}");
    }
}

#[test]
fn texts_in_gbk(rt: HostRuntime) -> Result<(), Fail> {
    // by Python's codec
    let rows: &[(&[u8], &str)] = &[
        (b"", ""),
        (b"JT808", "JT808"),
        (b"\xd4\xc1B12345", "粤B12345"),
        (b"\xd4\xc1AA0021", "粤AA0021"),
        (b"\xbe\xa9A\xb9\xd2", "京A挂"),
        (b"\x81\x40\xfe\x4f", "丂﨩"),
        (b"\xa8\x40\xa8\x7e\xa8\x80", "ˊ▇█"),
        (b"\xfe\x50", "0xfe50"),
        (b"\x81\x7f", "0x817f"),
        (b"A\xd4", "0x41d4"),
        (b"A\n", "0x410a"),
        (b"\x80", "0x80"),
        (b"\xff\x40", "0xff40"),
        (b"A\x7f", "0x417f"),
    ];
    for (octets, expected) in rows {
        let found = in_gbk(rt.alloc(), octets)?;
        assert!(rt; found.as_str() == *expected, "{found}");
    }
    Ok(())
}

fn line_of(alloc: Global, key: &str, value: &[u8]) -> Vec<u8> {
    let mut line = Line::new(alloc, MOMENT, "e");
    line.octets(key, value);
    match line.end() {
        Some(octets) => octets,
        None => Vec::new(alloc),
    }
}

const FRONT: &[u8] = b"time=2026-11-30T15:05:02+08:00 event=e ";

#[test]
fn values_in_lines(rt: HostRuntime) {
    let rows: &[(&str, &[u8], &[u8])] = &[
        ("plate", b"AA0021", b"plate=AA0021\n"),
        ("plate", b"", b"plate=\"\"\n"),
        ("a", b"b c", b"a=\"b c\"\n"),
        ("a", b"b=c", b"a=\"b=c\"\n"),
        ("a", b"b\"c\\d", b"a=\"b\\\"c\\\\d\"\n"),
        ("a", b"b\nc\x00\x7f", b"a=\"b\\x0ac\\x00\\x7f\"\n"),
        ("a", b"\xe7\xb2\xa4", b"a=\xe7\xb2\xa4\n"),
        ("", b"1", b"_=1\n"),
        ("a b\n", b"1", b"a_b_=1\n"),
        (
            "a",
            &[b'x'; 70],
            b"a=xxxxxxxxxxxxxxxxxxxxxxxxxxxxxxxxxxxxxxxxxxxxxxxxxxxxxxxxxxxxxxxx\n",
        ),
        (
            "a",
            &[b'"'; 64],
            b"a=\"\\\"\\\"\\\"\\\"\\\"\\\"\\\"\\\"\\\"\\\"\\\"\\\"\\\"\\\"\\\"\\\"\\\"\\\"\\\"\\\"\\\"\\\"\\\"\\\"\\\"\\\"\\\"\\\"\\\"\\\"\\\"\\\"\\\"\\\"\\\"\\\"\\\"\\\"\\\"\\\"\\\"\\\"\\\"\\\"\\\"\\\"\\\"\\\"\\\"\\\"\\\"\\\"\\\"\\\"\\\"\\\"\\\"\\\"\\\"\\\"\\\"\\\"\\\"\\\"\"\n",
        ),
    ];
    for (key, value, expected) in rows {
        let found = line_of(rt.alloc(), key, value);
        let rest = found.as_slice().strip_prefix(FRONT);
        assert!(rt; rest == Some(*expected), "{found:?}");
    }
}

#[test]
fn a_cut_between_characters(rt: HostRuntime) {
    // 63 octets, and three of which none may stand alone
    let mut value = [b'x'; 66];
    value[63] = 0xe7;
    value[64] = 0xb2;
    value[65] = 0xa4;
    let found = line_of(rt.alloc(), "a", &value);
    assert!(rt; found.as_slice().len() == FRONT.len() + 2 + 63 + 1);
}

#[test]
fn a_long_text_in_gbk(rt: HostRuntime) -> Result<(), Fail> {
    // 35 characters of two octets each, of which 21 of three octets each have room
    let mut line = Line::new(rt.alloc(), MOMENT, "e");
    line.foreign(
        "plate",
        b"x\xd4\xc1\xd4\xc1\xd4\xc1\xd4\xc1\xd4\xc1\xd4\xc1\xd4\xc1\xd4\xc1\xd4\xc1\xd4\xc1\xd4\xc1\xd4\xc1\xd4\xc1\xd4\xc1\xd4\xc1\xd4\xc1\xd4\xc1\xd4\xc1\xd4\xc1\xd4\xc1\xd4\xc1\xd4\xc1\xd4\xc1\xd4\xc1\xd4\xc1\xd4\xc1\xd4\xc1\xd4\xc1\xd4\xc1\xd4\xc1\xd4\xc1\xd4\xc1\xd4\xc1\xd4\xc1\xd4\xc1",
    );
    let octets = line.end().ok_or("no line")?;
    let found = octets.as_slice().strip_prefix(FRONT);
    assert!(rt;
        found == Some("plate=x粤粤粤粤粤粤粤粤粤粤粤粤粤粤粤粤粤粤粤粤粤\n".as_bytes()),
        "{found:?}"
    );
    Ok(())
}

#[test]
fn a_session_in_one_line(rt: HostRuntime) -> Result<(), Fail> {
    let mut line = Line::new(rt.alloc(), MOMENT, "session");
    line.number("session", 100);
    line.address("peer", "192.0.2.17:41022".parse::<SocketAddr>()?);
    line.foreign("plate", b"\xd4\xc1AA0021");
    let expected =
        "time=2026-11-30T15:05:02+08:00 event=session session=100 peer=192.0.2.17:41022 plate=粤AA0021\n";
    let octets = line.end().ok_or("no line")?;
    assert!(rt; octets.as_slice() == expected.as_bytes());
    Ok(())
}

#[test]
fn ten_lines_a_second(rt: HostRuntime) {
    let mut rate = Rate::new();
    let mut lines = 0u32;
    for second in [5u64, 6, 6] {
        for _ in 0..8u32 {
            if rate.allows(second) {
                lines = lines.saturating_add(1);
            }
        }
    }
    assert!(rt; lines == 18);
    assert!(rt; rate.take_left_out() == 6);
    assert!(rt; rate.take_left_out() == 0);
}

fn full(alloc: Global) -> Result<Outbox, AllocError> {
    let mut outbox = Outbox::new(alloc)?;
    // 46 octets each: 5,698 have room, and 36 octets are left
    for _ in 0..6_000u32 {
        let mut line = Line::new(alloc, MOMENT, "full");
        line.number("n", 1);
        outbox.put(line);
    }
    Ok(outbox)
}

#[test]
fn lines_without_room(rt: HostRuntime) -> Result<(), Fail> {
    let mut outbox = full(rt.alloc())?;
    assert!(rt; outbox.take_lost() == 302);
    assert!(rt; outbox.take_lost() == 0);
    let lines = outbox.take(empty_room(rt.alloc())?);
    assert!(rt; lines.as_slice().len() == 5_698 * 46);
    assert!(rt; lines.as_slice().len() <= ROOM);
    outbox.put(Line::new(rt.alloc(), MOMENT, "x"));
    let lines = outbox.take(empty_room(rt.alloc())?);
    assert!(rt; lines.as_slice() == b"time=2026-11-30T15:05:02+08:00 event=x\n".as_slice());
    Ok(())
}
