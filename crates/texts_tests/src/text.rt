ghost use Rattle.std.specs.Prelude.{◌<◌, ◌^◌, length};

use jt_codec::{Message, MessageView, read_body, view_message};
use jt_header::{Header, Packet};
use jt_position::{view_batch, view_position};
use jt_register::{Auth, AuthTail};
use jt_text::{
    Line, push_message_line, push_message_view_line, push_refusal_line_with, refusal_line,
    view_line,
};
use jt_value::{Edition, Octets, Phone, Refusal, Why};
use std::alloc::Global;
use std::process::Abort;

fn header(id: u16, packet: Option<Packet>) -> Header {
    let digits = [0, 0, 0, 0, 0x01, 0x39, 0x12, 0x34, 0x56, 0x78];
    Header {
        edition: Edition::E2013,
        id,
        bit15: false,
        version: 0,
        phone: Phone {
            edition: Edition::E2013,
            digits,
        },
        serial: 3,
        packet,
    }
}

// Reads a body, and compares its line.
fn expect(rt: &impl Abort, alloc: Global, id: u16, body: &[u8], written: &str) {
    assert!(rt; body.len() < 1024);
    let message = read_body(alloc, Edition::E2013, id, body).expect(rt, "a body");
    expect_line(
        rt,
        alloc,
        7,
        &header(id, None),
        &message,
        body.len() as u16,
        written,
    );
}

// A row's id, body and line. The first two are digits, `-` where the body is empty, and the line stands behind ` => `.
fn parts<'a>(rt: &impl Abort, alloc: Global, row: &'a str) -> (u16, Vec<u8>, &'a str) {
    let (read, written) = row.split_once(" => ").expect(rt, "a row");
    let (id, digits) = read.split_once(" ").expect(rt, "two words");
    let id = u16::from_str_radix(id, 16).expect(rt, "an id");
    let digits = if digits == "-" { "" } else { digits };
    let body = hex::decode(alloc, digits.as_bytes()).expect(rt, "a body");
    (id, body, written)
}

fn expect_rows(rt: &impl Abort, alloc: Global, rows: &[&str]) {
    for row in rows {
        let (id, body, written) = parts(rt, alloc, row);
        expect(rt, alloc, id, body.as_slice(), written);
    }
}

fn octets(rt: &impl Abort, alloc: Global, octets: &[u8]) -> Octets {
    Octets::from_vec(Vec::from_slice(alloc, octets).expect(rt, "octets"))
}

// Compares the line of a message.
fn expect_line(
    rt: &impl Abort,
    alloc: Global,
    place: u64,
    header: &Header,
    message: &Message,
    size: u16,
    written: &str,
) {
    let line = view_line(alloc, place, header, message, size).expect(rt, "a line");
    assert!(rt; line.as_slice() == written.as_bytes());
}

#[test]
fn responses_and_registrations(rt: HostRuntime) {
    let rows: &[&str] = &[
        "0001 0007810303 => 7 2013 0x0001 terminal-ack phone=013912345678 serial=3 body=5 reply=7 id=0x8103 result=3\n",
        "8001 ffff020004 => 7 2013 0x8001 platform-ack phone=013912345678 serial=3 body=5 reply=65535 id=0x0200 result=4\n",
        "0003 - => 7 2013 0x0003 deregister phone=013912345678 serial=3 body=0\n",
        "0100 002c012c373031313141310000000000000000000000000000000000003132333435363702 => 7 2013 0x0100 register phone=013912345678 serial=3 body=37 province=44 city=300 maker=3730313131 model=4131000000000000000000000000000000000000 terminal=31323334353637 colour=2 plate=-\n",
        "8100 000504 => 7 2013 0x8100 register-reply phone=013912345678 serial=3 body=3 reply=5 result=4\n",
        "8100 00050041 => 7 2013 0x8100 register-reply phone=013912345678 serial=3 body=4 reply=5 result=0 code=41\n",
        "0102 - => 7 2013 0x0102 auth phone=013912345678 serial=3 body=0 code=-\n",
    ];
    expect_rows(&rt, rt.alloc(), rows);
}

#[test]
fn positions_and_batches(rt: HostRuntime) {
    let rows: &[&str] = &[
        "0200 00000001000c000301312d0006bc3e4000640258005a24022923595901040000000a020200050302010004020001110101110502000000071206010000000801130700000009003c012504000000802a0200032b040001000230011f31010c140400000001e000 => 7 2013 0x0200 position phone=013912345678 serial=3 body=103 alarm=0x00000001 status=0x000c0003 lat=20000000 lon=113000000 altitude=100 speed=600 direction=90 time=2024-02-29T23:59:59+08:00 item=0x01:10 item=0x02:5 item=0x03:256 item=0x04:1 item=0x11:1 item=0x11:2:7 item=0x12:1:8:1 item=0x13:9:60:1 item=0x25:128 item=0x2a:3 item=0x2b:65538 item=0x30:31 item=0x31:12 item=0x14:00000001 item=0xe0:-\n",
        "0201 000900000000000000000000000000000000000000000000230229000000 => 7 2013 0x0201 position-reply phone=013912345678 serial=3 body=30 reply=9 alarm=0x00000000 status=0x00000000 lat=0 lon=0 altitude=0 speed=0 direction=0 time=-\n",
        "0704 000001 => 7 2013 0x0704 batch phone=013912345678 serial=3 body=3 count=0 kind=1\n",
        "0704 000200001c00000001000c000301312d0006bc3e4000640258005a24022923595900200000000000000000000000000000000000000000000023022900000002020005 => 7 2013 0x0704 batch phone=013912345678 serial=3 body=67 count=2 kind=0 length=28 alarm=0x00000001 status=0x000c0003 lat=20000000 lon=113000000 altitude=100 speed=600 direction=90 time=2024-02-29T23:59:59+08:00 length=32 alarm=0x00000000 status=0x00000000 lat=0 lon=0 altitude=0 speed=0 direction=0 time=- item=0x02:5\n",
    ];
    expect_rows(&rt, rt.alloc(), rows);
}

#[test]
fn parameters(rt: HostRuntime) {
    let rows: &[&str] = &[
        "8103 040000008102002c0000008401020000000102003c0000008300 => 7 2013 0x8103 set-params phone=013912345678 serial=3 body=26 count=4 param=0x00000081:44 param=0x00000084:2 param=0x00000001:003c param=0x00000083:-\n",
        "8106 0100000001 => 7 2013 0x8106 query-some phone=013912345678 serial=3 body=5 count=1 id=0x00000001\n",
        "8106 00 => 7 2013 0x8106 query-some phone=013912345678 serial=3 body=1 count=0\n",
        "0104 00070200000001040000003c0000001303616263 => 7 2013 0x0104 params phone=013912345678 serial=3 body=20 reply=7 count=2 param=0x00000001:60 param=0x00000013:616263\n",
    ];
    expect_rows(&rt, rt.alloc(), rows);
}

#[test]
fn tracks_texts_and_orders(rt: HostRuntime) {
    let rows: &[&str] = &[
        "8202 0000 => 7 2013 0x8202 track phone=013912345678 serial=3 body=2 interval=0 validity=-\n",
        "8202 000500000258 => 7 2013 0x8202 track phone=013912345678 serial=3 body=6 interval=5 validity=600\n",
        "8300 010241 => 7 2013 0x8300 text phone=013912345678 serial=3 body=3 flag=1 text=0241\n",
        "8105 03 => 7 2013 0x8105 control phone=013912345678 serial=3 body=1 command=3 text=-\n",
    ];
    expect_rows(&rt, rt.alloc(), rows);
}

#[test]
fn a_text_of_a_kind(rt: HostRuntime) {
    let text = Message::Text {
        flag: 1,
        kind: Some(2),
        text: Octets::new(rt.alloc()),
    };
    let written = "0 2013 0x8300 text phone=013912345678 serial=3 body=2 flag=1 kind=2 text=-\n";
    expect_line(&rt, rt.alloc(), 0, &header(0x8300, None), &text, 2, written);
}

#[test]
fn regions_and_their_deletion(rt: HostRuntime) {
    let rows: &[&str] = &[
        "8600 010100000009000001312d0006bc3e4000000064 => 7 2013 0x8600 circles phone=013912345678 serial=3 body=20 setting=1 count=1 circle=9:0x0000:20000000:113000000:100:-:-:-:-\n",
        "8602 000100000007000001312d0a06bc3e4001312d0006bc3e4a => 7 2013 0x8602 rectangles phone=013912345678 serial=3 body=24 setting=0 count=1 rectangle=7:0x0000:20000010:113000000:20000000:113000010:-:-:-:-\n",
        "8604 00000009000000030000000006bc3e360000000a06bc3e4a0000000006bc3e4a => 7 2013 0x8604 polygon phone=013912345678 serial=3 body=32 polygon=9:0x0000:-:-:-:- count=3 vertex=0:112999990 vertex=10:113000010 vertex=0:113000010\n",
        "8604 0000000980020050050000 => 7 2013 0x8604 polygon phone=013912345678 serial=3 body=11 polygon=9:0x8002:-:-:80:5 count=0\n",
        "8606 0000000500012401010000002401020000000001000000060000000701312d0006bc3e400a03003c001e005005 => 7 2013 0x8606 route phone=013912345678 serial=3 body=45 route=5:0x0001:240101000000:240102000000 count=1 point=6:7:20000000:113000000:10:0x03:60:30:80:5\n",
        "8603 00 => 7 2013 0x8603 delete-rectangles phone=013912345678 serial=3 body=1 count=0\n",
        "8607 020000000900000100 => 7 2013 0x8607 delete-routes phone=013912345678 serial=3 body=9 count=2 id=9 id=256\n",
    ];
    expect_rows(&rt, rt.alloc(), rows);
}

#[test]
fn an_authentication_with_a_tail(rt: HostRuntime) {
    let code = octets(&rt, rt.alloc(), b"12");
    let tail = Some(AuthTail {
        imei: [b'3'; 15],
        software: [0; 20],
    });
    let auth = Message::Auth(Auth { code, tail });
    let written =
        "0 2013 0x0102 auth phone=013912345678 serial=3 body=38 length=2 code=3132 imei=333333333333333333333333333333 software=0000000000000000000000000000000000000000\n";
    expect_line(
        &rt,
        rt.alloc(),
        0,
        &header(0x0102, None),
        &auth,
        38,
        written,
    );
}

// Digits of 257 octets do not fit into a line's room.
const LONG: &[u8] =
    b"AAAAAAAAAAAAAAAAAAAAAAAAAAAAAAAAAAAAAAAAAAAAAAAAAAAAAAAAAAAAAAAAAAAAAAAAAAAAAAAAAAAAAAAAAAAAAAAAAAAAAAAAAAAAAAAAAAAAAAAAAAAAAAAAAAAAAAAAAAAAAAAAAAAAAAAAAAAAAAAAAAAAAAAAAAAAAAAAAAAAAAAAAAAAAAAAAAAAAAAAAAAAAAAAAAAAAAAAAAAAAAAAAAAAAAAAAAAAAAAAAAAAAAAAAAAAAAAAB";

const PART: &str =
    "5 2013 0x8606 route phone=013912345678 serial=3 packet=1/3 body=257 part=4141414141414141414141414141414141414141414141414141414141414141414141414141414141414141414141414141414141414141414141414141414141414141414141414141414141414141414141414141414141414141414141414141414141414141414141414141414141414141414141414141414141414141414141414141414141414141414141414141414141414141414141414141414141414141414141414141414141414141414141414141414141414141414141414141414141414141414141414141414141414141414141414141414141414141414141414141414141414141414141414141414141414141414141414141414142\n";

// A packet has the name of its id, and prints its octets.
#[test]
fn a_part(rt: HostRuntime) {
    let packet = Some(Packet {
        total: 3,
        number: 1,
    });
    let header = header(0x8606, packet);
    let part = Message::Part(octets(&rt, rt.alloc(), LONG));
    expect_line(&rt, rt.alloc(), 5, &header, &part, 257, PART);
}

#[test]
fn an_opaque_body(rt: HostRuntime) {
    let opaque = Message::Opaque {
        id: 0x8003,
        body: Octets::new(rt.alloc()),
    };
    let written = "6 2013 0x8003 opaque phone=013912345678 serial=3 body=0 body-octets=-\n";
    expect_line(
        &rt,
        rt.alloc(),
        6,
        &header(0x8003, None),
        &opaque,
        0,
        written,
    );
}

// Compares the line of a refusal at place 4.
fn expect_refusal(rt: &impl Abort, alloc: Global, why: Why, written: &str) {
    let refusal = Refusal {
        at: 4,
        inside: 12,
        why,
    };
    let line = refusal_line(alloc, &refusal).expect(rt, "a line");
    assert!(rt; line.as_slice() == written.as_bytes());
}

#[test]
fn refusals(rt: HostRuntime) {
    let rows: &[(Why, &str)] = &[
        (Why::BadEscape, "4+12 refused BadEscape\n"),
        (
            Why::CheckMismatch {
                computed: 0x32,
                found: 0x0A,
            },
            "4+12 refused CheckMismatch computed=32 found=0a\n",
        ),
        (
            Why::LengthMismatch {
                declared: 1,
                actual: 1023,
            },
            "4+12 refused LengthMismatch declared=1 actual=1023\n",
        ),
    ];
    for &(why, written) in rows {
        expect_refusal(&rt, rt.alloc(), why, written);
    }
}

// A body that is read in place.
fn view_of<'a>(rt: &impl Abort, header: &Header, body: &'a [u8]) -> MessageView<'a>
    requires { length body.now < 2 ^ 10 }
{
    view_message(header, body)
        .expect(rt, "a view")
        .expect(rt, "a message")
}

// Puts a line at the end of a text.
fn push_view(
    rt: &impl Abort,
    text: &mut String,
    line: &mut Line,
    place: u64,
    header: &Header,
    view: MessageView<'_>,
    size: u16,
) {
    push_message_view_line(text, line, place, header, view, size).expect(rt, "room");
}

// Reads a body in place, and compares its line.
fn expect_in_place(rt: &impl Abort, alloc: Global, header: &Header, body: &[u8], written: &str) {
    assert!(rt; body.len() < 1024);
    let view = view_of(rt, header, body);
    let mut text = String::new(alloc);
    push_view(
        rt,
        &mut text,
        &mut Line::new(),
        7,
        header,
        view,
        body.len() as u16,
    );
    assert!(rt; text.as_str() == written);
}

#[test]
fn orders_in_place(rt: HostRuntime) {
    let rows: &[&str] = &[
        "0003 - => 7 2013 0x0003 deregister phone=013912345678 serial=3 body=0\n",
        "8104 - => 7 2013 0x8104 query-params phone=013912345678 serial=3 body=0\n",
        "8201 - => 7 2013 0x8201 query-position phone=013912345678 serial=3 body=0\n",
        "8202 0000 => 7 2013 0x8202 track phone=013912345678 serial=3 body=2 interval=0 validity=-\n",
        "8202 000500000258 => 7 2013 0x8202 track phone=013912345678 serial=3 body=6 interval=5 validity=600\n",
        "8300 010241 => 7 2013 0x8300 text phone=013912345678 serial=3 body=3 flag=1 text=0241\n",
        "8105 03d600 => 7 2013 0x8105 control phone=013912345678 serial=3 body=3 command=3 text=d600\n",
    ];
    for row in rows {
        let (id, body, written) = parts(&rt, rt.alloc(), row);
        let body = body.as_slice();
        expect_in_place(&rt, rt.alloc(), &header(id, None), body, written);
    }
}

// In 2019 the octet behind the flag is the text's kind.
#[test]
fn a_text_of_2019_in_place(rt: HostRuntime) {
    let digits = [0, 0, 0, 0, 0x01, 0x39, 0x12, 0x34, 0x56, 0x78];
    let header = Header {
        edition: Edition::E2019,
        id: 0x8300,
        bit15: false,
        version: 1,
        phone: Phone {
            edition: Edition::E2019,
            digits,
        },
        serial: 3,
        packet: None,
    };
    expect_in_place(
        &rt,
        rt.alloc(),
        &header,
        b"\x01\x02\x41",
        "7 2019 0x8300 text phone=00000000013912345678 serial=3 version=1 body=3 flag=1 kind=2 text=41\n",
    );
}

// Two positions, of 33 and 28 octets.
const BATCH: &[u8] =
    b"\0\x02\x01\0\x21\0\0\0\0\0\0\0\x03\x01\x31\x2d\0\x06\xbc\x3e\x40\0\0\0\0\0\0\0\0\0\0\0\0\x01\x03\0\0\x0a\0\x1c\0\0\0\0\0\0\0\x03\x01\x31\x2d\0\x06\xbc\x3e\x40\0\x0a\0\0\0\0\x24\x03\x05\x12\x34\x56";

const BATCH_AND_REFUSAL: &str =
    "7 2013 0x0704 batch phone=013912345678 serial=3 body=68 count=2 kind=1 length=33 alarm=0x00000000 status=0x00000003 lat=20000000 lon=113000000 altitude=0 speed=0 direction=0 time=- item=0x01:00000a length=28 alarm=0x00000000 status=0x00000003 lat=20000000 lon=113000000 altitude=10 speed=0 direction=0 time=2024-03-05T12:34:56+08:00\n90+0 refused Stray\n";

fn push_batch(rt: &impl Abort, text: &mut String, line: &mut Line) {
    let view = view_batch(BATCH).expect(rt, "a batch");
    let header = header(0x0704, None);
    push_view(rt, text, line, 7, &header, MessageView::Batch(view), 68);
}

fn push_stray(rt: &impl Abort, text: &mut String, line: &mut Line) {
    let refusal = Refusal {
        at: 90,
        inside: 0,
        why: Why::Stray,
    };
    push_refusal_line_with(text, line, &refusal).expect(rt, "room");
}

// A batch and a refusal.
#[test]
fn a_batch_in_place(rt: HostRuntime) {
    let mut line = Line::new();
    let mut text = String::new(rt.alloc());
    push_batch(&rt, &mut text, &mut line);
    push_stray(&rt, &mut text, &mut line);
    assert!(rt; text.as_str() == BATCH_AND_REFUSAL);
}

const UNREAD: &[u8] = b"\x41\0\x7f\xff\x10\x11\x12\x13\x14\x15\x16\x17\x18\x19\x1a\x1b\x1c\x1d";

const RESPONSES_AND_UNREAD: &str =
    "0 2013 0x0001 terminal-ack phone=013912345678 serial=3 body=5 reply=65535 id=0x8103 result=3\n20 2013 0x8001 platform-ack phone=013912345678 serial=3 body=5 reply=9 id=0x0200 result=0\n40 2013 0x0900 opaque phone=013912345678 serial=3 body=18 body-octets=41007fff101112131415161718191a1b1c1d\n73 2013 0x0104 params phone=013912345678 serial=3 packet=2/3 body=3 part=c00d7e\n";

fn push_terminal_ack(rt: &impl Abort, text: &mut String, line: &mut Line) {
    let response = MessageView::TerminalAck {
        reply: 65_535,
        id: 0x8103,
        result: 3,
    };
    push_view(rt, text, line, 0, &header(0x0001, None), response, 5);
}

fn push_platform_ack(rt: &impl Abort, text: &mut String, line: &mut Line) {
    let response = MessageView::PlatformAck {
        reply: 9,
        id: 0x0200,
        result: 0,
    };
    push_view(rt, text, line, 20, &header(0x8001, None), response, 5);
}

fn push_unread(rt: &impl Abort, text: &mut String, line: &mut Line) {
    let opaque = MessageView::Opaque {
        id: 0x0900,
        body: UNREAD,
    };
    push_view(rt, text, line, 40, &header(0x0900, None), opaque, 18);
}

fn push_part(rt: &impl Abort, text: &mut String, line: &mut Line) {
    let packet = Some(Packet {
        total: 3,
        number: 2,
    });
    let part = MessageView::Part(b"\xc0\x0d\x7e");
    push_view(rt, text, line, 73, &header(0x0104, packet), part, 3);
}

#[test]
fn lines_of_responses_and_unread_octets(rt: HostRuntime) {
    let mut line = Line::new();
    let mut text = String::new(rt.alloc());
    push_terminal_ack(&rt, &mut text, &mut line);
    push_platform_ack(&rt, &mut text, &mut line);
    push_unread(&rt, &mut text, &mut line);
    push_part(&rt, &mut text, &mut line);
    assert!(rt; text.as_str() == RESPONSES_AND_UNREAD);
}

const POSITION: &[u8] =
    b"\0\0\0\0\0\0\0\x03\x01\x31\x2d\0\x06\xbc\x3e\x40\0\0\0\0\0\0\x24\x03\x05\x12\x34\x56\x01\x04\0\0\0\x0a\x30\x01\x19\x01\x03\0\0\x0a";

const POSITION_AND_EMPTY: &str =
    "0 2013 0x0200 position phone=013912345678 serial=3 body=42 alarm=0x00000000 status=0x00000003 lat=20000000 lon=113000000 altitude=0 speed=0 direction=0 time=2024-03-05T12:34:56+08:00 item=0x01:10 item=0x30:25 item=0x01:00000a\n57 2013 0x0002 heartbeat phone=013912345678 serial=3 body=0\n72 2013 0x0003 deregister phone=013912345678 serial=3 body=0\n";

fn push_position(rt: &impl Abort, text: &mut String, line: &mut Line) {
    let view = view_position(POSITION).expect(rt, "a position");
    let header = header(0x0200, None);
    push_view(rt, text, line, 0, &header, MessageView::Position(view), 42);
}

fn push_heartbeat(rt: &impl Abort, text: &mut String, line: &mut Line) {
    let header = header(0x0002, None);
    push_view(rt, text, line, 57, &header, MessageView::Heartbeat, 0);
}

fn push_deregister(rt: &impl Abort, text: &mut String, line: &mut Line) {
    let deregister = Message::Deregister;
    push_message_line(text, line, 72, &header(0x0003, None), &deregister, 0).expect(rt, "room");
}

// A position read in place and two messages without fields, one after the other in one room.
#[test]
fn lines_in_one_room(rt: HostRuntime) {
    let mut line = Line::new();
    let mut text = String::new(rt.alloc());
    push_position(&rt, &mut text, &mut line);
    push_heartbeat(&rt, &mut text, &mut line);
    push_deregister(&rt, &mut text, &mut line);
    assert!(rt; text.as_str() == POSITION_AND_EMPTY);
}
