use jt_codec::read_body;
use jt_header::Header;
use jt_text::view_line;
use jt_value::{Edition, Phone};
use std::alloc::Global;
use std::process::Abort;

// Lists with one element more than is pushed at once, and a value that is longer than what is put together with its name.
const DELETION: [u8; 89] =
    *b"\x16\x00\x00\x00\x01\x00\x00\x00\x02\x00\x00\x00\x03\x00\x00\x00\x04\x00\x00\x00\x05\x00\x00\x00\x06\x00\x00\x00\x07\x00\x00\x00\x08\x00\x00\x00\x09\x00\x00\x00\x0a\x00\x00\x00\x0b\x00\x00\x00\x0c\x00\x00\x00\x0d\x00\x00\x00\x0e\x00\x00\x00\x0f\x00\x00\x00\x10\x00\x00\x00\x11\x00\x00\x00\x12\x00\x00\x00\x13\x00\x00\x00\x14\x00\x00\x00\x15\x00\x00\x00\x16";

const DELETION_LINE: &str =
    "7 2013 0x8607 delete-routes phone=013912345678 serial=3 body=89 count=22 id=1 id=2 id=3 id=4 id=5 id=6 id=7 id=8 id=9 id=10 id=11 id=12 id=13 id=14 id=15 id=16 id=17 id=18 id=19 id=20 id=21 id=22\n";

const QUERY: [u8; 149] =
    *b"\x25\x00\x00\x00\x01\x00\x00\x00\x02\x00\x00\x00\x03\x00\x00\x00\x04\x00\x00\x00\x05\x00\x00\x00\x06\x00\x00\x00\x07\x00\x00\x00\x08\x00\x00\x00\x09\x00\x00\x00\x0a\x00\x00\x00\x0b\x00\x00\x00\x0c\x00\x00\x00\x0d\x00\x00\x00\x0e\x00\x00\x00\x0f\x00\x00\x00\x10\x00\x00\x00\x11\x00\x00\x00\x12\x00\x00\x00\x13\x00\x00\x00\x14\x00\x00\x00\x15\x00\x00\x00\x16\x00\x00\x00\x17\x00\x00\x00\x18\x00\x00\x00\x19\x00\x00\x00\x1a\x00\x00\x00\x1b\x00\x00\x00\x1c\x00\x00\x00\x1d\x00\x00\x00\x1e\x00\x00\x00\x1f\x00\x00\x00\x20\x00\x00\x00\x21\x00\x00\x00\x22\x00\x00\x00\x23\x00\x00\x00\x24\x00\x00\x00\x25";

const QUERY_LINE: &str =
    "7 2013 0x8106 query-some phone=013912345678 serial=3 body=149 count=37 id=0x00000001 id=0x00000002 id=0x00000003 id=0x00000004 id=0x00000005 id=0x00000006 id=0x00000007 id=0x00000008 id=0x00000009 id=0x0000000a id=0x0000000b id=0x0000000c id=0x0000000d id=0x0000000e id=0x0000000f id=0x00000010 id=0x00000011 id=0x00000012 id=0x00000013 id=0x00000014 id=0x00000015 id=0x00000016 id=0x00000017 id=0x00000018 id=0x00000019 id=0x0000001a id=0x0000001b id=0x0000001c id=0x0000001d id=0x0000001e id=0x0000001f id=0x00000020 id=0x00000021 id=0x00000022 id=0x00000023 id=0x00000024 id=0x00000025\n";

const RESEND: [u8; 41] =
    *b"\x00\x0a\x13\x00\x01\x00\x02\x00\x03\x00\x04\x00\x05\x00\x06\x00\x07\x00\x08\x00\x09\x00\x0a\x00\x0b\x00\x0c\x00\x0d\x00\x0e\x00\x0f\x00\x10\x00\x11\x00\x12\x00\x13";

const RESEND_LINE: &str =
    "7 2013 0x8003 resend phone=013912345678 serial=3 body=41 first=10 count=19 number=1 number=2 number=3 number=4 number=5 number=6 number=7 number=8 number=9 number=10 number=11 number=12 number=13 number=14 number=15 number=16 number=17 number=18 number=19\n";

const PARAMS: [u8; 207] =
    *b"\x01\x00\x00\x00\x99\xc9\xab\xab\xab\xab\xab\xab\xab\xab\xab\xab\xab\xab\xab\xab\xab\xab\xab\xab\xab\xab\xab\xab\xab\xab\xab\xab\xab\xab\xab\xab\xab\xab\xab\xab\xab\xab\xab\xab\xab\xab\xab\xab\xab\xab\xab\xab\xab\xab\xab\xab\xab\xab\xab\xab\xab\xab\xab\xab\xab\xab\xab\xab\xab\xab\xab\xab\xab\xab\xab\xab\xab\xab\xab\xab\xab\xab\xab\xab\xab\xab\xab\xab\xab\xab\xab\xab\xab\xab\xab\xab\xab\xab\xab\xab\xab\xab\xab\xab\xab\xab\xab\xab\xab\xab\xab\xab\xab\xab\xab\xab\xab\xab\xab\xab\xab\xab\xab\xab\xab\xab\xab\xab\xab\xab\xab\xab\xab\xab\xab\xab\xab\xab\xab\xab\xab\xab\xab\xab\xab\xab\xab\xab\xab\xab\xab\xab\xab\xab\xab\xab\xab\xab\xab\xab\xab\xab\xab\xab\xab\xab\xab\xab\xab\xab\xab\xab\xab\xab\xab\xab\xab\xab\xab\xab\xab\xab\xab\xab\xab\xab\xab\xab\xab\xab\xab\xab\xab\xab\xab\xab\xab\xab\xab\xab\xab\xab\xab\xab\xab\xab\xab";

const PARAMS_LINE: &str =
    "7 2013 0x8103 set-params phone=013912345678 serial=3 body=207 count=1 param=0x00000099:ababababababababababababababababababababababababababababababababababababababababababababababababababababababababababababababababababababababababababababababababababababababababababababababababababababababababababababababababababababababababababababababababababababababababababababababababababababababababababababababababababababababababababababababababababababababababababababababababababababababababab\n";

fn header(id: u16) -> Header {
    Header {
        edition: Edition::E2013,
        id,
        bit15: false,
        version: 0,
        phone: Phone {
            edition: Edition::E2013,
            digits: [0, 0, 0, 0, 0x01, 0x39, 0x12, 0x34, 0x56, 0x78],
        },
        serial: 3,
        packet: None,
    }
}

// Whether the line of this body is this one.
fn is_shown(rt: &impl Abort, alloc: Global, id: u16, body: &[u8], written: &str) -> bool {
    assert!(rt; body.len() < 1024);
    let message = read_body(alloc, Edition::E2013, id, body).expect(rt, "a body");
    let line = view_line(alloc, 7, &header(id), &message, body.len() as u16).expect(rt, "a line");
    line.as_slice() == written.as_bytes()
}

#[test]
fn long_lists_of_numbers(rt: HostRuntime) {
    assert!(rt; is_shown(&rt, rt.alloc(), 0x8607, &DELETION, DELETION_LINE));
    assert!(rt; is_shown(&rt, rt.alloc(), 0x8106, &QUERY, QUERY_LINE));
    assert!(rt; is_shown(&rt, rt.alloc(), 0x8003, &RESEND, RESEND_LINE));
}

#[test]
fn a_long_value(rt: HostRuntime) {
    assert!(rt; is_shown(&rt, rt.alloc(), 0x8103, &PARAMS, PARAMS_LINE));
}
