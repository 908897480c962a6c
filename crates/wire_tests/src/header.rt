use arrayvec::ArrayVec;
use jt_header::{Header, Packet, read_header, write_header};
use jt_value::{Edition, Phone, Refusal, Why};
use std::test::Fail;

#[test]
fn refusals(rt: HostRuntime) -> Result<(), Fail> {
    let rows: &[(&[u8], u64, Why)] = &[
        (b"\x00", 1, Why::TooShort),
        (b"\x00\x02\x00\x00", 4, Why::TooShort),
        (
            b"\x00\x02\x20\x00\x01\x39\x12\x34\x56\x78\x00\x00\x12",
            13,
            Why::TooShort,
        ),
        (
            b"\x00\x02\x40\x00\x01\x39\x12\x34\x56\x78\x00\x00\x72",
            13,
            Why::TooShort,
        ),
        (
            b"\x00\x02\x60\x00\x01\x00\x00\x00\x00\x01\x39\x12\x34\x56\x78\x00\x00\x53",
            18,
            Why::TooShort,
        ),
        (
            b"\x00\x02\x00\x00\x01\x39\x12\x34\x56\x78\x00\x00\x33",
            12,
            Why::CheckMismatch {
                computed: 0x32,
                found: 0x33,
            },
        ),
        (
            b"\x00\x02\x04\x00\x01\x39\x12\x34\x56\x78\x00\x00\x32",
            12,
            Why::CheckMismatch {
                computed: 0x36,
                found: 0x32,
            },
        ),
        (
            b"\x00\x02\x40\x00\x01\x00\x00\x00\x00\x01\x3A\x12\x34\x56\x78\x00\x00\x70",
            10,
            Why::PhoneDigit,
        ),
        (
            b"\x00\x02\x60\x00\x01\x00\x00\x00\x00\x01\x39\x12\x34\x56\x78\x00\x00\x00\x01\x00\x02\x50",
            17,
            Why::BadPacketNumber,
        ),
        (
            b"\x00\x02\x44\x00\x01\x00\x00\x00\x00\x01\x39\x12\x34\x56\x78\x00\x00\x77",
            2,
            Why::Encrypted,
        ),
        (
            b"\x00\x02\x04\x00\x01\x39\x12\x34\x56\x78\x00\x00\x36",
            2,
            Why::Encrypted,
        ),
        (
            b"\x00\x02\x04\x01\x01\x39\x12\x34\x56\x78\x00\x00\x37",
            2,
            Why::Encrypted,
        ),
        (
            b"\x00\x02\x00\x01\x01\x39\x12\x34\x56\x78\x00\x00\x33",
            2,
            Why::LengthMismatch {
                declared: 1,
                actual: 0,
            },
        ),
        (
            b"\x00\x02\x00\x00\x01\x3A\x12\x34\x56\x78\x00\x00\x31",
            5,
            Why::PhoneDigit,
        ),
        (
            b"\x01\x04\x20\x02\x01\x3A\x12\x34\x56\x78\x00\x0A\x00\x03\x00\x04\x00\x07\x1E",
            5,
            Why::PhoneDigit,
        ),
        (
            b"\x01\x04\x20\x02\x01\x39\x12\x34\x56\x78\x00\x0A\x00\x03\x00\x04\x00\x07\x1D",
            12,
            Why::BadPacketNumber,
        ),
        (
            b"\x01\x04\x20\x02\x01\x39\x12\x34\x56\x78\x00\x0A\x00\x03\x00\x00\x00\x07\x19",
            12,
            Why::BadPacketNumber,
        ),
        (
            b"\x01\x04\x20\x02\x01\x39\x12\x34\x56\x78\x00\x0A\x00\x00\x00\x00\x00\x07\x1A",
            12,
            Why::BadPacketNumber,
        ),
    ];
    for &(content, inside, why) in rows {
        assert!(rt; content.len() <= 1045);
        let refusal = Refusal { at: 0, inside, why };
        assert!(rt; read_header(content) == Err(refusal));
    }
    Ok(())
}

fn header(id: u16, bit15: bool, serial: u16, packet: Option<Packet>) -> Header {
    let digits = [0, 0, 0, 0, 0x01, 0x39, 0x12, 0x34, 0x56, 0x78];
    Header {
        edition: Edition::E2013,
        id,
        bit15,
        version: 0,
        phone: Phone {
            edition: Edition::E2013,
            digits,
        },
        serial,
        packet,
    }
}

#[test]
fn contents(rt: HostRuntime) -> Result<(), Fail> {
    let first = Some(Packet {
        total: 3,
        number: 1,
    });
    let rows: [(&[u8], Header, &[u8]); 5] = [
        (
            b"\x00\x02\x00\x00\x01\x39\x12\x34\x56\x78\x00\x00\x32",
            header(0x0002, false, 0, None),
            &[],
        ),
        (
            b"\x00\x02\x00\x00\x01\x39\x12\x34\x56\x78\x00\x7E\x4C",
            header(0x0002, false, 126, None),
            &[],
        ),
        (
            b"\x00\x02\x00\x00\x01\x39\x12\x34\x56\x78\x00\x4C\x7E",
            header(0x0002, false, 76, None),
            &[],
        ),
        (
            b"\x00\x02\x80\x00\x01\x39\x12\x34\x56\x78\x00\x00\xB2",
            header(0x0002, true, 0, None),
            &[],
        ),
        (
            b"\x01\x04\x20\x02\x01\x39\x12\x34\x56\x78\x00\x0A\x00\x03\x00\x01\x00\x07\x18",
            header(0x0104, false, 10, first),
            b"\x00\x07",
        ),
    ];
    for (content, header, body) in rows {
        assert!(rt; content.len() <= 1045);
        let (read, rest) = read_header(content).expect(&rt, "a content");
        assert!(rt; read == header);
        assert!(rt; rest == body);
        let mut out = ArrayVec::new();
        write_header(&read, rest.len() as u16, &mut out);
        assert!(rt; content.starts_with(out.as_slice()));
        assert!(rt; out.len() + rest.len() + 1 == content.len());
    }
    Ok(())
}
