ghost use Rattle.std.specs.Prelude.{◌≡◌};

use jt_header::{Header, Packet};
use jt_params::{ParamValue, read_params_reply};
use jt_subpacket::{Assembler, Fate, PartKey, Taken, joined_header};
use jt_value::{Edition, Octets, Phone, Seq};
use std::test::Fail;

const FRONT: [u8; 2] = *b"\x00\x07";

const MIDDLE: [u8; 10] = *b"\x02\x00\x00\x00\x01\x04\x00\x00\x00\x3c";

const END: [u8; 8] = *b"\x00\x00\x00\x13\x03abc";

// The header of a 0x0104.
fn header(serial: u16, packet: Option<Packet>) -> Header
    ensures { result.packet ≡ packet }
{
    Header {
        edition: Edition::E2013,
        id: 0x0104,
        bit15: false,
        version: 0,
        phone: Phone {
            edition: Edition::E2013,
            digits: [0, 0, 0, 0, 0x01, 0x39, 0x12, 0x34, 0x56, 0x78],
        },
        serial,
        packet,
    }
}

// What a packet of 0x0104 is told, None for what is no packet.
fn take(
    assembler: &mut Assembler,
    serial: u16,
    total: u16,
    number: u16,
    body: &[u8],
) -> Option<Taken> {
    if number == 0 || number > total || body.len() > 1023 {
        return None;
    }
    let packet = header(serial, Some(Packet { total, number }));
    assembler.take(&packet, body).ok()
}

fn is_kept(taken: Option<Taken>) -> bool {
    matches!(
        taken,
        Some(Taken {
            dropped: None,
            fate: Fate::Kept
        })
    )
}

fn is_repeat(taken: Option<Taken>) -> bool {
    matches!(
        taken,
        Some(Taken {
            dropped: None,
            fate: Fate::Repeat
        })
    )
}

// The id, serial and body of a whole message, where no other was dropped.
fn whole(taken: Option<Taken>) -> Option<(u16, u16, Octets)> {
    let Taken { dropped, fate } = taken?;
    match fate {
        Fate::Whole { id, serial, body } if dropped.is_none() => Some((id, serial, body)),
        _other => None,
    }
}

// What a packet asks for, where no message was dropped.
fn asked(taken: Option<Taken>) -> Option<(u16, Seq<u16>)> {
    let Taken { dropped, fate } = taken?;
    match fate {
        Fate::Resend { first, missing } if dropped.is_none() => Some((first, missing)),
        _other => None,
    }
}

#[test]
fn packets_in_any_order(rt: HostRuntime) -> Result<(), Fail> {
    let mut assembler = Assembler::new(rt.alloc());
    let last = take(&mut assembler, 12, 3, 3, &END);
    let (first, missing) = asked(last).expect(&rt, "the last packet asks for the others");
    assert_eq!(rt; first, 10);
    assert_eq!(rt; missing.as_slice(), [1u16, 2].as_slice());
    assert!(rt; is_kept(take(&mut assembler, 10, 3, 1, &FRONT)));
    assert!(rt; is_repeat(take(&mut assembler, 10, 3, 1, &FRONT)));
    let second = take(&mut assembler, 11, 3, 2, &MIDDLE);
    let (id, serial, body) = whole(second).expect(&rt, "all packets are there");
    assert_eq!(rt; (id, serial), (0x0104, 10));
    assert_eq!(rt;
        body.as_slice(),
        b"\x00\x07\x02\x00\x00\x00\x01\x04\x00\x00\x00\x3c\x00\x00\x00\x13\x03abc".as_slice()
    );
    let (reply, params) = read_params_reply(rt.alloc(), body.as_slice()).expect(&rt, "parameters");
    assert_eq!(rt; reply, 7);
    assert_eq!(rt; params.len(), 2);
    let interval = params.get(0).expect(&rt, "the first parameter");
    assert_eq!(rt; interval.id, 0x0000_0001);
    assert!(rt; matches!(&interval.value, ParamValue::Dword(60)));
    let server = params.get(1).expect(&rt, "the second parameter");
    assert_eq!(rt; server.id, 0x0000_0013);
    let ParamValue::Text(text) = &server.value else {
        panic!(rt; "a text");
    };
    assert_eq!(rt; text.as_slice(), b"abc".as_slice());
    // The message is gone, so its packet 1 begins it anew.
    assert!(rt; is_kept(take(&mut assembler, 10, 3, 1, &FRONT)));
    Ok(())
}

#[test]
fn too_many_packets(rt: HostRuntime) -> Result<(), Fail> {
    let mut assembler = Assembler::new(rt.alloc());
    let taken = take(&mut assembler, 0, 257, 1, &FRONT).expect(&rt, "an answer");
    assert_eq!(rt; taken.dropped, None);
    assert!(rt; matches!(&taken.fate, Fate::TooMany(257)));
    assert!(rt; is_kept(take(&mut assembler, 0, 256, 1, &FRONT)));
    Ok(())
}

#[test]
fn the_only_packet(rt: HostRuntime) -> Result<(), Fail> {
    let mut assembler = Assembler::new(rt.alloc());
    let only = take(&mut assembler, 77, 1, 1, &END);
    let (id, serial, body) = whole(only).expect(&rt, "it is the whole message");
    assert_eq!(rt; (id, serial), (0x0104, 77));
    assert_eq!(rt; body.as_slice(), END.as_slice());
    Ok(())
}

#[test]
fn a_fifth_message_drops_the_first(rt: HostRuntime) -> Result<(), Fail> {
    let mut assembler = Assembler::new(rt.alloc());
    for first in [0, 10, 20, 30] {
        assert!(rt; is_kept(take(&mut assembler, first, 3, 1, &FRONT)));
    }
    let taken = take(&mut assembler, 40, 3, 1, &FRONT).expect(&rt, "an answer");
    let dropped = PartKey {
        id: 0x0104,
        first: 0,
        total: 3,
    };
    assert_eq!(rt; taken.dropped, Some(dropped));
    assert!(rt; matches!(&taken.fate, Fate::Kept));
    for first in [10, 20, 30, 40] {
        assert!(rt; is_repeat(take(&mut assembler, first, 3, 1, &FRONT)));
    }
    Ok(())
}

#[test]
fn octets_that_are_kept_stay(rt: HostRuntime) -> Result<(), Fail> {
    let mut assembler = Assembler::new(rt.alloc());
    assert!(rt; is_kept(take(&mut assembler, 65_535, 2, 1, &FRONT)));
    assert!(rt; is_repeat(take(&mut assembler, 65_535, 2, 1, &END)));
    // Packets of one id and serial, but another total, are of another message.
    assert!(rt; is_kept(take(&mut assembler, 65_535, 3, 1, &MIDDLE)));
    let second = take(&mut assembler, 0, 2, 2, &MIDDLE);
    let (_id, serial, body) = whole(second).expect(&rt, "both packets are there");
    assert_eq!(rt; serial, 65_535);
    assert_eq!(rt;
        body.as_slice(),
        b"\x00\x07\x02\x00\x00\x00\x01\x04\x00\x00\x00\x3c".as_slice()
    );
    Ok(())
}

#[test]
fn headers_of_joined_messages(rt: HostRuntime) -> Result<(), Fail> {
    for (serial, number, first) in [(10, 1, 10), (12, 3, 10), (0, 2, 65_535), (254, 256, 65_535)] {
        let packet = header(serial, Some(Packet { total: 256, number }));
        assert_eq!(rt; joined_header(&packet), header(first, None));
    }
    Ok(())
}
