use jt_header::{Header, Packet};
use jt_subpacket::{Assembler, Fate, SplitError, Taken, split};
use jt_value::{Edition, Phone};
use std::test::Fail;

const PHONE_2013: Phone = Phone {
    edition: Edition::E2013,
    digits: [0, 0, 0, 0, 0x01, 0x39, 0x12, 0x34, 0x56, 0x78],
};

const PHONE_2019: Phone = Phone {
    edition: Edition::E2019,
    digits: [0, 0, 0, 0, 0x01, 0x39, 0x12, 0x34, 0x56, 0x78],
};

fn header_of(edition: Edition, phone: Phone, serial: u16) -> Header {
    Header {
        edition,
        id: 0x0104,
        bit15: true,
        version: 1,
        phone,
        serial,
        packet: None,
    }
}

#[test]
fn a_long_body_is_in_packets(rt: HostRuntime) -> Result<(), Fail> {
    let mut body = vec![in rt.alloc(); 7u8; 1023]?;
    body.push(9)?;
    for (edition, phone) in [(Edition::E2013, PHONE_2013), (Edition::E2019, PHONE_2019)] {
        let header = header_of(edition, phone, 65_535);
        let packets = split(rt.alloc(), &header, &body).expect(&rt, "packets");
        assert_eq!(rt; packets.len(), 2);
        let (first, front) = packets.get(0).expect(&rt, "packet 1");
        let total = 2;
        assert_eq!(rt;
            *first,
            Header {
                packet: Some(Packet { total, number: 1 }),
                ..header
            }
        );
        assert_eq!(rt; front.as_slice(), &body[..1023]);
        let (second, rest) = packets.get(1).expect(&rt, "packet 2");
        let packet = Some(Packet { total, number: 2 });
        assert_eq!(rt;
            *second,
            Header {
                serial: 0,
                packet,
                ..header
            }
        );
        assert_eq!(rt; rest.as_slice(), [9u8].as_slice());
    }
    Ok(())
}

#[test]
fn a_body_that_fits_is_one_packet(rt: HostRuntime) -> Result<(), Fail> {
    for length in [0, 1, 1023] {
        let body = vec![in rt.alloc(); 7u8; length]?;
        let header = header_of(Edition::E2013, PHONE_2013, 5);
        let packets = split(rt.alloc(), &header, &body).expect(&rt, "a packet");
        assert_eq!(rt; packets.len(), 1);
        let (only, octets) = packets.get(0).expect(&rt, "the packet");
        assert_eq!(rt; *only, header);
        assert_eq!(rt; octets.as_slice(), body.as_slice());
    }
    Ok(())
}

#[test]
fn a_body_of_257_packets_is_too_large(rt: HostRuntime) -> Result<(), Fail> {
    let body = vec![in rt.alloc(); 7u8; 261_889]?;
    let header = header_of(Edition::E2013, PHONE_2013, 5);
    let refused = split(rt.alloc(), &header, &body).err();
    assert_eq!(rt; refused, Some(SplitError::TooLarge(261_889)));
    Ok(())
}

// What a packet is told, None for what is no packet.
fn take(assembler: &mut Assembler, header: Header, body: &[u8]) -> Option<Taken> {
    match header.packet {
        Some(Packet { total, number }) if number > 0 && number <= total && body.len() <= 1023 => {
            assembler.take(&header, body).ok()
        }
        _ => None,
    }
}

#[test]
fn packets_of_split_are_joined_in_reverse_order(rt: HostRuntime) -> Result<(), Fail> {
    let mut body = Vec::new(rt.alloc());
    for place in 0..261_888u32 {
        body.push((place % 251) as u8)?;
    }
    let header = header_of(Edition::E2013, PHONE_2013, 65_500);
    let packets = split(rt.alloc(), &header, &body).expect(&rt, "packets");
    assert_eq!(rt; packets.len(), 256);
    let mut assembler = Assembler::new(rt.alloc());
    let mut wholes = 0u32;
    for turn in 0..512usize {
        let (header, octets) = packets.get(255 - turn / 2).expect(&rt, "a packet");
        let taken = take(&mut assembler, *header, octets.as_slice()).expect(&rt, "an answer");
        assert_eq!(rt; taken.dropped, None);
        if let Fate::Whole {
            id,
            serial,
            body: joined,
        } = &taken.fate
        {
            // The first copy of packet 1 completes the message, so its second copy begins it anew.
            assert_eq!(rt; (turn, *id, *serial), (510, 0x0104, 65_500));
            assert_eq!(rt; joined.as_slice(), body.as_slice());
            wholes = wholes.wrapping_add(1);
        }
    }
    assert_eq!(rt; wholes, 1);
    Ok(())
}
