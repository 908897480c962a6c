use jt_value::{Buffer, Edition, Octets, Phone, Place, gap, place};
use std::test::Fail;

#[test]
fn gaps_wrap(rt: HostRuntime) -> Result<(), Fail> {
    assert!(rt; gap(65_530, 3) == 9);
    assert!(rt; gap(3, 65_530) == 65_527);
    assert!(rt; gap(7, 7) == 0);
    Ok(())
}

#[test]
fn units_have_their_places(rt: HostRuntime) -> Result<(), Fail> {
    assert!(rt; place(Some(65_530), 3) == Place::New(65_539));
    let back = Place::Back {
        candidate: Some(65_530),
        anew: 196_602,
    };
    assert!(rt; place(Some(65_539), 65_530) == back);
    assert!(rt; place(Some(0), 32_767) == Place::New(32_767));
    let back = Place::Back {
        candidate: None,
        anew: 98_304,
    };
    assert!(rt; place(Some(0), 32_768) == back);
    let back = Place::Back {
        candidate: Some(0),
        anew: 65_536,
    };
    assert!(rt; place(Some(0), 0) == back);
    assert!(rt; place(None, 7) == Place::First(7));
    Ok(())
}

#[test]
fn phones_are_the_same_by_their_digits(rt: HostRuntime) -> Result<(), Fail> {
    let old = Phone {
        edition: Edition::E2013,
        digits: [0, 0, 0, 0, 0x01, 0x39, 0x12, 0x34, 0x56, 0x78],
    };
    let new = Phone {
        edition: Edition::E2019,
        digits: old.digits,
    };
    let other = Phone {
        edition: Edition::E2013,
        digits: [0, 0, 0, 0, 0x01, 0x39, 0x12, 0x34, 0x56, 0x79],
    };
    assert!(rt; old.same(&new));
    assert!(rt; !old.same(&other));
    Ok(())
}

#[test]
fn a_buffer_takes_what_it_has_room_for(rt: HostRuntime) -> Result<(), Fail> {
    let mut buffer: Buffer<u8> = Buffer::new(rt.alloc());
    assert!(rt; buffer.len() == 0);
    assert!(rt; buffer.reserve(2) == Ok(()));
    assert!(rt; buffer.push(7) == Ok(()));
    assert!(rt; buffer.push(8) == Ok(()));
    assert!(rt; buffer.push(9) == Ok(()));
    assert!(rt; buffer.as_slice() == [7, 8, 9].as_slice());
    let list: Octets = buffer.into_seq();
    assert!(rt; list.as_slice() == [7, 8, 9].as_slice());
    Ok(())
}
