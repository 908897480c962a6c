use jt_value::{Edition, Memory, Octets, Phone, Seq};
use std::alloc::Global;
use std::test::Fail;

#[test]
fn phones(rt: HostRuntime) -> Result<(), Fail> {
    let field = [0x01, 0x39, 0x12, 0x34, 0x56, 0x78];
    let phone = Phone {
        edition: Edition::E2013,
        digits: [0, 0, 0, 0, 0x01, 0x39, 0x12, 0x34, 0x56, 0x78],
    };
    assert!(rt; Phone::from_octets(Edition::E2013, &field) == Ok(phone));
    assert!(rt; phone.octets().as_slice() == field.as_slice());
    let long = [0x00, 0, 0, 0, 0x01, 0x39, 0x12, 0x34, 0x56, 0x78];
    let phone = Phone {
        edition: Edition::E2019,
        digits: long,
    };
    assert!(rt; Phone::from_octets(Edition::E2019, &long) == Ok(phone));
    assert!(rt; phone.octets().as_slice() == long.as_slice());
    for (field, place) in [
        ([0xA1, 0x39, 0x12, 0x34, 0x56, 0x78], 0),
        ([0x01, 0x3A, 0x12, 0xF4, 0x56, 0x78], 1),
        ([0x01, 0x39, 0x12, 0x34, 0x56, 0x7A], 5),
    ] {
        assert!(rt; Phone::from_octets(Edition::E2013, &field) == Err(place));
    }
    Ok(())
}

fn two(alloc: Global) -> Result<Seq<u8>, Memory> {
    let mut list = Seq::new(alloc);
    list.push(7)?;
    list.reserve(1)?;
    list.push(9)?;
    Ok(list)
}

fn list_of(alloc: Global, list: Seq<u8>) -> Result<Seq<Seq<u8>>, Memory> {
    let mut lists = Seq::new(alloc);
    lists.push(list)?;
    Ok(lists)
}

// Whether the copy of a list with a copy of this list has these items in its first one.
fn copies_to(alloc: Global, list: &Seq<u8>, items: &[u8]) -> Result<bool, Memory> {
    let lists = list_of(alloc, list.copy(alloc)?)?;
    let copied = lists.copy(alloc)?;
    Ok(copied.get(0).map(|list| list.as_slice()) == Some(items))
}

fn has(list: Seq<u8>, items: &[u8]) -> bool {
    Octets::from_vec(list.into_vec()).into_vec().as_slice() == items
}

#[test]
fn lists(rt: HostRuntime) {
    let none: Seq<u8> = Seq::new(rt.alloc());
    assert!(rt; none.is_empty());
    let list = two(rt.alloc()).expect(&rt, "there is memory");
    assert!(rt; list.len() == 2);
    assert!(rt; list.get(1) == Some(&9));
    assert!(rt; list.get(2) == None);
    assert!(rt; copies_to(rt.alloc(), &list, &[7, 9]) == Ok(true));
    assert!(rt; has(list, &[7, 9]));
}
