use crate::fleets::{fleet, keeper, phone};
use dewfelt_fleet::Fleet;
use dewfelt_keeper::{Forgetting, Registry};
use jt_store::{MemKeeper, Registrations, StoreError};
use jt_value::Seq;
use std::alloc::Global;
use std::test::Fail;
use store_tests::keeper_calls::enrol;
use store_tests::listing::{Listed, first_unlike};

// The last two digits of the phones that were forgotten, where the fleet is applied.
fn apply<K: Registrations>(
    alloc: Global,
    registry: &mut Registry<K>,
    fleet: Fleet,
    wanted: &[u8],
) -> Result<bool, StoreError> {
    let mut forgotten = Seq::new(alloc);
    registry.apply(alloc, fleet, &mut forgotten)?;
    let same = forgotten.len() == wanted.len()
        && forgotten
            .as_slice()
            .iter()
            .zip(wanted)
            .all(|(phone, last)| phone.digits[9] == *last);
    Ok(same)
}

fn enrolled(alloc: Global, keeper: &mut MemKeeper, rows: &[(u8, &[u8], &[u8])]) -> bool {
    for (last, plate, terminal) in rows {
        if enrol(alloc, keeper, &phone(*last), plate, terminal) != Ok(true) {
            return false;
        }
    }
    true
}

// How many registrations a page has, and the last two digits of the last phone of it, or 0.
fn page<K: Registrations>(
    alloc: Global,
    registry: &mut Registry<K>,
    after: Option<u8>,
    most: usize,
) -> Result<(usize, u8), StoreError> {
    let after = after.map(|last| phone(last));
    let page = registry.page(alloc, after.as_ref(), most)?;
    let last = page.as_slice().last().map_or(0, |one| one.0.digits[9]);
    Ok((page.len(), last))
}

#[test]
fn a_fleet_is_applied_to_registrations(rt: HostRuntime) -> Result<(), Fail> {
    let alloc = rt.alloc();
    let mut kept = keeper(alloc);
    // allowed; the plate is gone; the terminal is gone; bound otherwise; another's plate
    assert!(rt;
        enrolled(
            alloc,
            &mut kept,
            &[
                (0x10, b"F1", b"f1"),
                (0x11, b"GA", b"f2"),
                (0x12, b"F3", b"ga"),
                (0x13, b"F4", b"f4"),
                (0x14, b"B2", b"f5"),
            ]
        )
    );
    let old = fleet(alloc, &[], &[], &[]).expect(&rt, "fleet");
    let mut registry = Registry::new(kept, old);
    let new = fleet(
        alloc,
        &[(b"B1", b"b1", 0x13), (b"B2", b"b2", 0x09)],
        &[b"F1", b"F2", b"F3", b"F4"],
        &[b"f1", b"f2", b"f3", b"f4", b"f5"],
    )
    .expect(&rt, "fleet");
    assert!(rt; apply(alloc, &mut registry, new, &[0x11, 0x12, 0x13, 0x14]) == Ok(true));
    let after = &[
        Listed(0x09, b'B', b'b'),
        Listed(0x10, b'F', b'f'),
        Listed(0x13, b'B', b'b'),
    ];
    assert!(rt; first_unlike(alloc, registry.keeper(), None, after) == Ok(None));
    // What the operator forgets: a bound phone, one that is not there, one that is, and what is left.
    assert!(rt; registry.forget(alloc, &phone(0x13)) == Ok(Forgetting::Bound));
    assert!(rt; registry.forget(alloc, &phone(0x12)) == Ok(Forgetting::NotRegistered));
    assert!(rt; registry.forget(alloc, &phone(0x10)) == Ok(Forgetting::Done));
    assert!(rt; first_unlike(alloc, registry.keeper(), Some(phone(0x09)), &after[2..]) == Ok(None));
    Ok(())
}

#[test]
fn registrations_come_in_pages(rt: HostRuntime) -> Result<(), Fail> {
    let alloc = rt.alloc();
    let mut kept = keeper(alloc);
    assert!(rt;
        enrolled(
            alloc,
            &mut kept,
            &[
                (0x12, b"F3", b"f3"),
                (0x10, b"F1", b"f1"),
                (0x11, b"F2", b"f2"),
            ]
        )
    );
    let mut registry = Registry::new(kept, fleet(alloc, &[], &[], &[]).expect(&rt, "fleet"));
    assert!(rt; page(alloc, &mut registry, None, 2) == Ok((2, 0x11)));
    assert!(rt; page(alloc, &mut registry, Some(0x11), 2) == Ok((1, 0x12)));
    assert!(rt; page(alloc, &mut registry, Some(0x12), 2) == Ok((0, 0)));
    Ok(())
}
