use crate::migrate_calls::{has_numbers, moved, old_phone};
use jt_store::{NewPhone, OldPhone, StoreError};
use jt_value::{Edition, Memory, Seq};
use std::alloc::Global;
use std::test::Fail;

// The rows of one phone in both editions.
fn both(
    alloc: Global,
    earlier: &[(u64, u8)],
    later: &[(u64, u8)],
) -> Result<Seq<OldPhone>, Memory> {
    let mut old = Seq::new(alloc);
    old.push(old_phone(alloc, Edition::E2019, 0x78, Some(2), later)?)?;
    old.push(old_phone(alloc, Edition::E2013, 0x78, Some(1), earlier)?)?;
    Ok(old)
}

// Whether there is one phone, with the plate of 2019 and these numbers.
fn is_one(new: &Seq<NewPhone>, numbers: &[u64]) -> bool {
    match new.as_slice() {
        [phone] => match &phone.registered {
            Some(registered) => {
                registered.plate.as_slice() == [2].as_slice()
                    && has_numbers(phone.rows.as_slice(), numbers)
            }
            None => false,
        },
        _ => false,
    }
}

#[test]
fn rows_of_both_editions_are_joined_as_units(rt: HostRuntime) -> Result<(), Fail> {
    let alloc = rt.alloc();
    let rows: [(&[(u64, u8)], &[(u64, u8)], &[u64]); 3] = [
        (&[(2, 7), (3, 8)], &[(3, 8), (4, 9)], &[2, 3, 4]),
        (
            &[(2, 7), (3, 8)],
            &[(3, 6), (4, 9)],
            &[2, 3, 65_539, 65_540],
        ),
        (&[], &[(5, 7)], &[5]),
    ];
    for (earlier, later, numbers) in rows {
        let old = both(alloc, earlier, later).expect(&rt, "memory");
        let new = moved(alloc, &old, 9).expect(&rt, "moved");
        assert!(rt; is_one(&new, numbers));
    }
    Ok(())
}

#[test]
fn a_list_that_would_be_too_long_is_full(rt: HostRuntime) -> Result<(), Fail> {
    let alloc = rt.alloc();
    let old = both(alloc, &[(2, 7), (3, 8)], &[(3, 8), (4, 9)]).expect(&rt, "memory");
    let is_full = match moved(alloc, &old, 2) {
        Err(StoreError::Full(limit)) => limit == 2,
        _ => false,
    };
    assert!(rt; is_full);
    Ok(())
}

// Whether a phone has these last two digits, this plate and these numbers.
fn is_phone(phone: &NewPhone, last: u8, plate: u8, numbers: &[u64]) -> bool {
    let has_plate = match &phone.registered {
        Some(registered) => registered.plate.as_slice() == [plate].as_slice(),
        None => false,
    };
    phone.digits[9] == last && has_plate && has_numbers(phone.rows.as_slice(), numbers)
}

#[test]
fn phones_of_one_edition_stay_in_the_order_of_digits(rt: HostRuntime) -> Result<(), Fail> {
    let alloc = rt.alloc();
    let mut old = Seq::new(alloc);
    let far: &[(u64, u8)] = &[(0, 7), (40_000, 7)];
    old.push(old_phone(alloc, Edition::E2013, 0x79, Some(3), far).expect(&rt, "memory"))?;
    old.push(old_phone(alloc, Edition::E2019, 0x12, Some(4), &[(9, 1)]).expect(&rt, "memory"))?;
    let new = moved(alloc, &old, 9).expect(&rt, "moved");
    match new.as_slice() {
        [first, second] => {
            assert!(rt; is_phone(first, 0x12, 4, &[9]));
            assert!(rt; is_phone(second, 0x79, 3, &[0, 40_000]));
        }
        _ => assert!(rt; false),
    }
    Ok(())
}
