use jt_position::{
    Fix, FixError, Fixed, Item, ItemView, PositionView, moment, read_batch, read_position,
    view_batch, view_position, write_batch, write_position,
};
use jt_value::{CodecError, Refusal, Why};
use std::alloc::Global;
use std::process::Abort;

// A position of 28 octets, and an item 0x01 with a length that the table does not give it.
const BODY: [u8; 33] = [
    0, 0, 0, 0, 0, 0, 0, 3, 0x01, 0x31, 0x2D, 0x00, 0x06, 0xBC, 0x3E, 0x40, 0, 0, 0, 0, 0, 0, 0, 0,
    0, 0, 0, 0, 0x01, 0x03, 0x00, 0x00, 0x0A,
];

// Two positions: the one of `BODY`, and its first 28 octets.
const BATCH: [u8; 68] =
    *b"\0\x02\x01\0\x21\0\0\0\0\0\0\0\x03\x01\x31\x2d\0\x06\xbc\x3e\x40\0\0\0\0\0\0\0\0\0\0\0\0\x01\x03\0\0\x0a\0\x1c\0\0\0\0\0\0\0\x03\x01\x31\x2d\0\x06\xbc\x3e\x40\0\0\0\0\0\0\0\0\0\0\0\0";

const FIXED: Fixed = Fixed {
    alarm: 0,
    status: 3,
    lat: 20_000_000,
    lon: 113_000_000,
    altitude: 0,
    speed: 0,
    direction: 0,
    time: [0; 6],
};

fn truncated(inside: u64) -> Refusal {
    Refusal {
        at: 0,
        inside,
        why: Why::Truncated,
    }
}

// Whether these octets are read as a position with so many items, and are written back.
fn is_kept(rt: &impl Abort, alloc: Global, octets: &[u8], items: usize) -> bool {
    let position = read_position(alloc, octets).expect(rt, "a position");
    assert!(rt; position.items.len() == items);
    assert!(rt; position.size() == octets.len() as u128);
    assert!(rt; position.fits());
    let written = write_position(alloc, &position).expect(rt, "octets");
    written.as_slice() == octets
}

#[test]
fn a_position_of_a_raw_item(rt: HostRuntime) {
    let position = read_position(rt.alloc(), &BODY).expect(&rt, "a position");
    assert!(rt; position.fixed == FIXED);
    assert!(rt; matches!(position.items.get(0), Some(Item::Raw { id: 0x01, .. })));
    assert!(rt; is_kept(&rt, rt.alloc(), &BODY, 1));
}

#[test]
fn a_position_of_a_raw_item_in_place(rt: HostRuntime) {
    let view = view_position(&BODY).expect(&rt, "a position");
    assert!(rt; view.fixed == FIXED);
    assert!(rt; moment(&view.fixed.time).is_none());
    let mut items = view.items;
    let raw = ItemView::Raw {
        id: 0x01,
        value: &[0, 0, 0x0A],
    };
    assert!(rt; items.next() == Some(raw));
    assert!(rt; items.next() == None);
}

// Each item with the length of the table and with another.
const ITEMS: [u8; 125] = [
    0x01, 4, 0, 1, 2, 3, 0x01, 2, 0, 1, 0x02, 2, 1, 2, 0x02, 1, 1, 0x03, 2, 1, 2, 0x03, 0, 0x04, 2,
    1, 2, 0x04, 3, 1, 2, 3, 0x11, 1, 7, 0x11, 5, 1, 0, 0, 0, 9, 0x11, 4, 1, 0, 0, 0, 0x12, 6, 2, 0,
    0, 1, 0, 1, 0x12, 5, 2, 0, 0, 1, 0, 0x13, 7, 0, 0, 0, 5, 1, 0, 1, 0x13, 6, 0, 0, 0, 5, 1, 0,
    0x25, 4, 0, 0, 0, 1, 0x25, 2, 0, 1, 0x2A, 2, 0, 1, 0x2A, 1, 1, 0x2B, 4, 0, 1, 0, 2, 0x2B, 5, 0,
    1, 0, 2, 0, 0x30, 1, 25, 0x30, 2, 0, 25, 0x31, 1, 9, 0x31, 0, 0xE0, 1, 7,
];

// What they are read as.
const READ: [ItemView<'static>; 26] = [
    ItemView::Mileage(0x0001_0203),
    ItemView::Raw {
        id: 0x01,
        value: &[0, 1],
    },
    ItemView::Fuel(0x0102),
    ItemView::Raw {
        id: 0x02,
        value: &[1],
    },
    ItemView::RecorderSpeed(0x0102),
    ItemView::Raw {
        id: 0x03,
        value: &[],
    },
    ItemView::EventId(0x0102),
    ItemView::Raw {
        id: 0x04,
        value: &[1, 2, 3],
    },
    ItemView::Overspeed {
        kind: 7,
        region: None,
    },
    ItemView::Overspeed {
        kind: 1,
        region: Some(9),
    },
    ItemView::Raw {
        id: 0x11,
        value: &[1, 0, 0, 0],
    },
    ItemView::RegionAlarm {
        kind: 2,
        region: 256,
        direction: 1,
    },
    ItemView::Raw {
        id: 0x12,
        value: &[2, 0, 0, 1, 0],
    },
    ItemView::Travel {
        segment: 5,
        seconds: 256,
        result: 1,
    },
    ItemView::Raw {
        id: 0x13,
        value: &[0, 0, 0, 5, 1, 0],
    },
    ItemView::Signals(1),
    ItemView::Raw {
        id: 0x25,
        value: &[0, 1],
    },
    ItemView::Io(1),
    ItemView::Raw {
        id: 0x2A,
        value: &[1],
    },
    ItemView::Analogue(0x0001_0002),
    ItemView::Raw {
        id: 0x2B,
        value: &[0, 1, 0, 2, 0],
    },
    ItemView::Signal(25),
    ItemView::Raw {
        id: 0x30,
        value: &[0, 25],
    },
    ItemView::Satellites(9),
    ItemView::Raw {
        id: 0x31,
        value: &[],
    },
    ItemView::Raw {
        id: 0xE0,
        value: &[7],
    },
];

#[test]
fn items_by_the_table(rt: HostRuntime) {
    let mut body = Vec::from_slice(rt.alloc(), &BODY[..28]).expect(&rt, "octets");
    body.extend_from_slice(&ITEMS).expect(&rt, "octets");
    assert!(rt; body.len() == 153);
    assert!(rt; has_items(&rt, body.as_slice(), &READ));
    assert!(rt; is_kept(&rt, rt.alloc(), body.as_slice(), 26));
}

// Whether a position has just these items.
fn has_items(rt: &impl Abort, body: &[u8], wanted: &[ItemView<'_>]) -> bool {
    let mut items = view_position(body).expect(rt, "a position").items;
    for item in wanted {
        assert!(rt; items.next() == Some(*item));
    }
    items.next() == None
}

#[test]
fn an_item_that_passes_the_end_is_truncated_at_its_field(rt: HostRuntime) {
    let rows: &[(usize, u64)] = &[(27, 22), (29, 29), (30, 30), (32, 30)];
    for &(count, inside) in rows {
        assert!(rt; count <= 33);
        let answer = view_position(&BODY[..count]).err();
        assert!(rt; answer == Some(truncated(inside)));
    }
}

// Why a batch is refused.
fn batch_refusal(alloc: Global, body: &[u8]) -> Option<Refusal> {
    match read_batch(alloc, body) {
        Err(CodecError::Refused(refusal)) => Some(refusal),
        Err(CodecError::Memory) | Ok(_) => None,
    }
}

// Whether these octets are read as a batch of this kind and so many positions, and are written back.
fn is_batch(rt: &impl Abort, alloc: Global, octets: &[u8], kind: u8, count: usize) -> bool {
    let batch = read_batch(alloc, octets).expect(rt, "a batch");
    assert!(rt; batch.kind == kind);
    assert!(rt; batch.fixes.len() == count);
    assert!(rt; batch.fits());
    let written = write_batch(alloc, &batch).expect(rt, "octets");
    written.as_slice() == octets
}

#[test]
fn batches(rt: HostRuntime) {
    assert!(rt; is_batch(&rt, rt.alloc(), &[0, 0, 0], 0, 0));
    assert!(rt; is_batch(&rt, rt.alloc(), &BATCH, 1, 2));
}

#[test]
fn batches_that_are_refused(rt: HostRuntime) {
    let rows: &[(&[u8], u64, Why)] = &[
        (&[0, 1, 0, 0, 0x1C, 0], 5, Why::Truncated),
        (&[0, 1, 0, 0, 1, 0], 5, Why::Truncated),
        (&[0, 0, 1, 0, 0, 0], 3, Why::Trailing),
    ];
    for &(body, inside, why) in rows {
        let refusal = Refusal { at: 0, inside, why };
        assert!(rt; batch_refusal(rt.alloc(), body) == Some(refusal));
    }
}

// It passes its own position's end.
#[test]
fn an_item_that_would_end_in_the_next_position(rt: HostRuntime) {
    let mut long = BATCH;
    long[34] = 4;
    assert!(rt; batch_refusal(rt.alloc(), &long) == Some(truncated(35)));
    assert!(rt; view_batch(&long).err() == Some(truncated(35)));
}

// The batch of `batches`.
#[test]
fn a_batch_in_place(rt: HostRuntime) {
    let view = view_batch(&BATCH).expect(&rt, "a batch");
    assert!(rt; view.kind == 1);
    let mut fixes = view.fixes;
    assert!(rt; fixes.left() == 2);
    let raw = ItemView::Raw {
        id: 0x01,
        value: &[0, 0, 0x0A],
    };
    assert!(rt; is_position(fixes.next(), 33, Some(raw)));
    assert!(rt; is_position(fixes.next(), 28, None));
    assert!(rt; fixes.left() == 0);
    assert!(rt; fixes.next().is_none());
}

fn is_position(view: Option<PositionView<'_>>, size: usize, item: Option<ItemView<'_>>) -> bool {
    match view {
        Some(view) => {
            let long = view.size() == size && view.fixed.lat == 20_000_000;
            let mut items = view.items;
            long && items.next() == item && items.next().is_none()
        }
        None => false,
    }
}

#[test]
fn fixes_are_short_positions(rt: HostRuntime) {
    let fix = Fix::read(rt.alloc(), &BODY).expect(&rt, "a fix");
    let copy = fix.clone().expect(&rt, "a copy");
    assert!(rt; copy.as_slice() == BODY.as_slice());
    let answer = Fix::read(rt.alloc(), &BODY[..27]).err();
    assert!(rt; answer == Some(FixError::Refused(truncated(22))));
}

// Whether octets are read as a fix of just them.
fn is_fix(rt: &impl Abort, alloc: Global, octets: &[u8]) -> bool {
    let fix = Fix::read(alloc, octets).expect(rt, "a fix");
    fix.as_slice() == octets
}

#[test]
fn fixes_have_at_most_1023_octets(rt: HostRuntime) {
    let mut longest = [0; 1024];
    longest[29] = 1;
    assert!(rt; is_fix(&rt, rt.alloc(), &longest[..1023]));
    let answer = Fix::read(rt.alloc(), &longest).err();
    assert!(rt; answer == Some(FixError::Long(1024)));
}

const AT: [u8; 28] = [
    0, 0, 0, 0, 0, 0, 0, 3, 0x01, 0x31, 0x2D, 0x00, 0x06, 0xBC, 0x3E, 0x40, 0, 0, 0, 0, 0, 0, 0x24,
    0x01, 0x01, 0, 0, 0,
];

#[test]
fn a_fix_at_a_latitude(rt: HostRuntime) {
    let fix = Fix::at(rt.alloc(), 20_000_000).expect(&rt, "a fix");
    assert!(rt; fix.as_slice() == AT.as_slice());
}

// Whether these twelve digits name this moment.
fn names(time: &[u8; 6], year: i16, month: i8, day: i8, hour: i8, minute: i8, second: i8) -> bool {
    match moment(time) {
        Some(moment) => {
            let date = moment.year() == year && moment.month() == month && moment.day() == day;
            let clock = moment.hour() == hour && moment.minute() == minute;
            date && clock && moment.second() == second
        }
        None => false,
    }
}

#[test]
fn moments_of_the_calendar(rt: HostRuntime) {
    let leap = [0x24, 0x02, 0x29, 0x23, 0x59, 0x59];
    assert!(rt; names(&leap, 2024, 2, 29, 23, 59, 59));
    let last = [0x99, 0x12, 0x31, 0x00, 0x00, 0x00];
    assert!(rt; names(&last, 2099, 12, 31, 0, 0, 0));
}

#[test]
fn digits_that_are_no_moment(rt: HostRuntime) {
    let rows: &[[u8; 6]] = &[
        [0x23, 0x02, 0x29, 0x00, 0x00, 0x00],
        [0x24, 0x01, 0x01, 0x00, 0x00, 0x60],
        [0x24, 0x01, 0x01, 0x24, 0x00, 0x00],
        [0x24, 0x00, 0x01, 0x00, 0x00, 0x00],
        [0x24, 0x01, 0x0A, 0x00, 0x00, 0x00],
        [0xA0, 0x01, 0x01, 0x00, 0x00, 0x00],
    ];
    for time in rows {
        assert!(rt; moment(time).is_none());
    }
}
