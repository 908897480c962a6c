ghost use Rattle.std.specs.Prelude.{◌≡◌, ◌≤◌, length, IfOk};

use jt_regions::{
    Circle, Polygon, Rectangle, RegionChange, RegionError, RegionKind, RegionTable, Route,
};
use jt_value::{Memory, Seq};
use std::alloc::Global;
use std::test::Fail;

fn circle(id: u32, radius: u32) -> Circle {
    Circle {
        id,
        attribute: 0,
        lat: 20_000_000,
        lon: 113_000_000,
        radius,
        times: None,
        limit: None,
    }
}

fn rectangle(id: u32) -> Rectangle {
    Rectangle {
        id,
        attribute: 0,
        top: 1,
        left: 2,
        bottom: 3,
        right: 4,
        times: None,
        limit: None,
    }
}

fn seq<T: Copy>(alloc: Global, items: &[T]) -> Result<Seq<T>, Memory>
    ensures { IfOk result (λ list. list ≡ items.now) }
{
    Ok(Seq::from_vec(Vec::from_slice(alloc, items)?))
}

fn set(
    alloc: Global,
    table: &mut RegionTable,
    setting: u8,
    circles: &[Circle],
) -> Result<(), RegionError>
    requires { length circles.now ≤ 65535 }
{
    let Ok(list) = seq(alloc, circles) else {
        return Err(RegionError::Memory);
    };
    table.apply(&RegionChange::Circles { setting, list })
}

fn set_rectangle(alloc: Global, table: &mut RegionTable, id: u32) -> Result<(), RegionError> {
    let Ok(list) = seq(alloc, &[rectangle(id)]) else {
        return Err(RegionError::Memory);
    };
    table.apply(&RegionChange::Rectangles { setting: 1, list })
}

fn put_polygon(alloc: Global, table: &mut RegionTable, id: u32) -> Result<(), RegionError> {
    let polygon = Polygon {
        id,
        attribute: 0,
        times: None,
        limit: None,
        vertices: Seq::new(alloc),
    };
    table.apply(&RegionChange::Polygon(polygon))
}

fn put_route(
    alloc: Global,
    table: &mut RegionTable,
    id: u32,
    attribute: u16,
) -> Result<(), RegionError> {
    let route = Route {
        id,
        attribute,
        times: None,
        points: Seq::new(alloc),
    };
    table.apply(&RegionChange::Route(route))
}

fn delete(
    alloc: Global,
    table: &mut RegionTable,
    kind: RegionKind,
    ids: &[u32],
) -> Result<(), RegionError>
    requires { length ids.now ≤ 65535 }
{
    let Ok(ids) = seq(alloc, ids) else {
        return Err(RegionError::Memory);
    };
    table.apply(&RegionChange::Delete { kind, ids })
}

fn radius_of(table: &RegionTable, id: u32) -> Option<u32> {
    let circle = table.circle(id)?;
    Some(circle.radius)
}

fn counts(table: &RegionTable) -> [u32; 4] {
    [
        table.count(RegionKind::Circle),
        table.count(RegionKind::Rectangle),
        table.count(RegionKind::Polygon),
        table.count(RegionKind::Route),
    ]
}

#[test]
fn a_setting_above_2(rt: HostRuntime) {
    let alloc = rt.alloc();
    let mut table = RegionTable::new(alloc);
    let bad = set(alloc, &mut table, 3, &[circle(9, 100)]);
    assert!(rt; bad == Err(RegionError::BadSetting(3)));
    assert!(rt; counts(&table) == [0, 0, 0, 0]);
}

#[test]
fn a_circle_to_modify_that_is_not_there(rt: HostRuntime) {
    let alloc = rt.alloc();
    let mut table = RegionTable::new(alloc);
    let missing = set(alloc, &mut table, 2, &[circle(9, 100)]);
    assert!(rt; missing == Err(RegionError::NoRegion(9)));
    assert!(rt; counts(&table) == [0, 0, 0, 0]);
    assert!(rt; set(alloc, &mut table, 1, &[circle(9, 100)]) == Ok(()));
    assert!(rt; table.circle(9).copied() == Some(circle(9, 100)));
    let missing = set(
        alloc,
        &mut table,
        2,
        &[circle(9, 1), circle(5, 1), circle(4, 1)],
    );
    assert!(rt; missing == Err(RegionError::NoRegion(5)));
    assert!(rt; radius_of(&table, 9) == Some(100));
    assert!(rt; counts(&table) == [1, 0, 0, 0]);
}

fn circles_are_updated(alloc: Global, table: &mut RegionTable) -> bool {
    let update = set(
        alloc,
        table,
        0,
        &[circle(1, 10), circle(2, 20), circle(1, 11)],
    );
    update == Ok(()) && radius_of(table, 1) == Some(11)
}

fn circles_are_added_and_modified(alloc: Global, table: &mut RegionTable) -> bool {
    let added = set(alloc, table, 1, &[circle(3, 30), circle(2, 21)]);
    let modified = set(alloc, table, 2, &[circle(3, 31)]);
    added == Ok(())
        && modified == Ok(())
        && radius_of(table, 1) == Some(11)
        && radius_of(table, 2) == Some(21)
        && radius_of(table, 3) == Some(31)
}

fn circles_are_replaced(alloc: Global, table: &mut RegionTable) -> bool {
    let replaced = set(alloc, table, 0, &[circle(4, 40)]);
    replaced == Ok(()) && radius_of(table, 1) == None && counts(table) == [1, 0, 0, 0]
}

#[test]
fn a_later_circle_replaces_an_earlier_one(rt: HostRuntime) {
    let alloc = rt.alloc();
    let mut table = RegionTable::new(alloc);
    assert!(rt; circles_are_updated(alloc, &mut table));
    assert!(rt; circles_are_added_and_modified(alloc, &mut table));
    assert!(rt; circles_are_replaced(alloc, &mut table));
}

// Whether a region of each kind is taken under an id.
fn each_kind_is_put(alloc: Global, table: &mut RegionTable, id: u32) -> bool {
    let circle = set(alloc, table, 1, &[circle(id, 1)]);
    let rectangle = set_rectangle(alloc, table, id);
    let polygon = put_polygon(alloc, table, id);
    let route = put_route(alloc, table, id, 0);
    circle == Ok(()) && rectangle == Ok(()) && polygon == Ok(()) && route == Ok(())
}

fn circles_are_deleted(alloc: Global, table: &mut RegionTable) -> bool {
    let route = put_route(alloc, table, 2, 4);
    let all = counts(table);
    let deleted = delete(alloc, table, RegionKind::Circle, &[]);
    route == Ok(()) && all == [2, 2, 2, 2] && deleted == Ok(()) && counts(table) == [0, 2, 2, 2]
}

fn some_are_deleted(alloc: Global, table: &mut RegionTable) -> bool {
    let rectangles = delete(alloc, table, RegionKind::Rectangle, &[3, 1]);
    let polygons = delete(alloc, table, RegionKind::Polygon, &[2]);
    rectangles == Ok(()) && polygons == Ok(()) && counts(table) == [0, 1, 1, 2]
}

fn the_others_are_there(table: &RegionTable) -> bool {
    table.rectangle(2).copied() == Some(rectangle(2))
        && table.rectangle(1).is_none()
        && table.polygon(1).is_some()
        && table.route(2).is_some_and(|route| route.attribute == 4)
}

fn routes_are_deleted(alloc: Global, table: &mut RegionTable) -> bool {
    let deleted = delete(alloc, table, RegionKind::Route, &[1, 2]);
    deleted == Ok(()) && counts(table) == [0, 1, 1, 0]
}

#[test]
fn the_other_kinds_stay(rt: HostRuntime) {
    let alloc = rt.alloc();
    let mut table = RegionTable::new(alloc);
    for id in 1..3 {
        assert!(rt; each_kind_is_put(alloc, &mut table, id));
    }
    assert!(rt; circles_are_deleted(alloc, &mut table));
    assert!(rt; some_are_deleted(alloc, &mut table));
    assert!(rt; the_others_are_there(&table));
    assert!(rt; routes_are_deleted(alloc, &mut table));
}

#[test]
fn at_most_1024_circles(rt: HostRuntime) {
    let alloc = rt.alloc();
    let mut table = RegionTable::new(alloc);
    for id in 0..1024 {
        assert!(rt; set(alloc, &mut table, 1, &[circle(id, 1)]) == Ok(()));
    }
    let more = set(alloc, &mut table, 1, &[circle(5, 2), circle(2000, 2)]);
    assert!(rt; more == Err(RegionError::TooMany(1025)));
    assert!(rt; radius_of(&table, 5) == Some(1));
    assert!(rt; counts(&table) == [1024, 0, 0, 0]);
    assert!(rt; set(alloc, &mut table, 1, &[circle(5, 2)]) == Ok(()));
    assert!(rt; radius_of(&table, 5) == Some(2));
}

#[test]
fn at_most_1024_polygons(rt: HostRuntime) {
    let alloc = rt.alloc();
    let mut table = RegionTable::new(alloc);
    for id in 0..1024 {
        assert!(rt; put_polygon(alloc, &mut table, id) == Ok(()));
    }
    let more = put_polygon(alloc, &mut table, 1024);
    assert!(rt; more == Err(RegionError::TooMany(1025)));
    assert!(rt; put_polygon(alloc, &mut table, 7) == Ok(()));
    assert!(rt; counts(&table) == [0, 0, 1024, 0]);
}
