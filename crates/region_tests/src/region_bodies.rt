use jt_region_bodies::{
    Circle, Limit, Rectangle, RoutePoint, Vertex, circles_fit, judge_circles, judge_deletion,
    judge_polygon, judge_rectangles, judge_route, read_circles, read_deletion, read_polygon,
    read_rectangles, read_route, rectangles_fit, write_circles, write_deletion, write_polygon,
    write_rectangles, write_route,
};
use jt_value::{CodecError, Refusal, Why};

const ROUTE: [u8; 45] =
    *b"\0\0\0\x05\0\x01\x24\x01\x01\0\0\0\x24\x01\x02\0\0\0\0\x01\0\0\0\x06\0\0\0\x07\x01\x31\x2d\0\x06\xbc\x3e\x40\x0a\x03\0\x3c\0\x1e\0\x50\x05";

const POLYGON: [u8; 32] =
    *b"\0\0\0\x09\0\0\0\x03\0\0\0\0\x06\xbc\x3e\x36\0\0\0\x0a\x06\xbc\x3e\x4a\0\0\0\0\x06\xbc\x3e\x4a";

// Without times and limit, with times, with a limit, with both, and with all other bits of the attribute set.
const CIRCLES: [u8; 122] =
    *b"\x02\x05\0\0\0\x01\0\0\0\0\0\x02\0\0\0\x03\0\0\0\x04\0\0\0\x01\0\x01\0\0\0\x02\0\0\0\x03\0\0\0\x04\x24\x01\x01\0\0\0\x24\x01\x02\0\0\0\0\0\0\x01\0\x02\0\0\0\x02\0\0\0\x03\0\0\0\x04\0\x50\x05\0\0\0\x01\0\x03\0\0\0\x02\0\0\0\x03\0\0\0\x04\x24\x01\x01\0\0\0\x24\x01\x02\0\0\0\0\x50\x05\0\0\0\x01\xff\xfc\0\0\0\x02\0\0\0\x03\0\0\0\x04";

const RECTANGLES: [u8; 120] =
    *b"\0\x04\0\0\0\x07\0\0\x01\x31\x2d\x0a\x06\xbc\x3e\x40\x01\x31\x2d\0\x06\xbc\x3e\x4a\0\0\0\x07\0\x01\x01\x31\x2d\x0a\x06\xbc\x3e\x40\x01\x31\x2d\0\x06\xbc\x3e\x4a\x24\x01\x01\0\0\0\x24\x01\x02\0\0\0\0\0\0\x07\0\x02\x01\x31\x2d\x0a\x06\xbc\x3e\x40\x01\x31\x2d\0\x06\xbc\x3e\x4a\0\x50\x05\0\0\0\x07\0\x03\x01\x31\x2d\x0a\x06\xbc\x3e\x40\x01\x31\x2d\0\x06\xbc\x3e\x4a\x24\x01\x01\0\0\0\x24\x01\x02\0\0\0\0\x50\x05";

// A route without times, its points without thresholds and limit, with thresholds, with a limit, and with both.
const POINTS: [u8; 94] =
    *b"\0\0\0\x05\0\0\0\x04\0\0\0\x06\0\0\0\x07\0\0\0\x08\0\0\0\x09\x0a\0\0\0\0\x06\0\0\0\x07\0\0\0\x08\0\0\0\x09\x0a\x01\0\x3c\0\x1e\0\0\0\x06\0\0\0\x07\0\0\0\x08\0\0\0\x09\x0a\x02\0\x50\x05\0\0\0\x06\0\0\0\x07\0\0\0\x08\0\0\0\x09\x0a\x03\0\x3c\0\x1e\0\x50\x05";

const TIMES: [u8; 12] = *b"\x24\x01\x01\0\0\0\x24\x01\x02\0\0\0";

const LIMIT: Limit = Limit {
    speed: 80,
    duration: 5,
};

fn refused(inside: u64, why: Why) -> CodecError {
    CodecError::Refused(Refusal { at: 0, inside, why })
}

fn circle(attribute: u16, times: Option<[u8; 12]>, limit: Option<Limit>) -> Circle {
    Circle {
        id: 1,
        attribute,
        lat: 2,
        lon: 3,
        radius: 4,
        times,
        limit,
    }
}

fn rectangle(attribute: u16, times: Option<[u8; 12]>, limit: Option<Limit>) -> Rectangle {
    Rectangle {
        id: 7,
        attribute,
        top: 20_000_010,
        left: 113_000_000,
        bottom: 20_000_000,
        right: 113_000_010,
        times,
        limit,
    }
}

fn point(attribute: u8, thresholds: Option<(u16, u16)>, limit: Option<Limit>) -> RoutePoint {
    RoutePoint {
        point: 6,
        segment: 7,
        lat: 8,
        lon: 9,
        width: 10,
        attribute,
        thresholds,
        limit,
    }
}

#[test]
fn circles_with_and_without_times_and_limit(rt: HostRuntime) {
    let (setting, list) = read_circles(rt.alloc(), &CIRCLES).expect(&rt, "a body");
    assert!(rt; setting == 2);
    let circles = [
        circle(0, None, None),
        circle(1, Some(TIMES), None),
        circle(2, None, Some(LIMIT)),
        circle(3, Some(TIMES), Some(LIMIT)),
        circle(0xFFFC, None, None),
    ];
    assert!(rt; list.as_slice() == circles.as_slice());
    assert!(rt; circles_fit(setting, &list));
    let written = write_circles(rt.alloc(), setting, &list).expect(&rt, "octets");
    assert!(rt; written.as_slice() == CIRCLES.as_slice());
}

#[test]
fn a_circle_whose_times_are_missing(rt: HostRuntime) {
    let body = b"\x01\x01\0\0\0\x09\0\x03\x01\x31\x2d\0\x06\xbc\x3e\x40\0\0\0\x64";
    let cut = read_circles(rt.alloc(), body).err();
    assert!(rt; cut == Some(refused(20, Why::Truncated)));
}

#[test]
fn rectangles_with_and_without_times_and_limit(rt: HostRuntime) {
    let (setting, list) = read_rectangles(rt.alloc(), &RECTANGLES).expect(&rt, "a body");
    assert!(rt; setting == 0);
    let rectangles = [
        rectangle(0, None, None),
        rectangle(1, Some(TIMES), None),
        rectangle(2, None, Some(LIMIT)),
        rectangle(3, Some(TIMES), Some(LIMIT)),
    ];
    assert!(rt; list.as_slice() == rectangles.as_slice());
    assert!(rt; rectangles_fit(setting, &list));
    let written = write_rectangles(rt.alloc(), setting, &list).expect(&rt, "octets");
    assert!(rt; written.as_slice() == RECTANGLES.as_slice());
}

#[test]
fn a_polygon_with_vertices(rt: HostRuntime) {
    let polygon = read_polygon(rt.alloc(), &POLYGON).expect(&rt, "a body");
    assert!(rt; polygon.id == 9);
    let vertices = [
        Vertex {
            lat: 0,
            lon: 112_999_990,
        },
        Vertex {
            lat: 10,
            lon: 113_000_010,
        },
        Vertex {
            lat: 0,
            lon: 113_000_010,
        },
    ];
    assert!(rt; polygon.vertices.as_slice() == vertices.as_slice());
    let written = write_polygon(rt.alloc(), &polygon).expect(&rt, "octets");
    assert!(rt; written.as_slice() == POLYGON.as_slice());
}

#[test]
fn polygons_with_and_without_times_and_limit(rt: HostRuntime) {
    let rows: &[(&[u8], Option<[u8; 12]>, Option<Limit>)] = &[
        (b"\0\0\0\x09\0\0\0\0", None, None),
        (
            b"\0\0\0\x09\0\x01\x24\x01\x01\0\0\0\x24\x01\x02\0\0\0\0\0",
            Some(TIMES),
            None,
        ),
        (b"\0\0\0\x09\0\x02\0\x50\x05\0\0", None, Some(LIMIT)),
        (
            b"\0\0\0\x09\0\x03\x24\x01\x01\0\0\0\x24\x01\x02\0\0\0\0\x50\x05\0\0",
            Some(TIMES),
            Some(LIMIT),
        ),
    ];
    for &(body, times, limit) in rows {
        let polygon = read_polygon(rt.alloc(), body).expect(&rt, "a body");
        assert!(rt; polygon.times == times);
        assert!(rt; polygon.limit == limit);
        assert!(rt; polygon.fits());
        let written = write_polygon(rt.alloc(), &polygon).expect(&rt, "octets");
        assert!(rt; written.as_slice() == body);
    }
    let trailing = read_polygon(rt.alloc(), b"\0\0\0\x09\0\0\0\0\0").err();
    assert!(rt; trailing == Some(refused(8, Why::Trailing)));
}

#[test]
fn a_route_with_times(rt: HostRuntime) {
    let route = read_route(rt.alloc(), &ROUTE).expect(&rt, "a body");
    assert!(rt; route.id == 5);
    assert!(rt; route.attribute == 1);
    assert!(rt; route.times == Some(TIMES));
    let point = RoutePoint {
        point: 6,
        segment: 7,
        lat: 20_000_000,
        lon: 113_000_000,
        width: 10,
        attribute: 3,
        thresholds: Some((60, 30)),
        limit: Some(LIMIT),
    };
    assert!(rt; route.points.as_slice() == [point].as_slice());
    assert!(rt; route.fits());
    let written = write_route(rt.alloc(), &route).expect(&rt, "octets");
    assert!(rt; written.as_slice() == ROUTE.as_slice());
    let cut = read_route(rt.alloc(), &ROUTE[..44]).err();
    assert!(rt; cut == Some(refused(44, Why::Truncated)));
}

#[test]
fn points_with_and_without_thresholds_and_limit(rt: HostRuntime) {
    let route = read_route(rt.alloc(), &POINTS).expect(&rt, "a body");
    assert!(rt; route.times == None);
    let points = [
        point(0, None, None),
        point(1, Some((60, 30)), None),
        point(2, None, Some(LIMIT)),
        point(3, Some((60, 30)), Some(LIMIT)),
    ];
    assert!(rt; route.points.as_slice() == points.as_slice());
    let written = write_route(rt.alloc(), &route).expect(&rt, "octets");
    assert!(rt; written.as_slice() == POINTS.as_slice());
}

#[test]
fn deletions(rt: HostRuntime) {
    let rows: [(&[u8], &[u32]); 2] = [(b"\0", &[]), (b"\x02\0\0\0\x07\0\0\x01\0", &[7, 256])];
    for (body, ids) in rows {
        let deletion = read_deletion(rt.alloc(), body).expect(&rt, "a body");
        assert!(rt; deletion.ids.as_slice() == ids);
        assert!(rt; deletion.fits());
        let written = write_deletion(rt.alloc(), &deletion).expect(&rt, "octets");
        assert!(rt; written.as_slice() == body);
    }
    let cut = read_deletion(rt.alloc(), b"\x02\0\0\0\x07\0\0\x01").err();
    assert!(rt; cut == Some(refused(5, Why::Truncated)));
}

#[test]
fn bodies_are_judged(rt: HostRuntime) {
    assert!(rt; judge_circles(rt.alloc(), &CIRCLES) == Ok(()));
    assert!(rt; judge_rectangles(rt.alloc(), &RECTANGLES) == Ok(()));
    assert!(rt; judge_polygon(rt.alloc(), &POLYGON) == Ok(()));
    assert!(rt; judge_route(rt.alloc(), &ROUTE) == Ok(()));
    assert!(rt; judge_deletion(rt.alloc(), b"\x01\0\0\0\x07") == Ok(()));
}

#[test]
fn bodies_are_judged_as_they_are_read(rt: HostRuntime) {
    let trailing = judge_circles(rt.alloc(), b"\0\0\0").err();
    assert!(rt; trailing == Some(refused(2, Why::Trailing)));
    let cut = judge_rectangles(rt.alloc(), b"\0\x01\0\0\0\x07\0").err();
    assert!(rt; cut == Some(refused(6, Why::Truncated)));
    let cut = judge_polygon(rt.alloc(), &POLYGON[..31]).err();
    assert!(rt; cut == Some(refused(28, Why::Truncated)));
    let cut = judge_route(rt.alloc(), &ROUTE[..44]).err();
    assert!(rt; cut == Some(refused(44, Why::Truncated)));
    let cut = judge_deletion(rt.alloc(), b"\x02\0\0\0\x07\0\0\x01").err();
    assert!(rt; cut == Some(refused(5, Why::Truncated)));
}

#[test]
fn an_option_that_its_bit_does_not_announce_does_not_fit(rt: HostRuntime) {
    let mut polygon = read_polygon(rt.alloc(), &POLYGON).expect(&rt, "a body");
    polygon.limit = Some(LIMIT);
    assert!(rt; !polygon.fits());
    polygon.attribute = 2;
    assert!(rt; polygon.fits());
    polygon.attribute = 3;
    assert!(rt; !polygon.fits());
}
