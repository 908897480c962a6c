//! Tracks and what `fence` prints of them. Each text was worked out by hand.

use crate::scene::{expect, expect_text, repeated};
use jt_cli::Status;
use std::alloc::Global;
use std::process::Abort;

#[test]
fn points_in_regions(rt: HostRuntime) {
    let rows: &[&str] = &[
        // A rectangle is entered and left.
        "rectangles 000100000007000001312d0a06bc3e4001312d0006bc3e4a\nfix 20000010\nfix 20000011\n => fix 1 enter rectangle 7\nfix 2 leave rectangle 7\nfixes=2 events=2\n",
        // A triangle: its first edge goes through the fix of latitude 5, and its horizontal edge through that of 0.
        "polygon 00000009000000030000000006bc3e360000000a06bc3e4a0000000006bc3e4a\nfix 5\nfix 6\nfix 0\n => fix 1 enter polygon 9\nfix 2 leave polygon 9\nfix 3 enter polygon 9\nfixes=3 events=3\n",
        // A diamond: its four vertices, points on both lower edges and beside them, and a point from which the way east goes through two
        // vertices.
        "polygon 00000005000000040000000006bc3e400000000506bc3e450000000a06bc3e400000000506bc3e3b\n\
        fix 0\n\
        fix 10\n\
        fix 11\n\
        raw 00000000000000030000000506bc3e45000000000000240101000000\n\
        raw 00000000000000030000000506bc3e3a000000000000240101000000\n\
        raw 00000000000000030000000506bc3e3b000000000000240101000000\n\
        raw 00000000000000030000000206bc3e43000000000000240101000000\n\
        raw 00000000000000030000000206bc3e42000000000000240101000000\n\
        raw 00000000000000030000000206bc3e3d000000000000240101000000\n\
        raw 00000000000000030000000206bc3e3e000000000000240101000000\n => \
        fix 1 enter polygon 5\nfix 3 leave polygon 5\nfix 4 enter polygon 5\nfix 5 leave polygon 5\nfix 6 enter polygon 5\nfix 7 leave polygon 5\nfix 8 enter polygon 5\nfix 9 leave polygon 5\nfix 10 enter polygon 5\nfixes=10 events=9\n",
        // An L: a horizontal edge is border, and its latitude is passed beside it.
        "polygon 00000005000000060000000006bc3e3c0000000006bc3e440000000406bc3e440000000406bc3e400000000806bc3e400000000806bc3e3c\n\
        raw 00000000000000030000000406bc3e45000000000000240101000000\n\
        raw 00000000000000030000000406bc3e42000000000000240101000000\n\
        raw 00000000000000030000000406bc3e3b000000000000240101000000\n\
        raw 00000000000000030000000406bc3e3e000000000000240101000000\n\
        raw 00000000000000030000000506bc3e41000000000000240101000000\n\
        raw 00000000000000030000000806bc3e3c000000000000240101000000\n => \
        fix 2 enter polygon 5\nfix 3 leave polygon 5\nfix 4 enter polygon 5\nfix 5 leave polygon 5\nfix 6 enter polygon 5\nfixes=6 events=5\n",
        // A polygon that crosses itself has two insides, and the point where it does is border.
        "polygon 00000006000000040000000006bc3e3b0000000a06bc3e450000000a06bc3e3b0000000006bc3e45\nfix 2\nraw 00000000000000030000000506bc3e3d000000000000240101000000\nfix 5\nraw 00000000000000030000000506bc3e43000000000000240101000000\nfix 8\n => fix 1 enter polygon 6\nfix 2 leave polygon 6\nfix 3 enter polygon 6\nfix 4 leave polygon 6\nfix 5 enter polygon 6\nfixes=5 events=5\n",
        // No vertex has no inside; one is its own; two are their edge; a square with a vertex twice; and a rectangle of one latitude, before
        // all polygons.
        "polygon 0000000100000000\n\
        polygon 00000002000000010000000506bc3e40\n\
        polygon 00000003000000020000000006bc3e400000000a06bc3e40\n\
        polygon 00000004000000050000000006bc3e300000000006bc3e500000000006bc3e500000000806bc3e500000000806bc3e30\n\
        rectangles 000100000009000000000005000000000000000506bc3e40\n\
        fix 5\n\
        fix 0\n\
        fix 8\n\
        fix 9\n\
        fix 11\n => \
        fix 1 enter rectangle 9\nfix 1 enter polygon 2\nfix 1 enter polygon 3\nfix 1 enter polygon 4\nfix 2 leave rectangle 9\nfix 2 leave polygon 2\nfix 4 leave polygon 4\nfix 5 leave polygon 3\nfixes=5 events=8\n",
        // Coordinates at 0 and 2^32 - 1: a rectangle and a square that are all there is, and the half of it in which no longitude is above
        // the latitude.
        "rectangles 0001000000010000ffffffff0000000000000000ffffffff\n\
        polygon 0000000100000004000000000000000000000000ffffffffffffffffffffffffffffffff00000000\n\
        polygon 00000002000000030000000000000000ffffffffffffffffffffffff00000000\n\
        raw 0000000000000003ffffffffffffffff000000000000240101000000\n\
        raw 0000000000000003fffffffeffffffff000000000000240101000000\n\
        raw 0000000000000003fffffffefffffffe000000000000240101000000\n\
        raw 00000000000000030000000000000001000000000000240101000000\n\
        raw 00000000000000030000000000000000000000000000240101000000\n => \
        fix 1 enter rectangle 1\nfix 1 enter polygon 1\nfix 1 enter polygon 2\nfix 2 leave polygon 2\nfix 3 enter polygon 2\nfix 4 leave polygon 2\nfix 5 enter polygon 2\nfixes=5 events=7\n",
    ];
    expect(&rt, rt.alloc(), &["fence"], Status::Done, rows);
}

#[test]
fn regions_and_runs(rt: HostRuntime) {
    let rows: &[&str] = &[
        // 60 km/h for 10 seconds: 600 tenths are not above it; the run begins at second 1, is told at 11 alone, ends at a time that names no
        // moment, and begins anew at 61.
        "rectangles 000100000007000201312d0a06bc3e4001312d0006bc3e4a003c0a\n\
        raw 000000000000000301312d0006bc3e40000002580000240101000000\n\
        raw 000000000000000301312d0006bc3e40000002590000240101000001\n\
        raw 000000000000000301312d0006bc3e40000002590000240101000010\n\
        raw 000000000000000301312d0006bc3e400000025a0000240101000011\n\
        raw 000000000000000301312d0006bc3e400000025a0000240101000059\n\
        raw 000000000000000301312d0006bc3e400000025a0000240101ff0059\n\
        raw 000000000000000301312d0006bc3e400000025a0000240101000101\n\
        raw 000000000000000301312d0006bc3e400000025a0000240101000111\n => \
        fix 1 enter rectangle 7\nfix 4 over rectangle 7\nfix 8 over rectangle 7\nfixes=8 events=3\n",
        // For no seconds: over at the first fix of each run.
        "rectangles 000100000007000201312d0a06bc3e4001312d0006bc3e4a003c00\n\
        raw 000000000000000301312d0006bc3e40000002590000240101000000\n\
        raw 000000000000000301312d0006bc3e40000002590000240101000001\n\
        raw 000000000000000301312d0006bc3e40000002580000240101000002\n\
        raw 000000000000000301312d0006bc3e40000002590000240101000003\n => \
        fix 1 enter rectangle 7\nfix 1 over rectangle 7\nfix 4 over rectangle 7\nfixes=4 events=3\n",
        // The greatest limit of speed is above each speed.
        "rectangles 000100000007000201312d0a06bc3e4001312d0006bc3e4affff00\nraw 000000000000000301312d0006bc3e400000ffff0000240101000000\n => fix 1 enter rectangle 7\nfixes=1 events=1\n",
        // A fix outside ends a run: behind it 10 seconds are wanted anew.
        "rectangles 000100000007000201312d0a06bc3e4001312d0006bc3e4a003c0a\nraw 000000000000000301312d0006bc3e40000002590000240101000000\nfix 0\nraw 000000000000000301312d0006bc3e40000002590000240101000010\nraw 000000000000000301312d0006bc3e40000002590000240101000020\n => fix 1 enter rectangle 7\nfix 2 leave rectangle 7\nfix 3 enter rectangle 7\nfix 4 over rectangle 7\nfixes=4 events=4\n",
        // The first moment of a run counts, also where a later fix is earlier than it, and one run is told once.
        "rectangles 000100000007000201312d0a06bc3e4001312d0006bc3e4a003c0a\n\
        raw 000000000000000301312d0006bc3e40000002590000240101000020\n\
        raw 000000000000000301312d0006bc3e40000002590000240101000000\n\
        raw 000000000000000301312d0006bc3e40000002590000240101000030\n\
        raw 000000000000000301312d0006bc3e40000002590000240101000005\n\
        raw 000000000000000301312d0006bc3e40000002590000240101000040\n => \
        fix 1 enter rectangle 7\nfix 3 over rectangle 7\nfixes=5 events=2\n",
        // An equal region that is put again in a run leaves it.
        "rectangles 000100000007000201312d0a06bc3e4001312d0006bc3e4a003c0a\nraw 000000000000000301312d0006bc3e40000002590000240101000000\nrectangles 010100000007000201312d0a06bc3e4001312d0006bc3e4a003c0a\nraw 000000000000000301312d0006bc3e40000002590000240101000010\n => fix 1 enter rectangle 7\nfix 2 over rectangle 7\nfixes=2 events=2\n",
        // Another one begins it anew.
        "rectangles 000100000007000201312d0a06bc3e4001312d0006bc3e4a003c0a\n\
        raw 000000000000000301312d0006bc3e40000002590000240101000000\n\
        rectangles 020100000007000201312d0a06bc3e4001312d0006bc3e4a003c05\n\
        raw 000000000000000301312d0006bc3e40000002590000240101000010\n\
        raw 000000000000000301312d0006bc3e40000002590000240101000014\n\
        raw 000000000000000301312d0006bc3e40000002590000240101000015\n => \
        fix 1 enter rectangle 7\nfix 2 enter rectangle 7\nfix 4 over rectangle 7\nfixes=4 events=3\n",
        // An equal region put again changes nothing; another one in between does, even between the same two fixes.
        "rectangles 000100000007000001312d0a06bc3e4001312d0006bc3e4a\nfix 20000010\nrectangles 000100000007000001312d0a06bc3e4001312d0006bc3e4a\nfix 20000010\nrectangles 000100000007000001312d0b06bc3e4001312d0006bc3e4a\nrectangles 000100000007000001312d0a06bc3e4001312d0006bc3e4a\nfix 20000010\nfix 20000011\n => fix 1 enter rectangle 7\nfix 3 enter rectangle 7\nfix 4 leave rectangle 7\nfixes=4 events=3\n",
        // The same of a polygon, one vertex of which differs.
        "polygon 000000070000000401312d0006bc3e4001312d0006bc3e4a01312d0a06bc3e4a01312d0a06bc3e40\n\
        fix 20000010\n\
        polygon 000000070000000401312d0006bc3e4001312d0006bc3e4a01312d0a06bc3e4a01312d0a06bc3e40\n\
        fix 20000010\n\
        polygon 000000070000000401312d0006bc3e4001312d0006bc3e4a01312d0a06bc3e4a01312d0b06bc3e40\n\
        polygon 000000070000000401312d0006bc3e4001312d0006bc3e4a01312d0a06bc3e4a01312d0a06bc3e40\n\
        fix 20000010\n\
        fix 20000011\n => \
        fix 1 enter polygon 7\nfix 3 enter polygon 7\nfix 4 leave polygon 7\nfixes=4 events=3\n",
        // In one change another region of the id stands before the equal one: only what the change leaves counts.
        "rectangles 000100000007000001312d0a06bc3e4001312d0006bc3e4a\nfix 20000010\nrectangles 010200000007000001312d0b06bc3e4001312d0006bc3e4a00000007000001312d0a06bc3e4001312d0006bc3e4a\nfix 20000010\n => fix 1 enter rectangle 7\nfixes=2 events=1\n",
        // A region that is gone is not left.
        "rectangles 000100000007000001312d0a06bc3e4001312d0006bc3e4a\nfix 20000010\ndelete-rectangles 00\nfix 20000011\n => fix 1 enter rectangle 7\nfixes=2 events=1\n",
        // One that was deleted and put again is entered anew.
        "polygon 000000070000000401312d0006bc3e4001312d0006bc3e4a01312d0a06bc3e4a01312d0a06bc3e40\nfix 20000010\ndelete-polygons 0100000007\npolygon 000000070000000401312d0006bc3e4001312d0006bc3e4a01312d0a06bc3e4a01312d0a06bc3e40\nfix 20000010\n => fix 1 enter polygon 7\nfix 2 enter polygon 7\nfixes=2 events=2\n",
        // A deletion of other ids, and of the other kind, leaves it.
        "polygon 000000070000000401312d0006bc3e4001312d0006bc3e4a01312d0a06bc3e4a01312d0a06bc3e40\nfix 20000010\ndelete-polygons 0100000008\ndelete-rectangles 0100000007\nfix 20000011\n => fix 1 enter polygon 7\nfix 2 leave polygon 7\nfixes=2 events=2\n",
        // The alarms of one fix: rectangles before polygons, then by id, then enter, leave, over.
        "rectangles 000200000009000201312d0a06bc3e4001312d0006bc3e4a003c0000000007000001312d0a06bc3e4001312d0006bc3e4a\n\
        polygon 000000070000000401312d0006bc3e4001312d0006bc3e4a01312d0a06bc3e4a01312d0a06bc3e40\n\
        polygon 000000010002003c00000401312d0006bc3e4001312d0006bc3e4a01312d0a06bc3e4a01312d0a06bc3e40\n\
        raw 000000000000000301312d0506bc3e45000002590000240101000000\n\
        fix 0\n => \
        fix 1 enter rectangle 7\nfix 1 enter rectangle 9\nfix 1 over rectangle 9\nfix 1 enter polygon 1\nfix 1 over polygon 1\nfix 1 enter polygon 7\nfix 2 leave rectangle 7\nfix 2 leave rectangle 9\nfix 2 leave polygon 1\nfix 2 leave polygon 7\nfixes=2 events=10\n",
    ];
    expect(&rt, rt.alloc(), &["fence"], Status::Done, rows);
}

#[test]
fn lines_of_tracks(rt: HostRuntime) {
    let rows: &[&str] = &[
        " => fixes=0 events=0\n",
        "fix 0 => fixes=1 events=0\n",
        "\n# a comment\nrectangles 000100000007000001312d0a06bc3e4001312d0006bc3e4a\n\nfix 20000000\n => fix 1 enter rectangle 7\nfixes=1 events=1\n",
        "rectangles 000100000007000001312D0A06bc3e4001312d0006bc3e4a\nfix 20000010\n => fix 1 enter rectangle 7\nfixes=1 events=1\n",
        "delete-rectangles 00\ndelete-polygons 00\nfix 89999999\n => fixes=1 events=0\n",
    ];
    expect(&rt, rt.alloc(), &["fence"], Status::Done, rows);
}

#[test]
fn bad_lines_of_tracks(rt: HostRuntime) {
    let rows: &[&str] = &[
        "rectangles 000100000007000001312d0a06bc3e4001312d0006bc3e4a\nfix 20000000\nfix 01\n => fix 1 enter rectangle 7\nline 3 refused\n",
        "fix 90000000\n => line 1 refused\n",
        "up 1 all\n => line 1 refused\n",
        "down all\n => line 1 refused\n",
        "tick 0\n => line 1 refused\n",
        "raw\n => line 1 refused\n",
        "raw \n => line 1 refused\n",
        "raw 00\n => line 1 refused\n",
        "raw 000000000000000301312d0006bc3e400000000000002401010000000\n => line 1 refused\n",
        "raw 000000000000000301312d0006bc3e400000000000002401010000000g\n => line 1 refused\n",
        "raw 000000000000000301312d0006bc3e40000000000000240101000000\r\n => line 1 refused\n",
        "raw  000000000000000301312d0006bc3e40000000000000240101000000\n => line 1 refused\n",
        "delete-circles 00\n => line 1 refused\n",
        "delete-polygons 0\n => line 1 refused\n",
        "delete-polygons 0000\n => line 1 refused\n",
        "delete-polygons 01\n => line 1 refused\n",
        "polygon 000000010000\n => line 1 refused\n",
        "rectangles 000100000007000001312d0a06bc3e4001312d0006bc3e4a00\n => line 1 refused\n",
        "rectangles 0300\n => line 1 refused\n",
        "rectangles 020100000007000001312d0a06bc3e4001312d0006bc3e4a\n => line 1 refused\n",
        "rectangles 000100000007000001312d0a06bc3e4001312d0006bc3e4a\nfix 20000000\nrectangles 020200000007000001312d0a06bc3e4001312d0006bc3e4a00000008000000000000000000000000000000000000\nfix 0\n => fix 1 enter rectangle 7\nline 3 refused\n",
    ];
    expect(&rt, rt.alloc(), &["fence"], Status::Refused, rows);
}

// A track of one fix, whose position has so many items without a value: 28 octets, and two for each.
fn track_of(rt: &impl Abort, alloc: Global, items: u32) -> Vec<u8> {
    let front = b"raw 000000000000000301312d0006bc3e40000000000000240101000000";
    repeated(rt, alloc, front, b"1000", items, b"")
}

#[test]
fn fixes_of_at_most_1023_octets(rt: HostRuntime) {
    let alloc = rt.alloc();
    let longest = track_of(&rt, alloc, 497);
    let text = "fixes=1 events=0\n";
    let longest = longest.as_slice();
    expect_text(&rt, alloc, &["fence"], longest, Status::Done, text);
    let longer = track_of(&rt, alloc, 498);
    let text = "line 1 refused\n";
    let longer = longer.as_slice();
    expect_text(&rt, alloc, &["fence"], longer, Status::Refused, text);
}
