//! What `view` and `check` print of octets and of digits.

use crate::scene::{HEARTBEAT, expect, expect_octets, expect_text, repeated, run};
use jt_cli::Status;

#[test]
fn frames(rt: HostRuntime) {
    let rows: &[&str] = &[
        "7e000200000139123456780000327e => 0 2013 0x0002 heartbeat phone=013912345678 serial=0 body=0\nframes=1 refused=0\n",
        "7e00020000013912345678007d024c7e => 0 2013 0x0002 heartbeat phone=013912345678 serial=126 body=0\nframes=1 refused=0\n",
        "7e00020000013912345678004c7d027e => 0 2013 0x0002 heartbeat phone=013912345678 serial=76 body=0\nframes=1 refused=0\n",
        "7e000200000139123456780000327e7e000200000139123456780000327e => 0 2013 0x0002 heartbeat phone=013912345678 serial=0 body=0\n15 2013 0x0002 heartbeat phone=013912345678 serial=0 body=0\nframes=2 refused=0\n",
        " => frames=0 refused=0\n",
        "7e0002400001000000000139123456780000737e => 0 2019 0x0002 heartbeat phone=00000000013912345678 serial=0 version=1 body=0\nframes=1 refused=0\n",
        "7e01042002013912345678000a000300010007187e => 0 2013 0x0104 params phone=013912345678 serial=10 packet=1/3 body=2 part=0007\nframes=1 refused=0\n",
        "7e000280000139123456780000b27e => 0 2013 0x0002 heartbeat phone=013912345678 serial=0 bit15 body=0\nframes=1 refused=0\n",
        "7e8001000501391234567800000000000200b67e => 0 2013 0x8001 platform-ack phone=013912345678 serial=0 body=5 reply=0 id=0x0002 result=0\nframes=1 refused=0\n",
    ];
    expect_octets(&rt, rt.alloc(), &["view"], Status::Done, rows);
}

#[test]
fn refusals_of_frames(rt: HostRuntime) {
    let rows: &[&str] = &[
        "7e7e000200000139123456780000327e => 0+0 refused EmptyFrame\n1 2013 0x0002 heartbeat phone=013912345678 serial=0 body=0\nframes=1 refused=1\n",
        "00007e000200000139123456780000327e => 0+0 refused Stray\n2 2013 0x0002 heartbeat phone=013912345678 serial=0 body=0\nframes=1 refused=1\n",
        "7e000200000139123456780000337e7e000200000139123456780000327e => 0+12 refused CheckMismatch computed=32 found=33\n15 2013 0x0002 heartbeat phone=013912345678 serial=0 body=0\nframes=1 refused=1\n",
        "7e00020000013912345678000032 => 14+0 refused Truncated\nframes=0 refused=1\n",
        "7e00027d037e => 4+0 refused BadEscape\nframes=0 refused=1\n",
        "7e000204000139123456780000367e => 0+2 refused Encrypted\nframes=0 refused=1\n",
        "7e000204000139123456780000327e => 0+12 refused CheckMismatch computed=36 found=32\nframes=0 refused=1\n",
        "7e000200010139123456780000337e => 0+2 refused LengthMismatch declared=1 actual=0\nframes=0 refused=1\n",
        "7e00020000013a123456780000317e => 0+5 refused PhoneDigit\nframes=0 refused=1\n",
        "7e007e => 0+1 refused TooShort\nframes=0 refused=1\n",
        "7e01042002013912345678000a0003000400071d7e => 0+12 refused BadPacketNumber\nframes=0 refused=1\n",
        "7e00020001013912345678000041727e => 0+12 refused Trailing\nframes=0 refused=1\n",
        "7e00020001013912345678000041727e7e000200000139123456780000327e => 0+12 refused Trailing\n16 2013 0x0002 heartbeat phone=013912345678 serial=0 body=0\nframes=1 refused=1\n",
    ];
    expect_octets(&rt, rt.alloc(), &["view"], Status::Refused, rows);
}

#[test]
fn bodies(rt: HostRuntime) {
    let rows: &[&str] = &[
        "7e020000210139123456780005000000000000000301312d0006bc3e40000000000000000000000000010300000ac47e => 0 2013 0x0200 position phone=013912345678 serial=5 body=33 alarm=0x00000000 status=0x00000003 lat=20000000 lon=113000000 altitude=0 speed=0 direction=0 time=- item=0x01:00000a\nframes=1 refused=0\n",
        "7e810000030139123456780000000503b47e => 0 2013 0x8100 register-reply phone=013912345678 serial=0 body=3 reply=5 result=3\nframes=1 refused=0\n",
        "7e810000030139123456780000000500b77e => 0 2013 0x8100 register-reply phone=013912345678 serial=0 body=3 reply=5 result=0 code=-\nframes=1 refused=0\n",
        "7e010000290139123456780001002c012c373031313141310000000000000000000000000000000000003132333435363702d4c100423b7e => 0 2013 0x0100 register phone=013912345678 serial=1 body=41 province=44 city=300 maker=3730313131 model=4131000000000000000000000000000000000000 terminal=31323334353637 colour=2 plate=d4c10042\nframes=1 refused=0\n",
    ];
    expect_octets(&rt, rt.alloc(), &["view"], Status::Done, rows);
}

#[test]
fn refusals_of_bodies(rt: HostRuntime) {
    let rows: &[&str] = &[
        "7e81000004013912345678000000050341f27e => 0+15 refused Trailing\nframes=0 refused=1\n",
        "7e070400060139123456780000000100001c00287e => 0+17 refused Truncated\nframes=0 refused=1\n",
        "7e000200000139123456780000327e7e81000004013912345678000000050341f27e7e0102000201391234567800023132307e => 0 2013 0x0002 heartbeat phone=013912345678 serial=0 body=0\n15+15 refused Trailing\n34 2013 0x0102 auth phone=013912345678 serial=2 body=2 code=3132\nframes=2 refused=1\n",
    ];
    expect_octets(&rt, rt.alloc(), &["view"], Status::Refused, rows);
}

#[test]
fn lines_of_both_editions(rt: HostRuntime) {
    let rows: &[&str] = &[
        "7e0002400001000000000139123456780000737e => 0 2019 0x0002 heartbeat phone=00000000013912345678 serial=0 version=1 body=0\nframes=1 refused=0\n",
        "7e0005400701000000000139123456780000000a0200010002787e => 0 2019 0x0005 terminal-resend phone=00000000013912345678 serial=0 version=1 body=7 first=10 count=2 number=1 number=2\nframes=1 refused=0\n",
        "7e0005400801000000000139123456780000000a000200010002777e => 0 2019 0x0005 terminal-resend phone=00000000013912345678 serial=0 version=1 body=8 first=10 count=2 number=1 number=2\nframes=1 refused=0\n",
        "7e000500070139123456780000000a0200010002397e => 0 2013 0x0005 opaque phone=013912345678 serial=0 body=7 body-octets=000a0200010002\nframes=1 refused=0\n",
        "7e800300070139123456780000000a0200010002bf7e => 0 2013 0x8003 resend phone=013912345678 serial=0 body=7 first=10 count=2 number=1 number=2\nframes=1 refused=0\n",
        "7e8003400401000000000139123456780000000a0000fc7e => 0 2019 0x8003 resend phone=00000000013912345678 serial=0 version=1 body=4 first=10 count=0\nframes=1 refused=0\n",
        "7e0100404e01000000000139123456780001002c012c373031313100000000000041310000000000000000000000000000000000000000000000000000000030313233343536000000000000000000000000000000000000000000000002d4c1587e => 0 2019 0x0100 register phone=00000000013912345678 serial=1 version=1 body=78 province=44 city=300 maker=3730313131000000000000 model=413100000000000000000000000000000000000000000000000000000000 terminal=303132333435360000000000000000000000000000000000000000000000 colour=2 plate=d4c1\nframes=1 refused=0\n",
        "7e01024026010000000001391234567800020241423132333435363738393031323334357631000000000000000000000000000000000000207e => 0 2019 0x0102 auth phone=00000000013912345678 serial=2 version=1 body=38 length=2 code=4142 imei=313233343536373839303132333435 software=7631000000000000000000000000000000000000\nframes=1 refused=0\n",
        "7e0102402401000000000139123456780000000000000000000000000000000000000000000000000000000000000000000000000000567e => 0 2019 0x0102 auth phone=00000000013912345678 serial=0 version=1 body=36 length=0 code=- imei=000000000000000000000000000000 software=0000000000000000000000000000000000000000\nframes=1 refused=0\n",
        "7e0102000201391234567800004142327e => 0 2013 0x0102 auth phone=013912345678 serial=0 body=2 code=4142\nframes=1 refused=0\n",
        "7e8300400301000000000139123456780000010241b37e => 0 2019 0x8300 text phone=00000000013912345678 serial=0 version=1 body=3 flag=1 kind=2 text=41\nframes=1 refused=0\n",
        "7e830000030139123456780000010241f27e => 0 2013 0x8300 text phone=013912345678 serial=0 body=3 flag=1 text=0241\nframes=1 refused=0\n",
        "7e86004002010000000001391234567800000100f47e => 0 2019 0x8600 opaque phone=00000000013912345678 serial=0 version=1 body=2 body-octets=0100\nframes=1 refused=0\n",
        "7e0104e0020700000000013912345678000a000300010007df7e => 0 2019 0x0104 params phone=00000000013912345678 serial=10 version=7 bit15 packet=1/3 body=2 part=0007\nframes=1 refused=0\n",
        "7e8600600201000000000139123456780000000300010007d07e => 0 2019 0x8600 opaque phone=00000000013912345678 serial=0 version=1 packet=1/3 body=2 part=0007\nframes=1 refused=0\n",
        "7e860020020139123456780000000300010007917e => 0 2013 0x8600 circles phone=013912345678 serial=0 packet=1/3 body=2 part=0007\nframes=1 refused=0\n",
        "7e0005600201000000000139123456780000000300010007537e => 0 2019 0x0005 terminal-resend phone=00000000013912345678 serial=0 version=1 packet=1/3 body=2 part=0007\nframes=1 refused=0\n",
        "7e000520020139123456780000000300010007127e => 0 2013 0x0005 opaque phone=013912345678 serial=0 packet=1/3 body=2 part=0007\nframes=1 refused=0\n",
        "7e8001c00501000000000139123456787d027d010000000200747e => 0 2019 0x8001 platform-ack phone=00000000013912345678 serial=32381 version=1 bit15 body=5 reply=0 id=0x0002 result=0\nframes=1 refused=0\n",
        "7e0200402201000000000139123456780005000000000000000301312d0006bc3e4000000000000024010100000001040000000aa57e => 0 2019 0x0200 position phone=00000000013912345678 serial=5 version=1 body=34 alarm=0x00000000 status=0x00000003 lat=20000000 lon=113000000 altitude=0 speed=0 direction=0 time=2024-01-01T00:00:00+08:00 item=0x01:10\nframes=1 refused=0\n",
    ];
    expect_octets(&rt, rt.alloc(), &["view"], Status::Done, rows);
}

#[test]
fn refusals_of_both_editions(rt: HostRuntime) {
    let rows: &[&str] = &[
        "7e000240000139123456780000727e => 0+13 refused TooShort\nframes=0 refused=1\n",
        "7e0005400801000000000139123456780000000a000300010002767e => 0+19 refused BadCount\nframes=0 refused=1\n",
        "7e80030001013912345678000000b27e => 0+12 refused Truncated\nframes=0 refused=1\n",
        "7e0102400301000000000139123456780000054142777e => 0+18 refused Truncated\nframes=0 refused=1\n",
        "7e0002440001000000000139123456780000777e => 0+2 refused Encrypted\nframes=0 refused=1\n",
        "7e0002400101000000000139123456780000727e => 0+2 refused LengthMismatch declared=1 actual=0\nframes=0 refused=1\n",
        "7e0002400001000000000a39123456780000787e => 0+9 refused PhoneDigit\nframes=0 refused=1\n",
        "7e0104600201000000000139123456780000000300040007567e => 0+17 refused BadPacketNumber\nframes=0 refused=1\n",
        "7e8604000d9235593192790000027d02ff800003331010014305409f7e => 0+24 refused Truncated\nframes=0 refused=1\n",
    ];
    expect_octets(&rt, rt.alloc(), &["view"], Status::Refused, rows);
}

// The content is too long at its last octet, the heartbeat's first flag ends what is skipped, what stands behind it is a stray
// run, and its last flag opens a frame that does not end.
#[test]
fn a_content_too_long(rt: HostRuntime) {
    let alloc = rt.alloc();
    let octets = repeated(&rt, alloc, b"\x7e", &[0], 1046, HEARTBEAT);
    let text =
        "1046+0 refused TooLong\n1048+0 refused Stray\n1062+0 refused Truncated\nframes=0 refused=3\n";
    let octets = octets.as_slice();
    expect_text(&rt, alloc, &["view"], octets, Status::Refused, text);
}

// The frame of a body of 1,023 flags, under an id without a row.
#[test]
fn an_opaque_body(rt: HostRuntime) {
    let alloc = rt.alloc();
    let front = b"\x7e\x0f\xff\x03\xff\x01\x39\x12\x34\x56\x78\x00\x00";
    let octets = repeated(&rt, alloc, front, b"\x7d\x02", 1023, b"\x42\x7e");
    let front = b"0 2013 0x0fff opaque phone=013912345678 serial=0 body=1023 body-octets=";
    let line = repeated(&rt, alloc, front, b"7e", 1023, b"\nframes=1 refused=0\n");
    let (status, written) = run(&rt, alloc, &["view"], octets.as_slice(), (0, 0));
    assert!(rt; status == Status::Done);
    assert!(rt; written == line);
}

#[test]
fn checks(rt: HostRuntime) {
    let done: &[&str] = &[
        "7e000200000139123456780000327e7e000200000139123456780000327e => ok frames=2\n",
        "7e0102000201391234567800004142327e => ok frames=1\n",
    ];
    expect_octets(&rt, rt.alloc(), &["check"], Status::Done, done);
    let refused: &[&str] = &[
        "7e000200000139123456780000337e7e000200000139123456780000327e => 0+12 refused CheckMismatch computed=32 found=33\n",
        "7e0002 => 3+0 refused Truncated\n",
        // a reply to a registration with an octet too many
        "7e81000004013912345678000000050341f27e => 0+15 refused Trailing\n",
    ];
    expect_octets(&rt, rt.alloc(), &["check"], Status::Refused, refused);
}

#[test]
fn checks_of_digits(rt: HostRuntime) {
    let alloc = rt.alloc();
    let words = &["check", "--hex"];
    let digits = b"7e 00020000 0139 1234\t5678\r\n0000 3\n2 7e";
    expect_text(&rt, alloc, words, digits, Status::Done, "ok frames=1\n");
    let refused: &[&str] = &[
        "7e 0200001b 013912345678 0005 000000000000000000000000000000000000000000000000000000 2c 7e => 0+34 refused Truncated\n",
        "7e7ex => 0+0 refused EmptyFrame\n",
        "x => hex refused at 0\n",
    ];
    expect(&rt, alloc, words, Status::Refused, refused);
}

#[test]
fn views_of_digits(rt: HostRuntime) {
    let words = &["view", "--hex"];
    let done: &[&str] = &[
        "7E 00020000 0139 1234\t5678\r\n0000 3\n2 7E => 0 2013 0x0002 heartbeat phone=013912345678 serial=0 body=0\nframes=1 refused=0\n",
    ];
    expect(&rt, rt.alloc(), words, Status::Done, done);
    let refused: &[&str] = &[
        "7e 0200001b 013912345678 0005 000000000000000000000000000000000000000000000000000000 2c 7e => 0+34 refused Truncated\nframes=0 refused=1\n",
        "7e 7 => hex refused at 4\n",
        "7e000200000139123456780000327e 7e0 => 0 2013 0x0002 heartbeat phone=013912345678 serial=0 body=0\nhex refused at 34\n",
        "7e000200000139123456780000327e7eg => 0 2013 0x0002 heartbeat phone=013912345678 serial=0 body=0\nhex refused at 32\n",
    ];
    expect(&rt, rt.alloc(), words, Status::Refused, refused);
}
