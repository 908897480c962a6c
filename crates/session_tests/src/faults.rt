//! Each call of the keeper fails in turn.

use crate::running::run_failing;
use jt_session::{End, Fed};

// A registration, an authentication, a unit twice, and a deregistration of phone 333435363738.
const STREAM: &[u8] =
    b"\x7e\x01\0\0\x26345678\0\0\0\0\0\0\0\0\0\0\0\0\0\0\0\0\0\0\0\0\0\0\0\0\0\0\0\0\0\0\01\0\0\0\0\0\0\x01A\x5d\x7e\x7e\x01\x02\0\x10345678\0\x01ef797c8118f02dfbD\x7e\x7e\x02\0\0\x1c345678\0\x02\0\0\0\0\0\0\0\0\0\0\0\0\0\0\0\0\0\0\0\0\0\0\0\0\0\0\0\0\x17\x7e\x7e\x02\0\0\x1c345678\0\x02\0\0\0\0\0\0\0\0\0\0\0\0\0\0\0\0\0\0\0\0\0\0\0\0\0\0\0\0\x17\x7e\x7e\0\x03\0\0345678\0\x04\x0c\x7e";

// The number of the keeper's call that fails; a letter for each entry's reply, the last of which is that of the Close; whether the
// phone is registered then, and its last row.
#[test]
fn each_call_of_the_keeper_fails(rt: HostRuntime) {
    let rows: &[(u64, &[u8], bool, Option<u64>)] = &[
        // The registration asks for the phone, the plate's holder and the terminal's, and registers.
        (1, b"A", false, None),
        (2, b"A", false, None),
        (3, b"A", false, None),
        (4, b"A", false, None),
        // The authentication asks for the phone.
        (5, b"RA", true, None),
        // The unit asks for the last row, and adds one.
        (6, b"RAA", true, None),
        (7, b"RAA", true, None),
        // The repeated one asks for the last row, and reads that row.
        (8, b"RASA", true, Some(2)),
        (9, b"RASA", true, Some(2)),
        // The deregistration.
        (10, b"RASPA", true, Some(2)),
    ];
    for &(failing, replies, is_registered, last) in rows {
        let left = run_failing(&rt, rt.alloc(), failing, STREAM);
        assert!(rt; left.ran.fed == Fed::Stop(End::StoreFault), "{failing}");
        assert!(rt; left.ran.replies.as_slice() == replies, "{failing}");
        assert!(rt; left.is_registered == is_registered, "{failing}");
        assert!(rt; left.last == last, "{failing}");
    }
}

// The calls of the keeper are ten.
#[test]
fn no_call_of_the_keeper_fails(rt: HostRuntime) {
    let left = run_failing(&rt, rt.alloc(), 0, STREAM);
    assert!(rt; left.ran.fed == Fed::On);
    assert!(rt; left.ran.replies.as_slice() == b"RASPAA".as_slice());
    assert!(rt; !left.is_registered);
    assert!(rt; left.last == Some(2));
}
