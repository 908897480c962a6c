//! Accepts that fail: what is of one connection is passed over, a shortage is waited for, and what is of the listener fails at once.

use crate::shaky::Shaky;
use crate::sockets::start;
use jt_outside::{Accepted, Dial, Listen, TcpDial, TcpListen};
use std::alloc::Global;
use std::sync::Arc;
use std::sync::atomic::{AtomicU64, Ordering};
use std::test::Fail;

// Errors by the numbers that Linux gives them. Of a connection that waits to be accepted, of the network or of a firewall: EPERM,
// ENONET, EPROTO, ENOPROTOOPT, EOPNOTSUPP, ENETDOWN, ENETUNREACH, ECONNABORTED, ETIMEDOUT, EHOSTDOWN, EHOSTUNREACH.
const OF_ONE: [i32; 11] = [1, 64, 71, 92, 95, 100, 101, 103, 110, 112, 113];

// Shortage: ENOMEM, ENFILE, EMFILE, ENOBUFS.
const SHORT: [i32; 4] = [12, 23, 24, 105];

// No listener: EBADF, EINVAL, ENOTSOCK.
const OF_LISTENER: [i32; 3] = [9, 22, 88];

// Whether a link comes where so many accepts give this error first, and how many milliseconds were slept meanwhile. None where no
// port is free.
fn accepted(rt: &HostRuntime, error: i32, times: u64) -> Result<Option<(bool, u64)>, Fail> {
    let slept = Arc::new(rt.alloc(), AtomicU64::new(0))?;
    let shaky = Shaky {
        rt: rt.clone()?,
        error,
        times,
        slept: Arc::try_clone(&slept)?,
    };
    let mut listen = TcpListen::new(shaky);
    let Some(port) = start(&mut listen) else {
        return Ok(None);
    };
    let near = TcpDial::new(rt.clone()?).dial("127.0.0.1", port);
    let came = matches!(listen.accept(), Accepted::Link(_));
    drop(near);
    Ok(Some((came, slept.load(Ordering::SeqCst))))
}

#[test]
fn a_connection_that_failed_is_passed_over(rt: HostRuntime) -> Result<(), Fail> {
    for error in OF_ONE {
        assert_eq!(rt; accepted(&rt, error, 3)?, Some((true, 30)));
    }
    assert_eq!(rt; accepted(&rt, 103, 59_999)?, Some((true, 599_990)));
    assert_eq!(rt; accepted(&rt, 103, 60_000)?, Some((false, 600_000)));
    Ok(())
}

#[test]
fn a_shortage_is_waited_for(rt: HostRuntime) -> Result<(), Fail> {
    for error in SHORT {
        assert_eq!(rt; accepted(&rt, error, 3)?, Some((true, 3_000)));
    }
    assert_eq!(rt; accepted(&rt, 24, 600)?, Some((true, 600_000)));
    assert_eq!(rt; accepted(&rt, 24, 601)?, Some((false, 600_000)));
    Ok(())
}

#[test]
fn what_is_no_listener_fails_at_once(rt: HostRuntime) -> Result<(), Fail> {
    for error in OF_LISTENER {
        assert_eq!(rt; accepted(&rt, error, 1)?, Some((false, 0)));
    }
    Ok(())
}
