//! The results of general responses (the standard's).

/// What was asked is done.
pub const SUCCESS: u8 = 0;
/// It failed.
pub const FAILURE: u8 = 1;
/// The message is wrong.
pub const MESSAGE_ERROR: u8 = 2;
/// It is not supported.
pub const NOT_SUPPORTED: u8 = 3;
/// An alarm is handled, which is success too.
pub const ALARM_HANDLED: u8 = 4;
