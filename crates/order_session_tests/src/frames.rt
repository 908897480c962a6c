//! Frames of phone 333435363738, and of the platform to it.

/// The registration, and the authentication.
pub const START: &[u8] =
    b"\x7e\x01\0\0\x26345678\0\0\0\0\0\0\0\0\0\0\0\0\0\0\0\0\0\0\0\0\0\0\0\0\0\0\0\0\0\0\01\0\0\0\0\0\0\x01A\x5d\x7e\x7e\x01\x02\0\x10345678\0\x01ef797c8118f02dfbD\x7e";

/// What answers both: the code, and result 0.
pub const LET_IN: &[u8] =
    b"\x7e\x81\0\0\x13345678\0\0\0\0\0ef797c8118f02dfb\xc4\x7e\x7e\x80\x01\0\x05345678\0\x01\0\x01\x01\x02\0\x8c\x7e";

/// A text as order 0: the id, two octets of body, the phone, serial 0, the body, and the check octet.
pub const TEXT: &[u8] = b"\x7e\x83\0\0\x02345678\0\0\x01A\xca\x7e";

/// A control as order 1: the id, one octet of body, the phone, serial 1, the body, and the check octet.
pub const CONTROL: &[u8] = b"\x7e\x81\x05\0\x01345678\0\x01\x04\x8b\x7e";

/// The phone's response with result 1 to serial 0 and id 8300.
pub const TO_TEXT: &[u8] = b"\x7e\0\x01\0\x05345678\0\x02\0\0\x83\0\x01\x8f\x7e";

/// The same to serial 1.
pub const TO_OTHER: &[u8] = b"\x7e\0\x01\0\x05345678\0\x02\0\x01\x83\0\x01\x8e\x7e";
