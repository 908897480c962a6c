//! Frames of phone 013912345678, and of the platform to it.

/// A text as order 0: the id, two octets of body, the phone, serial 0, the body, and the check octet.
pub const TEXT: &[u8] = b"\x7e\x83\0\0\x02\x01\x39\x12\x34\x56\x78\0\0\x01A\xf1\x7e";

/// What is answered to it: the response's id, five octets of body, the phone, the order's serial; its serial, its id and result 0.
pub const RESPONSE: &[u8] = b"\x7e\0\x01\0\x05\x01\x39\x12\x34\x56\x78\0\0\0\0\x83\0\0\xb7\x7e";

/// The same text with serial 5, and what is answered: result 1.
pub const LATER_TEXT: &[u8] = b"\x7e\x83\0\0\x02\x01\x39\x12\x34\x56\x78\0\x05\x01A\xf4\x7e";

pub const REFUSAL: &[u8] =
    b"\x7e\0\x01\0\x05\x01\x39\x12\x34\x56\x78\0\x05\0\x05\x83\0\x01\xb6\x7e";

/// The same text with serial 65,535, and what is answered: result 0.
pub const LAST_TEXT: &[u8] = b"\x7e\x83\0\0\x02\x01\x39\x12\x34\x56\x78\xff\xff\x01A\xf1\x7e";

pub const LAST_RESPONSE: &[u8] =
    b"\x7e\0\x01\0\x05\x01\x39\x12\x34\x56\x78\xff\xff\xff\xff\x83\0\0\xb7\x7e";

/// A text of 2019 as order 0: the id, three octets of body, the version, ten octets of phone, serial 0, the body, and the check octet.
pub const TEXT_2019: &[u8] =
    b"\x7e\x83\0\x40\x03\x01\0\0\0\0\x01\x39\x12\x34\x56\x78\0\0\x01\0A\xb1\x7e";

/// What is answered to it, as in 2013 behind such a head.
pub const RESPONSE_2019: &[u8] =
    b"\x7e\0\x01\x40\x05\x01\0\0\0\0\x01\x39\x12\x34\x56\x78\0\0\0\0\x83\0\0\xf6\x7e";

/// The terminal's registration, of serial 0.
pub const REGISTRATION: &[u8] =
    b"\x7e\x01\0\0\x2a\x01\x39\x12\x34\x56\x78\0\0\0\0\0\0\0\0\0\0\0\0\0\0\0\0\0\0\0\0\0\0\0\0\0\0\0\0\0\0\0\x31\x32\x33\x34\x35\x36\x37\x01JT808\x04\x7e";

/// The platform's reply to it, with the code 4142, and the terminal's authentication behind that, of serial 1.
pub const REGISTERED: &[u8] = b"\x7e\x81\0\0\x05\x01\x39\x12\x34\x56\x78\0\0\0\0\0AB\xb7\x7e";

pub const AUTHENTICATION: &[u8] = b"\x7e\x01\x02\0\x02\x01\x39\x12\x34\x56\x78\0\x01AB\x33\x7e";

/// The platform's response to that, and the terminal's unit behind it, of serial 2: a fix at latitude 1.
pub const LET_IN: &[u8] =
    b"\x7e\x80\x01\0\x05\x01\x39\x12\x34\x56\x78\0\x01\0\x01\x01\x02\0\xb7\x7e";

pub const UNIT: &[u8] =
    b"\x7e\x02\0\0\x1c\x01\x39\x12\x34\x56\x78\0\x02\0\0\0\0\0\0\0\x03\0\0\0\x01\x06\xbc\x3e\x40\0\0\0\0\0\0\x24\x01\x01\0\0\0\xce\x7e";

/// The platform's acceptance of the unit.
pub const ACCEPTED: &[u8] =
    b"\x7e\x80\x01\0\x05\x01\x39\x12\x34\x56\x78\0\x02\0\x02\x02\0\0\xb6\x7e";
