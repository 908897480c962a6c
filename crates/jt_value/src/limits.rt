//! Limits that more than one layer keeps to, each with its one name.

/// The octets that a body has at most (the standard's header counts them in ten bits).
pub const BODY_LIMIT: usize = 1023;
/// The octets that a content has at most: a header of 21, a body, and the check octet (the standard's).
pub const CONTENT_LIMIT: usize = 21 + BODY_LIMIT + 1;
/// The octets that the frame of such a content has at most: each escaped, between two flags (the standard's).
pub const FRAME_LIMIT: usize = 2 * CONTENT_LIMIT + 2;
/// The octets of answers that one octet of a stream brings at most: two frames (this project's own).
pub const ANSWER_LIMIT: usize = 2 * FRAME_LIMIT;
/// The octets of a code of an authentication at most (this project's own: the edition of 2019 counts them in one octet).
pub const CODE_LIMIT: usize = 255;
/// The octets of a vehicle's plate at most (this project's own).
pub const PLATE_LIMIT: usize = 255;
/// The entries of a list that one octet counts, as parameters, ids and numbers of packets (the standard's).
pub const OCTET_COUNT_LIMIT: usize = 255;
/// The entries of a list that a WORD counts (the standard's).
pub const WORD_COUNT_LIMIT: usize = 65_535;
/// The fixes that a vault may have recorded and not accepted, at most (this project's own).
pub const FIX_LIMIT: u64 = 100_000;
/// The rows that a keeper may have of one phone, at most (this project's own).
pub const ROW_LIMIT: u64 = 1_000_000_000;
/// The octets that are taken from one link or one input at most (this project's own).
pub const INPUT_LIMIT: u64 = 1 << 40;
/// The octets that one read of a link, or of a text of lines, takes at most (this project's own).
pub const READ_LIMIT: usize = 4096;
/// The greatest port of TCP.
pub const PORT_LIMIT: u32 = 65_535;
/// How far the number of a unit is above that of the last accepted unit at most (this project's own).
pub const UNIT_WINDOW: u16 = 32_766;
/// How far a number is above the last one at most where its serial alone tells that it is new (this project's own).
pub const SERIAL_WINDOW: u16 = UNIT_WINDOW + 1;
/// The serial that marks the last accepted unit while there is none: the one before 0 (this project's own).
pub const NO_MARK: u16 = 65_535;
