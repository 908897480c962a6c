//! The ids of messages, each with its one name (the standard's message bodies).

/// The terminal's general response.
pub const TERMINAL_ACK: u16 = 0x0001;
/// The platform's general response.
pub const PLATFORM_ACK: u16 = 0x8001;
/// A heartbeat.
pub const HEARTBEAT: u16 = 0x0002;
/// A terminal's deregistration.
pub const DEREGISTER: u16 = 0x0003;
/// A terminal's request for packets, in 2019 alone.
pub const TERMINAL_RESEND: u16 = 0x0005;
/// A platform's request for packets.
pub const RESEND: u16 = 0x8003;
/// A registration.
pub const REGISTER: u16 = 0x0100;
/// The response to a registration.
pub const REGISTER_REPLY: u16 = 0x8100;
/// An authentication.
pub const AUTH: u16 = 0x0102;
/// Sets parameters.
pub const SET_PARAMS: u16 = 0x8103;
/// Asks for all parameters.
pub const QUERY_PARAMS: u16 = 0x8104;
/// Asks for some parameters.
pub const QUERY_SOME: u16 = 0x8106;
/// The response with parameters.
pub const PARAMS: u16 = 0x0104;
/// A position.
pub const POSITION: u16 = 0x0200;
/// The response with a position.
pub const POSITION_REPLY: u16 = 0x0201;
/// Asks for a position.
pub const QUERY_POSITION: u16 = 0x8201;
/// Asks for positions for a time.
pub const TRACK: u16 = 0x8202;
/// Positions together.
pub const BATCH: u16 = 0x0704;
/// A text for the driver.
pub const TEXT: u16 = 0x8300;
/// Controls the terminal.
pub const CONTROL: u16 = 0x8105;
/// Sets circles.
pub const CIRCLES: u16 = 0x8600;
/// Sets rectangles.
pub const RECTANGLES: u16 = 0x8602;
/// Sets a polygon.
pub const POLYGON: u16 = 0x8604;
/// Sets a route.
pub const ROUTE: u16 = 0x8606;
/// Deletes circles.
pub const DELETE_CIRCLES: u16 = 0x8601;
/// Deletes rectangles.
pub const DELETE_RECTANGLES: u16 = 0x8603;
/// Deletes polygons.
pub const DELETE_POLYGONS: u16 = 0x8605;
/// Deletes routes.
pub const DELETE_ROUTES: u16 = 0x8607;
