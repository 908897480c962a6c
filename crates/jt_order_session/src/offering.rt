//! Orders as frames.

ghost use Rattle.std.specs.Prelude.{◌≡◌, ◌<◌, ◌≤◌, ◌^◌, ◌++◌, length, OnErr, OnOk};
ghost use Rattle.jt_header.specs.Content.{IsHeader};
ghost use Rattle.jt_order.specs.Orders.{IsOrder};
ghost use Rattle.jt_order_turns.specs.Headers.{order_frame, order_header};
ghost use Rattle.jt_terminal_rule.specs.Messages.{frame_of};

use arrayvec::ArrayVec;
use jt_codec::frame_into;
use jt_header::Header;
use jt_order::{Order, serial_of};
use jt_value::{Buffer, Memory};

// Puts octets for which there is room.
fn put_all(out: &mut Buffer<u8>, octets: &[u8])
    requires { length octets.now ≤ out.old.spare }
    ensures { out.new.items ≡ out.old.items ++ octets.now }
{
    for octet in octets {
        let Ok(()) = out.push(*octet) else {
            unreachable!();
        };
    }
}

// Puts a frame behind what was written. After want of memory nothing is written.
#[tactic(auto, unfolding(jt_terminal_rule::specs::Messages::frame_of))]
fn write_frame(out: &mut Buffer<u8>, header: &Header, body: &[u8]) -> Result<(), Memory>
    requires header { IsHeader header.now }
    requires body { length body.now < 2 ^ 10 }
    ensures ok { OnOk result
        (out.new.items ≡ out.old.items ++ frame_of header.now body.now) }
    ensures err { OnErr result (out.new.items ≡ out.old.items) }
{
    let mut frame = ArrayVec::new();
    frame_into(header, body, &mut frame);
    out.reserve(frame.len() as u64)?;
    put_all(out, frame.as_slice());
    Ok(())
}

// The header of the order of a number, on a session whose first frame had this one.
fn header_of(first: &Header, number: u64, order: &Order) -> Header
    requires { IsHeader first.now }
    ensures header { result ≡ order_header first.now number order.now }
    ensures good { IsHeader result }
{
    Header {
        edition: first.edition,
        id: order.id(),
        bit15: false,
        version: first.version,
        phone: first.phone,
        serial: serial_of(number),
        packet: None,
    }
}

/// Puts the order of a number behind what was written, on a session whose first frame had this header. After want of memory
/// nothing is written.
pub(crate) fn write_order(
    out: &mut Buffer<u8>,
    first: &Header,
    number: u64,
    order: &Order,
) -> Result<(), Memory>
    requires { IsHeader first.now }
    ensures ok { OnOk result (out.new.items ≡ out.old.items
        ++ order_frame first.now number order.now) }
    ensures err { OnErr result (out.new.items ≡ out.old.items) }
    ensures order { IsOrder order.now }
{
    let header = header_of(first, number, order);
    write_frame(out, &header, order.body())
}
