//! Frames that are written behind others.

ghost use Rattle.std.specs.Prelude.{◌≡◌, ◌≤◌, ◌<◌, ◌+◌, ◌*◌, ◌-◌, ◌^◌, ◌∷◌, [], ◌++◌, length};
ghost use Rattle.jt_value.specs.declared.limits.TheConstants.{FRAME_LIMIT};
ghost use Rattle.jt_escape.specs.Frame.{escaped_octet, framed};
ghost use Rattle.jt_header.specs.Content.{IsHeader, content_of};

use arrayvec::ArrayVec;
use jt_escape::{ESCAPE, ESCAPE_CODE, FLAG, FLAG_CODE, check};
use jt_header::{Header, write_header};
use jt_value::Buffer;

// Puts an octet for which there is room.
fn put(out: &mut Buffer<u8>, octet: u8)
    requires { 0 < out.old.spare }
    ensures items { out.new.items ≡ out.old.items ++ octet ∷ [] }
    ensures spare { out.new.spare ≡ out.old.spare - 1 }
{
    let Ok(()) = out.push(octet) else {
        unreachable!();
    };
}

// Puts what stands for an octet of content, for which there is room.
fn put_escaped(out: &mut Buffer<u8>, octet: u8)
    requires { 2 ≤ out.old.spare }
    ensures items { out.new.items ≡ out.old.items ++ escaped_octet octet }
    ensures spare { out.old.spare ≤ out.new.spare + 2 }
    ensures bound { length out.new.items ≤ length out.old.items + 2 }
{
    match octet {
        FLAG => {
            put(out, ESCAPE);
            put(out, FLAG_CODE);
        }
        ESCAPE => {
            put(out, ESCAPE);
            put(out, ESCAPE_CODE);
        }
        other => put(out, other),
    }
}

// Puts the frame of a content, for which there is room.
fn put_framed(out: &mut Buffer<u8>, content: &[u8])
    requires { 2 * length content.now + 2 ≤ out.old.spare }
    ensures items { out.new.items ≡ out.old.items ++ framed content.now }
    ensures bound { length out.new.items ≤ length out.old.items + 2 * length content.now + 2 }
{
    put(out, FLAG);
    for octet in content {
        put_escaped(out, *octet);
    }
    put(out, FLAG);
}

/// Puts the frame of a header and a body of at most 1,023 octets behind what was written, for which there is room.
pub(crate) fn put_frame(out: &mut Buffer<u8>, header: &Header, body: &[u8])
    requires header { IsHeader header.now }
    requires body { length body.now < 2 ^ 10 }
    requires room { FRAME_LIMIT ≤ out.old.spare }
    ensures items { out.new.items ≡ out.old.items ++ framed (content_of header.now body.now) }
    ensures bound { length out.new.items ≤ length out.old.items + FRAME_LIMIT }
{
    let mut content = ArrayVec::new();
    write_header(header, body.len() as u16, &mut content);
    content.try_extend_from_slice(body).unwrap();
    content.push(check(content.as_slice()));
    put_framed(out, content.as_slice());
}
