//! Frames read: what each asks, and what is written where it asks nothing.

ghost use Rattle.std.specs.Prelude.{◌≡◌, ◌≤◌, ◌<◌, ◌+◌, ◌^◌, ◌++◌, None, Some, IsSome, IsTrue, length, take};
ghost use Rattle.jt_value.specs.declared.limits.TheConstants.{OCTET_COUNT_LIMIT};
ghost use Rattle.jt_header.specs.Content.{IsHeader};
ghost use Rattle.jt_header.specs.Fields.{header_at, body_at};
ghost use Rattle.jt_codec.specs.Bodies.{body_octets};
ghost use Rattle.jt_codec.specs.declared.message.Message.TheVariants as message;
ghost use Rattle.jt_layout.specs.Layout.{word};
ghost use Rattle.jt_codec.specs.Resend.{count as count_part};
ghost use Rattle.jt_stream.specs.Unplaced.{Message as Frame};
ghost use Rattle.jt_subpacket.specs.Fates.{taken_by};
ghost use Rattle.jt_session.specs.Talk.{answers_packet, asked_by, first_phone, frame_said, message_of, one_if, own_turn_without_request, reads_on, refuses, state_at_want};
ghost use Rattle.jt_session.specs.Talk as talk;
ghost use Rattle.jt_session.specs.Reading.{AreBelow, CameTo, FrameCame, IsOneMore, OctetsCame, whole_message, takes_in};

use crate::kept::Kept;
use crate::request::request_of;
use crate::step::Came;
use arrayvec::ArrayVec;
use jt_header::Header;
use jt_stream::{Stream, StreamItem, law_items, law_one_list};
use jt_subpacket::{Fate, PartKey, Taken};
use jt_value::ids::RESEND;
use jt_value::limits::{BODY_LIMIT, FRAME_LIMIT};
use jt_value::results::{FAILURE, MESSAGE_ERROR};
use jt_value::{Buffer, Edition, Memory, Phone};
use std::alloc::Global;

/// The most octets of a frame (the standard's framing).
const MOST_IN_A_FRAME: u64 = FRAME_LIMIT as u64;

// Puts a number of two octets.
#[tactic(auto, unfolding(jt_layout::specs::Layout::number))]
fn put_word(body: &mut ArrayVec<u8, BODY_LIMIT>, number: u16)
    requires { length body.old.items ≤ 1021 }
    ensures octets { body.new.items ≡ body.old.items ++ word.spell number }
    ensures len { length body.new.items ≡ length body.old.items + 2 }
{
    body.try_extend_from_slice(&number.to_be_bytes()).unwrap();
}

// The serial of the first packet, and how many are asked for: in one octet to 2013, and in two to 2019.
#[tactic(auto, unfolding(jt_layout::specs::Layout::number))]
fn resend_front(edition: Edition, first: u16, count: u16) -> ArrayVec<u8, BODY_LIMIT>
    requires { count ≤ OCTET_COUNT_LIMIT }
    ensures octets { result.items
        ≡ word.spell first ++ (count_part (talk.is_wide edition)).spell count }
    ensures short { length result.items ≤ 4 }
{
    let mut front = ArrayVec::new();
    put_word(&mut front, first);
    match edition {
        Edition::E2013 => {
            front.push(count as u8);
            front
        }
        Edition::E2019 => {
            put_word(&mut front, count);
            front
        }
    }
}

// The body of a request to send packets again.
fn resend_body(edition: Edition, first: u16, missing: &[u16]) -> ArrayVec<u8, BODY_LIMIT>
    requires { length missing.now ≤ OCTET_COUNT_LIMIT }
    ensures octets { result.items ≡ body_octets edition (message.Resend
        (record { first = first; wide = talk.is_wide edition; numbers = missing.now })) }
    ensures short { length result.items < 2 ^ 10 }
{
    let mut body = resend_front(edition, first, missing.len() as u16);
    for number in missing {
        put_word(&mut body, *number);
    }
    body
}

impl Kept {
    fn is_own(&self, phone: &Phone) -> bool
        ensures { result ≡ talk.is_own self.now.phone phone.now }
    {
        match &self.phone {
            None => true,
            Some(own) => own.same(phone),
        }
    }

    // Counts a frame of the session's own phone.
    fn note(&mut self, header: &Header)
        requires { self.old.frames < 2 ^ 63 }
        ensures { self.new ≡ record self.old {
          phone = first_phone self.old.phone header.now.phone;
          frames = self.old.frames + 1;
        } }
    {
        self.frames += 1;
        if self.phone.is_none() {
            self.phone = Some(header.phone);
        }
    }

    fn count_dropped(&mut self, dropped: Option<PartKey>)
        requires { self.old.dropped < 2 ^ 63 }
        ensures { self.new ≡ record self.old { dropped = self.old.dropped + one_if dropped } }
    {
        if dropped.is_some() {
            self.dropped += 1;
        }
    }

    // Counts a refused body, and answers it.
    fn refuse(&mut self, header: &Header, out: &mut Buffer<u8>)
        requires few { self.old.refused < 2 ^ 63 }
        requires header { IsHeader header.now }
        requires room { FRAME_LIMIT ≤ out.old.spare }
        ensures state { self.new ≡ (refuses self.old header.now).state }
        ensures out { out.new.items
            ≡ out.old.items ++ frame_said (refuses self.old header.now).says }
        ensures bound { length out.new.items ≤ length out.old.items + FRAME_LIMIT }
    {
        self.refused += 1;
        self.acknowledge(header, MESSAGE_ERROR, out);
    }

    // Goes on with a whole message. A partial one may have been dropped for it.
    fn take_message(
        &mut self,
        alloc: Global,
        header: &Header,
        body: &[u8],
        dropped: Option<PartKey>,
        out: &mut Buffer<u8>,
    ) -> Came
        requires few { (self.old.refused < 2 ^ 63) × (self.old.dropped < 2 ^ 63) }
        requires header { IsHeader header.now }
        requires whole { header.now.packet ≡ None }
        requires room { FRAME_LIMIT ≤ out.old.spare }
        ensures came { CameTo (asked_by (Some (header.now, body.now))) (Some (header.now, body.now))
            (record self.old { dropped = self.old.dropped + one_if dropped })
            (refuses (record self.old { dropped = self.old.dropped + one_if dropped }) header.now)
            self.old self.new out.old.items out.new.items out.new.spare result }
        ensures few { IsOneMore (record self.old { frames = self.new.frames }) self.new }
        ensures frames { self.new.frames ≡ self.old.frames }
        ensures bound { length out.new.items ≤ length out.old.items + FRAME_LIMIT }
    {
        match request_of(alloc, header, body) {
            Ok(Some(request)) => {
                self.count_dropped(dropped);
                Came::Asks(*header, request)
            }
            Ok(None) => {
                self.count_dropped(dropped);
                self.refuse(header, out);
                Came::Quiet
            }
            Err(Memory) => Came::Memory,
        }
    }

    // Takes a packet of the session's own phone.
    fn take_packet(
        &mut self,
        alloc: Global,
        header: &Header,
        body: &[u8],
        out: &mut Buffer<u8>,
    ) -> Came
        requires few { (self.old.refused < 2 ^ 63) × (self.old.dropped < 2 ^ 63) }
        requires header { IsHeader header.now }
        requires some { IsSome header.now.packet }
        requires short { length body.now ≤ BODY_LIMIT }
        requires room { FRAME_LIMIT ≤ out.old.spare }
        ensures came { CameTo (asked_by (whole_message self.old header.now body.now))
            (whole_message self.old header.now body.now) (takes_in self.old header.now body.now)
            (answers_packet (takes_in self.old header.now body.now) header.now
            (taken_by self.old.partial header.now body.now).fate)
            self.old self.new out.old.items out.new.items out.new.spare result }
        ensures few { IsOneMore (record self.old { frames = self.new.frames }) self.new }
        ensures frames { self.new.frames ≡ self.old.frames }
        ensures bound { length out.new.items ≤ length out.old.items + FRAME_LIMIT }
    {
        let Ok(taken) = self.assembler.take(header, body) else {
            return Came::Memory;
        };
        let Taken { dropped, fate } = taken;
        match fate {
            Fate::Whole { id, serial, body } => {
                let message = Header {
                    id,
                    serial,
                    packet: None,
                    ..*header
                };
                self.take_message(alloc, &message, body.as_slice(), dropped, out)
            }
            Fate::TooMany(_) => {
                self.count_dropped(dropped);
                self.acknowledge(header, MESSAGE_ERROR, out);
                Came::Quiet
            }
            Fate::Resend { first, missing } => {
                let body = resend_body(header.edition, first, missing.as_slice());
                self.count_dropped(dropped);
                self.say(header, RESEND, body.as_slice(), out);
                Came::Quiet
            }
            Fate::Repeat | Fate::Kept => {
                self.count_dropped(dropped);
                Came::Quiet
            }
        }
    }

    // Takes a frame of the session's own phone.
    fn take_own(
        &mut self,
        alloc: Global,
        header: &Header,
        body: &[u8],
        out: &mut Buffer<u8>,
    ) -> Came
        requires few { AreBelow (2 ^ 63) self.old }
        requires header { IsHeader header.now }
        requires short { length body.now ≤ BODY_LIMIT }
        requires room { FRAME_LIMIT ≤ out.old.spare }
        ensures came { CameTo (asked_by (message_of self.old header.now body.now header.now.packet))
            (message_of self.old header.now body.now header.now.packet)
            (reads_on self.old header.now body.now header.now.packet)
            (own_turn_without_request self.old header.now body.now header.now.packet)
            (state_at_want self.old (Frame header.now body.now)) self.new
            out.old.items out.new.items out.new.spare result }
        ensures few { IsOneMore self.old self.new }
        ensures bound { length out.new.items ≤ length out.old.items + FRAME_LIMIT }
    {
        self.note(header);
        match header.packet {
            None => self.take_message(alloc, header, body, None, out),
            Some(_) => self.take_packet(alloc, header, body, out),
        }
    }

    // Takes a frame: one of another phone is turned away.
    fn take_frame(
        &mut self,
        alloc: Global,
        header: &Header,
        body: &[u8],
        out: &mut Buffer<u8>,
    ) -> Came
        requires few { AreBelow (2 ^ 63) self.old }
        requires header { IsHeader header.now }
        requires short { length body.now ≤ BODY_LIMIT }
        requires room { FRAME_LIMIT ≤ out.old.spare }
        ensures came { FrameCame self.old self.new header.now body.now out.old.items out.new.items
            out.new.spare result }
        ensures few { IsOneMore self.old self.new }
        ensures bound { length out.new.items ≤ length out.old.items + FRAME_LIMIT }
    {
        if self.is_own(&header.phone) {
            return self.take_own(alloc, header, body, out);
        }
        self.frames += 1;
        self.acknowledge(header, FAILURE, out);
        Came::Quiet
    }
}

// Takes the stream's last frame. Room for any answer comes first.
fn read_frame(alloc: Global, stream: &Stream, kept: &mut Kept, out: &mut Buffer<u8>) -> Came
    requires few { AreBelow (2 ^ 63) kept.old }
    requires found { IsTrue stream.now.found }
    ensures came { FrameCame kept.old kept.new (header_at stream.now.splitter.content)
        (body_at stream.now.splitter.content) out.old.items out.new.items out.new.spare result }
    ensures few { IsOneMore kept.old kept.new }
    ensures bound { length out.new.items ≤ length out.old.items + FRAME_LIMIT }
{
    let Some((_, header, body)) = stream.frame() else {
        unreachable!();
    };
    let Ok(()) = out.reserve(MOST_IN_A_FRAME) else {
        kept.frames += 1;
        return Came::Memory;
    };
    kept.take_frame(alloc, &header, body, out)
}

/// Takes octets up to the first that completes an item, or all.
pub(crate) fn read_item(
    alloc: Global,
    stream: &mut Stream,
    kept: &mut Kept,
    octets: &[u8],
    out: &mut Buffer<u8>,
) -> (usize, Came)
    requires some { 0 < length octets.now }
    requires short { stream.old.splitter.place + length octets.now < 2 ^ 63 }
    requires few { AreBelow (2 ^ 63) kept.old }
    ensures taken { result.0 ≤ length octets.now }
    ensures some { 0 < result.0 }
    ensures place { stream.new.splitter.place ≡ stream.old.splitter.place + result.0 }
    ensures came { OctetsCame stream.old.splitter stream.new.splitter (take result.0 octets.now)
        kept.old kept.new out.old.items out.new.items out.new.spare result.1 }
    ensures few { IsOneMore kept.old kept.new }
    ensures bound { length out.new.items ≤ length out.old.items + FRAME_LIMIT }
{
    law_one_list();
    law_items();
    let (count, item) = stream.take(octets);
    match item {
        StreamItem::More => (count, Came::Quiet),
        StreamItem::Refused(_) => {
            kept.refused += 1;
            (count, Came::Quiet)
        }
        StreamItem::Frame => (count, read_frame(alloc, stream, kept, out)),
    }
}
