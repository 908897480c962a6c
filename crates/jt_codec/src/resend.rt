//! Requests to send packets again.

ghost use Rattle.std.specs.Prelude.{◌≡◌, ◌==◌, ◌≤◌, ◌↔◌, ◌++◌, length, Some, None, IsTrue, IfOk, MatchResult, OnOk};
ghost use Rattle.jt_layout.specs.Answer.{Answers};
ghost use Rattle.jt_layout.specs.Reading.{Finds, Gives, Judges};
ghost use Rattle.jt_codec.specs.Resend as layouts;

use jt_layout::{Reader, Writer, all_fit};
use jt_value::{CodecError, Edition, Memory, Octets, Refusal, Seq, Why};
use std::alloc::Global;

/// One end asks the other for packets of a message again (the standard's message body of such a request in 2013, and this
/// project's profile of it in 2019).
#[derive(Drop)]
pub struct Resend {
    /// The serial of the message's first packet.
    pub first: u16,
    /// Whether the count has two octets in place of one, which it may have in 2019 alone.
    pub wide: bool,
    /// The numbers of the packets: at most 255 with a count of one octet, at most 65,535 with one of two.
    pub numbers: Seq<u16>,
}

impl Resend {
    /// Whether the edition has octets for the request: its numbers are no more than the count can say, and the count has one
    /// octet in 2013.
    #[tactic(auto, unfolding(crate::specs::Resend::resend, jt_layout::specs::Layout::number))]
    pub fn fits(&self, edition: Edition) -> bool
        ensures { IsTrue result ↔ (layouts.resend edition).Fits self.now }
    {
        // Numbers that are read are known to fit their fields.
        let Resend {
            first,
            wide,
            numbers,
        } = self;
        let _first = *first;
        match (edition, *wide) {
            (_, false) => numbers.len() < 256 && all_fit(numbers.as_slice()),
            (Edition::E2019, true) => numbers.len() < 65_536 && all_fit(numbers.as_slice()),
            (Edition::E2013, true) => false,
        }
    }
}

fn is_wide(edition: Edition, len: usize) -> bool
    ensures { result ≡ layouts.is_wide edition len }
{
    match edition {
        Edition::E2013 => false,
        Edition::E2019 => len % 2 == 0,
    }
}

// Whether the count is that of the numbers behind it.
fn count_holds(wide: bool, octets: &[u8]) -> bool
    requires { layouts.size wide 0 ≤ length octets.now }
    ensures { result ≡ (length octets.now == layouts.size wide (layouts.count_in wide octets.now)) }
{
    if wide {
        let count = u16::from_be_bytes([octets[2], octets[3]]);
        octets.len() == 4 + 2 * count as usize
    } else {
        octets.len() == 3 + 2 * octets[2] as usize
    }
}

fn refusal(inside: u64, why: Why) -> Refusal
    ensures { result ≡ record { at = 0; inside = inside; why = why } }
{
    Refusal { at: 0, inside, why }
}

// The offset of the count.
const COUNT: u64 = 2;

// Whether the octets are a request, or the first reason against them.
#[tactic(auto, unfolding(crate::specs::Resend::reason))]
fn judge(edition: Edition, octets: &[u8]) -> Result<(), Refusal>
    ensures { MatchResult result (λ _. layouts.reason edition octets.now ≡ None)
        (λ refusal. layouts.reason edition octets.now ≡ Some refusal) }
{
    let len = octets.len();
    if len < 2 {
        return Err(refusal(0, Why::Truncated));
    }
    if len == 2 {
        return Err(refusal(COUNT, Why::Truncated));
    }
    if edition == Edition::E2013 && len % 2 == 0 {
        return Err(refusal(COUNT, Why::BadCount));
    }
    if !count_holds(is_wide(edition, len), octets) {
        return Err(refusal(COUNT, Why::BadCount));
    }
    Ok(())
}

fn read_count(reader: &mut Reader<'_>, wide: bool) -> Result<u16, Refusal>
    ensures value { Finds (λ count. (count, reader.new.place)) result
        ((layouts.count wide).read reader.old.octets reader.old.place) }
    ensures octets { reader.new.octets ≡ reader.old.octets }
{
    if wide {
        return reader.word();
    }
    let count = reader.byte()?;
    Ok(count as u16)
}

fn numbers_in(alloc: Global, wide: bool, octets: &[u8]) -> Result<(u16, Seq<u16>), CodecError>
    ensures { Gives (λ fields. fields) result ((layouts.numbered wide).read octets.now 0) }
{
    let mut reader = Reader::new(octets);
    let first = reader.word()?;
    let count = read_count(&mut reader, wide)?;
    let numbers = reader.list(alloc, count as usize)?;
    reader.end()?;
    Ok((first, numbers))
}

#[tactic(auto, unfolding(crate::specs::Resend::resend))]
fn resend_in(alloc: Global, edition: Edition, octets: &[u8]) -> Result<Resend, CodecError>
    ensures { Gives (λ resend. resend) result ((layouts.resend edition).read octets.now 0) }
{
    judge(edition, octets)?;
    let wide = is_wide(edition, octets.len());
    let (first, numbers) = numbers_in(alloc, wide, octets)?;
    Ok(Resend {
        first,
        wide,
        numbers,
    })
}

fn judge_numbers(alloc: Global, wide: bool, octets: &[u8]) -> Result<(), CodecError>
    ensures { Judges result ((layouts.numbered wide).read octets.now 0) }
{
    let mut reader = Reader::new(octets);
    reader.word()?;
    let count = read_count(&mut reader, wide)?;
    reader.pass::<u16>(alloc, count as usize)?;
    Ok(reader.end()?)
}

// Judges a request to send packets again: the refusal is that of `read_resend`, and no list is made.
#[tactic(auto, unfolding(crate::specs::Resend::resend))]
pub(crate) fn judge_resend(alloc: Global, edition: Edition, octets: &[u8]) -> Result<(), CodecError>
    ensures { Judges result ((layouts.resend edition).read octets.now 0) }
{
    judge(edition, octets)?;
    judge_numbers(alloc, is_wide(edition, octets.len()), octets)
}

// A request to send packets again.
pub(crate) fn read_resend(
    alloc: Global,
    edition: Edition,
    octets: &[u8],
) -> Result<Resend, CodecError>
    ensures { Answers (layouts.resend edition) octets.now result }
{
    resend_in(alloc, edition, octets)
}

#[tactic(auto, unfolding(jt_layout::specs::Layout::number))]
fn write_count(writer: &mut Writer, wide: bool, count: u16) -> Result<(), Memory>
    requires { (layouts.count wide).Fits count }
    ensures { OnOk result (writer.new ≡ writer.old ++ (layouts.count wide).spell count) }
{
    if wide {
        writer.word(count)
    } else {
        writer.byte(count as u8)
    }
}

#[tactic(auto, using(std::proofs::Common::append_assoc), unfolding(crate::specs::Resend::resend, jt_layout::specs::Layout::number))]
pub(crate) fn write_resend(
    alloc: Global,
    edition: Edition,
    resend: &Resend,
) -> Result<Octets, Memory>
    requires { (layouts.resend edition).Fits resend.now }
    ensures { IfOk result (λ octets. octets ≡ (layouts.resend edition).spell resend.now) }
{
    let mut writer = Writer::new(alloc);
    writer.word(resend.first)?;
    write_count(&mut writer, resend.wide, resend.numbers.len() as u16)?;
    writer.list(alloc, resend.numbers.as_slice())?;
    Ok(writer.finish())
}
