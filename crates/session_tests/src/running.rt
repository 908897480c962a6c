//! A session that is fed over a hub of its own.

ghost use Rattle.std.specs.Prelude.{◌≡◌, ◌≤◌, ◌<◌, ◌+◌, ◌^◌, false, None, length};

use jt_platform::{Entry, Fleet, Hub, Reply, Request, is_closed};
use jt_session::{Counts, End, Fed, Session};
use jt_store::{Keeper, MemKeeper};
use jt_value::{Buffer, Edition, Memory, Octets, Phone, Seq};
use std::alloc::Global;
use std::process::Abort;

/// How the last piece was taken, what the session wrote, a letter for each entry's reply, the entries in full, the body of the
/// last entry's unit, and what the session counted.
#[derive(Drop)]
pub struct Ran {
    pub fed: Fed,
    pub written: Buffer<u8>,
    pub replies: Buffer<u8>,
    pub entries: Buffer<u8>,
    pub body: Buffer<u8>,
    pub counts: Counts,
}

/// What a session leaves of whose keeper a call failed: what came of it, and what the keeper has of phone 333435363738 then.
#[derive(Drop)]
pub struct Left {
    pub ran: Ran,
    pub is_registered: bool,
    pub last: Option<u64>,
}

/// The most octets that a session is fed here at once.
const MOST: usize = 100_000;

fn octets(alloc: Global, octets: &[u8]) -> Result<Octets, Memory> {
    Ok(Octets::from_vec(Vec::from_slice(alloc, octets)?))
}

fn list(alloc: Global, octet: u8) -> Result<Seq<Octets>, Memory> {
    let octets = octets(alloc, &[octet])?;
    let mut list = Seq::new(alloc);
    list.push(octets)?;
    Ok(list)
}

fn fleet(alloc: Global) -> Result<Fleet, Memory> {
    let plates = list(alloc, b'A')?;
    let terminals = list(alloc, b'1')?;
    Ok(Fleet { plates, terminals })
}

fn keeper(alloc: Global, limit: u64, failing: &[u64]) -> Result<MemKeeper, Memory>
    requires { limit ≤ 1000000000 }
{
    let failing = Seq::from_vec(Vec::from_slice(alloc, failing)?);
    Ok(MemKeeper::new(alloc, limit, failing))
}

// A hub over an empty keeper with this limit, which fails the calls of these numbers. Its fleet has the plate `A` and the
// terminal id `1`, and its secret is 3132.
fn hub(rt: &impl Abort, alloc: Global, limit: u64, failing: &[u64]) -> Hub<MemKeeper>
    requires { limit ≤ 1000000000 }
    ensures { result.reserved ≡ 2 }
{
    let fleet = fleet(alloc).expect(rt, "there is memory");
    let keeper = keeper(alloc, limit, failing).expect(rt, "there is memory");
    let secret = octets(alloc, b"12").expect(rt, "there is memory");
    let mut hub = Hub::start(alloc, keeper, fleet, secret)
        .ok()
        .expect(rt, "there is memory");
    hub.reserve(2).expect(rt, "there is memory");
    hub
}

fn letter(reply: &Reply) -> u8 {
    match reply {
        Reply::Registered(_) => b'R',
        Reply::Denied(_) => b'D',
        Reply::Accepted => b'A',
        Reply::Stored(_) => b'S',
        Reply::Repeat(_) => b'P',
        Reply::Renumbered(_) => b'N',
        Reply::NotLive => b'L',
        Reply::Fenced(_) => b'F',
        Reply::ListFull(_) | Reply::StoreFault | Reply::Memory => b'?',
    }
}

// A letter for each entry's reply.
fn letters(alloc: Global, history: &[Entry]) -> Result<Buffer<u8>, Memory> {
    let mut letters = Buffer::new(alloc);
    for entry in history {
        letters.push(letter(&entry.reply))?;
    }
    Ok(letters)
}

fn push_all(text: &mut Buffer<u8>, octets: &[u8]) -> Result<(), Memory> {
    for octet in octets {
        text.push(*octet)?;
    }
    Ok(())
}

// A letter, the digits of the phone, and what it brings.
fn push_asked(
    text: &mut Buffer<u8>,
    letter: u8,
    phone: &Phone,
    octets: &[u8],
) -> Result<(), Memory> {
    text.push(letter)?;
    push_all(text, &phone.digits)?;
    push_all(text, octets)
}

fn push_unit(
    text: &mut Buffer<u8>,
    phone: &Phone,
    serial: u16,
    id: u16,
    body: &[u8],
) -> Result<(), Memory> {
    push_asked(text, b'U', phone, &serial.to_be_bytes())?;
    push_all(text, &id.to_be_bytes())?;
    push_all(text, body)
}

fn push_request(text: &mut Buffer<u8>, request: &Request) -> Result<(), Memory> {
    match request {
        Request::Register { phone, register } => {
            push_asked(text, b'R', phone, register.plate.as_slice())
        }
        Request::Auth { phone, code } => push_asked(text, b'A', phone, code.as_slice()),
        Request::Unit {
            phone,
            serial,
            id,
            body,
        } => push_unit(text, phone, *serial, *id, body.as_slice()),
        Request::Deregister { phone } => push_asked(text, b'D', phone, &[]),
        Request::Other { phone, id } => push_asked(text, b'O', phone, &id.to_be_bytes()),
        Request::Close => text.push(b'C'),
    }
}

// The letter of a reply, and the code or the number that it has.
fn push_reply(text: &mut Buffer<u8>, reply: &Reply) -> Result<(), Memory> {
    text.push(letter(reply))?;
    match reply {
        Reply::Registered(code) => push_all(text, code.as_slice()),
        Reply::Stored(number) | Reply::Repeat(number) | Reply::Renumbered(number) => {
            push_all(text, &number.to_be_bytes())
        }
        _ => Ok(()),
    }
}

// Each entry's request and reply in full.
fn spelled(alloc: Global, history: &[Entry]) -> Result<Buffer<u8>, Memory> {
    let mut text = Buffer::new(alloc);
    for entry in history {
        push_request(&mut text, &entry.request)?;
        push_reply(&mut text, &entry.reply)?;
    }
    Ok(text)
}

// Feeds a session. One that is closed is told that it ended.
fn feed(session: &mut Session, hub: &mut Hub<MemKeeper>, octets: &[u8], out: &mut Buffer<u8>) -> Fed
    requires waits { session.old.waiting ≡ None }
    requires on { session.old.over ≡ false }
    requires short { session.old.stream.place + length octets.now < 2 ^ 63 }
    ensures on { result ≡ Fed.On → session.new.over ≡ false }
    ensures waits { session.new.waiting ≡ None }
    ensures place { session.new.stream.place ≤ session.old.stream.place + length octets.now }
    ensures reserved { hub.new.reserved ≡ hub.old.reserved }
{
    if is_closed(hub.history(), session.number()) {
        return Fed::Stop(End::Ended);
    }
    session.feed(hub, octets, out)
}

// Closes a session that is not closed yet, where the memory for its Close is there.
fn close(session: &mut Session, hub: &mut Hub<MemKeeper>)
    requires reserved { hub.old.reserved ≡ 2 }
    ensures same { session.new ≡ session.old }
{
    let number = session.number();
    if 1 <= number && number <= 2 && !is_closed(hub.history(), number) {
        session.close(hub);
    }
}

// Feeds a session that goes on, and leaves out what it wrote.
fn feed_apart(
    rt: &impl Abort,
    alloc: Global,
    session: &mut Session,
    hub: &mut Hub<MemKeeper>,
    stream: &[u8],
)
    requires waits { session.old.waiting ≡ None }
    requires on { session.old.over ≡ false }
    requires short { session.old.stream.place + length stream.now < 2 ^ 63 }
    ensures waits { session.new.waiting ≡ None }
    ensures on { session.new.over ≡ false }
    ensures place { session.new.stream.place ≤ session.old.stream.place + length stream.now }
    ensures reserved { hub.new.reserved ≡ hub.old.reserved }
{
    let mut apart = Buffer::new(alloc);
    let fed = feed(session, hub, stream, &mut apart);
    assert!(rt; fed == Fed::On);
}

// Feeds a session that goes on a stream in two pieces. It goes on between them.
fn feed_both(
    rt: &impl Abort,
    session: &mut Session,
    hub: &mut Hub<MemKeeper>,
    stream: &[u8],
    cut: usize,
    out: &mut Buffer<u8>,
) -> Fed
    requires waits { session.old.waiting ≡ None }
    requires on { session.old.over ≡ false }
    requires cut { cut ≤ length stream.now }
    requires short { session.old.stream.place + length stream.now < 2 ^ 63 }
    ensures waits { session.new.waiting ≡ None }
    ensures reserved { hub.new.reserved ≡ hub.old.reserved }
{
    let first = feed(session, hub, &stream[..cut], out);
    assert!(rt; first == Fed::On);
    feed(session, hub, &stream[cut..], out)
}

// The body of the last entry's unit.
fn last_body(history: &[Entry]) -> &[u8] {
    match history.last() {
        Some(
            Entry {
                request: Request::Unit { body, .. },
                ..
            },
        ) => body.as_slice(),
        _ => &[],
    }
}

fn copied(alloc: Global, octets: &[u8]) -> Result<Buffer<u8>, Memory> {
    let mut copied = Buffer::new(alloc);
    push_all(&mut copied, octets)?;
    Ok(copied)
}

// What came of it.
fn told(
    rt: &impl Abort,
    alloc: Global,
    fed: Fed,
    written: Buffer<u8>,
    history: &[Entry],
    counts: Counts,
) -> Ran {
    Ran {
        fed,
        written,
        replies: letters(alloc, history).expect(rt, "there is memory"),
        entries: spelled(alloc, history).expect(rt, "there is memory"),
        body: copied(alloc, last_body(history)).expect(rt, "there is memory"),
        counts,
    }
}

// Feeds the first session the octets before, the second one others, and the first one the stream in two pieces, and closes it
// if it is to be closed. What was written of the octets before and of the others is left out.
fn play(
    rt: &impl Abort,
    alloc: Global,
    hub: &mut Hub<MemKeeper>,
    first: &mut Session,
    second: &mut Session,
    before: &[u8],
    others: &[u8],
    stream: &[u8],
    cut: usize,
    closes: bool,
) -> Ran
    requires reserved { hub.old.reserved ≡ 2 }
    requires first { (first.old.waiting ≡ None) × (first.old.over ≡ false)
        × (first.old.stream.place ≡ 0) }
    requires second { (second.old.waiting ≡ None) × (second.old.over ≡ false)
        × (second.old.stream.place ≡ 0) }
    requires cut { cut ≤ length stream.now }
    requires short { (length before.now ≤ 100000) × (length others.now ≤ 100000)
        × (length stream.now ≤ 100000) }
{
    let mut written = Buffer::new(alloc);
    feed_apart(rt, alloc, first, hub, before);
    feed_apart(rt, alloc, second, hub, others);
    let fed = feed_both(rt, first, hub, stream, cut, &mut written);
    if closes {
        close(first, hub);
    }
    told(rt, alloc, fed, written, hub.history(), first.counts())
}

/// Two sessions over a hub with this limit, which fails the calls of these numbers. The first session is fed the octets before,
/// the second one others, and the first one the stream in two pieces. It is closed then, if it is to be. What was written of the
/// octets before and of the others is left out.
pub fn run(
    rt: &impl Abort,
    alloc: Global,
    limit: u64,
    failing: &[u64],
    before: &[u8],
    others: &[u8],
    stream: &[u8],
    cut: usize,
    closes: bool,
) -> Ran
    requires { limit ≤ 1000000000 }
{
    assert!(rt; before.len() <= MOST);
    assert!(rt; others.len() <= MOST);
    assert!(rt; stream.len() <= MOST);
    assert!(rt; cut <= stream.len());
    let mut hub = hub(rt, alloc, limit, failing);
    let mut first = Session::new(alloc, 1).expect(rt, "there is memory");
    let mut second = Session::new(alloc, 2).expect(rt, "there is memory");
    play(
        rt,
        alloc,
        &mut hub,
        &mut first,
        &mut second,
        before,
        others,
        stream,
        cut,
        closes,
    )
}

/// What one session that goes on tells of the octets before and the stream, and is closed then.
pub fn run_closed(rt: &impl Abort, alloc: Global, before: &[u8], stream: &[u8], cut: usize) -> Ran {
    let ran = run(rt, alloc, 10, &[], before, &[], stream, cut, true);
    assert!(rt; ran.fed == Fed::On);
    ran
}

// Whether the phone is registered, and the number of its last row.
fn kept(
    rt: &impl Abort,
    alloc: Global,
    keeper: &mut MemKeeper,
    phone: &Phone,
) -> (bool, Option<u64>) {
    let registered = keeper
        .registered(alloc, phone)
        .expect(rt, "no other call fails");
    let last = keeper.last(alloc, phone).expect(rt, "no other call fails");
    (registered.is_some(), last)
}

/// One session that is fed the stream and closed then, over a hub whose keeper fails the call of this number.
pub fn run_failing(rt: &impl Abort, alloc: Global, failing: u64, stream: &[u8]) -> Left {
    assert!(rt; stream.len() <= MOST);
    let mut hub = hub(rt, alloc, 10, &[failing]);
    let mut first = Session::new(alloc, 1).expect(rt, "there is memory");
    let mut second = Session::new(alloc, 2).expect(rt, "there is memory");
    let ran = play(
        rt,
        alloc,
        &mut hub,
        &mut first,
        &mut second,
        &[],
        &[],
        stream,
        0,
        true,
    );
    let (mut keeper, _) = hub.into_parts();
    let phone = Phone {
        edition: Edition::E2013,
        digits: [0, 0, 0, 0, 0x33, 0x34, 0x35, 0x36, 0x37, 0x38],
    };
    let (is_registered, last) = kept(rt, alloc, &mut keeper, &phone);
    Left {
        ran,
        is_registered,
        last,
    }
}
