use jt_register::{
    Auth, AuthTail, read_auth, read_register, read_register_reply, write_auth, write_register,
    write_register_reply,
};
use jt_value::{CodecError, Edition, Octets, Refusal, Why};
use std::alloc::Global;
use std::process::Abort;

// Province 44, city 300, maker 70111, model A1 and terminal 1234567 in their lengths, colour 2, and a plate with a zero octet.
const REGISTER: [u8; 41] =
    *b"\x00\x2c\x01\x2c70111A1\0\0\0\0\0\0\0\0\0\0\0\0\0\0\0\0\0\01234567\x02\xd4\xc1\0B";

fn refused(inside: u64, why: Why) -> CodecError {
    CodecError::Refused(Refusal { at: 0, inside, why })
}

#[test]
fn a_registration_of_2013(rt: HostRuntime) {
    let register = read_register(rt.alloc(), Edition::E2013, &REGISTER).expect(&rt, "a body");
    assert!(rt; register.province == 44);
    assert!(rt; register.city == 300);
    assert!(rt; register.maker.as_slice() == b"70111".as_slice());
    assert!(rt; register.model.as_slice() == b"A1\0\0\0\0\0\0\0\0\0\0\0\0\0\0\0\0\0\0".as_slice());
    assert!(rt; register.terminal.as_slice() == b"1234567".as_slice());
    assert!(rt; register.colour == 2);
    assert!(rt; register.plate.as_slice() == b"\xd4\xc1\0B".as_slice());
}

#[test]
fn a_registration_is_written_back(rt: HostRuntime) {
    let register = read_register(rt.alloc(), Edition::E2013, &REGISTER).expect(&rt, "a body");
    assert!(rt; register.fits(Edition::E2013));
    let written = write_register(rt.alloc(), Edition::E2013, &register).expect(&rt, "octets");
    assert!(rt; written.as_slice() == REGISTER.as_slice());
}

// Why a registration is refused.
fn refusal_of_register(alloc: Global, octets: &[u8]) -> Option<CodecError> {
    read_register(alloc, Edition::E2013, octets).err()
}

#[test]
fn fields_that_pass_the_end(rt: HostRuntime) {
    let rows: &[(usize, u64)] = &[(3, 2), (8, 4), (28, 9), (35, 29), (36, 36)];
    for &(length, inside) in rows {
        assert!(rt; length <= 41);
        let refusal = refusal_of_register(rt.alloc(), &REGISTER[..length]);
        assert!(rt; refusal == Some(refused(inside, Why::Truncated)));
    }
}

#[test]
fn a_registration_without_a_plate(rt: HostRuntime) {
    let octets = &REGISTER[..37];
    let plateless = read_register(rt.alloc(), Edition::E2013, octets).expect(&rt, "a body");
    assert!(rt; plateless.plate.is_empty());
}

#[test]
fn a_terminal_of_eight_octets_does_not_fit(rt: HostRuntime) {
    let mut register = read_register(rt.alloc(), Edition::E2013, &REGISTER).expect(&rt, "a body");
    let terminal = Vec::from_slice(rt.alloc(), b"12345678").expect(&rt, "octets");
    register.terminal = Octets::from_vec(terminal);
    assert!(rt; !register.fits(Edition::E2013));
}

// Whether a body is read as this answer to question 5, and is written back.
fn is_reply(rt: &impl Abort, alloc: Global, body: &[u8], answer: u8, code: &[u8]) -> bool {
    let reply = read_register_reply(alloc, body).expect(rt, "a body");
    assert!(rt; reply.reply == 5);
    assert!(rt; reply.result == answer);
    assert!(rt; reply.code.as_slice() == code);
    assert!(rt; reply.fits());
    let written = write_register_reply(alloc, &reply).expect(rt, "octets");
    written.as_slice() == body
}

#[test]
fn replies_to_registrations(rt: HostRuntime) {
    let rows: &[(&[u8], u8, &[u8])] = &[
        (b"\0\x05\x03", 3, b""),
        (b"\0\x05\0", 0, b""),
        (b"\0\x05\0A\0", 0, b"A\0"),
    ];
    for &(body, answer, code) in rows {
        assert!(rt; is_reply(&rt, rt.alloc(), body, answer, code));
    }
}

#[test]
fn replies_of_a_wrong_length(rt: HostRuntime) {
    let trailing = read_register_reply(rt.alloc(), b"\0\x05\x03A").err();
    assert!(rt; trailing == Some(refused(3, Why::Trailing)));
    let truncated = read_register_reply(rt.alloc(), b"\0\x05").err();
    assert!(rt; truncated == Some(refused(2, Why::Truncated)));
}

// Whether a body is read as a code without a tail, and is written back.
fn is_code(rt: &impl Abort, alloc: Global, body: &[u8]) -> bool {
    let auth = read_auth(alloc, Edition::E2013, body).expect(rt, "a body");
    assert!(rt; auth.code.as_slice() == body);
    assert!(rt; auth.tail.is_none());
    assert!(rt; auth.fits(Edition::E2013));
    let written = write_auth(alloc, Edition::E2013, &auth).expect(rt, "octets");
    written.as_slice() == body
}

#[test]
fn an_authentication_of_2013(rt: HostRuntime) {
    let bodies: &[&[u8]] = &[b"", b"1234\0x"];
    for body in bodies {
        assert!(rt; is_code(&rt, rt.alloc(), body));
    }
}

#[test]
fn a_tail_does_not_fit_2013(rt: HostRuntime) {
    let tail = AuthTail {
        imei: [b'1'; 15],
        software: [0; 20],
    };
    let auth = Auth {
        code: Octets::new(rt.alloc()),
        tail: Some(tail),
    };
    assert!(rt; !auth.fits(Edition::E2013));
}
