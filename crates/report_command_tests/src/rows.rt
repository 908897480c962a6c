use crate::scene::{
    ANSWERS, ANSWERS_2019, FIX, REFUSAL, SENT, SENT_2019, Scene, TWO_TRIES, WORDS, WORDS_2019,
    calm, tells, tells_again,
};
use jt_input::Status;
use std::alloc::Global;
use std::process::Abort;
use std::test::Fail;

// The registration alone, which is the first of what is sent.
const REGISTRATION: usize = 57;

// Of one fix: the words, what the link gives, the number of the dial that fails; what is printed, the status, and what was
// written to the link that came back.
#[test]
fn attempts_are_told(rt: HostRuntime) {
    let registration = &SENT[..REGISTRATION];
    let rows: &[(&str, Option<&[u8]>, u64, &[u8], Status, Option<&[u8]>)] = &[
        (
            WORDS,
            Some(ANSWERS),
            0,
            b"accepted=1 of 1\n",
            Status::Done,
            Some(SENT),
        ),
        (
            WORDS_2019,
            Some(ANSWERS_2019),
            0,
            b"accepted=1 of 1\n",
            Status::Done,
            Some(SENT_2019),
        ),
        (
            TWO_TRIES,
            None,
            0,
            b"try 1 dial\ntry 2 dial\naccepted=0 of 1\n",
            Status::Unsent,
            None,
        ),
        (
            TWO_TRIES,
            Some(ANSWERS),
            1,
            b"try 1 dial\naccepted=1 of 1\n",
            Status::Done,
            Some(SENT),
        ),
        (
            TWO_TRIES,
            Some(b""),
            0,
            b"try 1 end\ntry 2 dial\naccepted=0 of 1\n",
            Status::Unsent,
            Some(registration),
        ),
        (
            WORDS,
            Some(REFUSAL),
            0,
            b"try 1 denied 000001\naccepted=0 of 1\n",
            Status::Unsent,
            Some(registration),
        ),
    ];
    for (words, octets, dial_fails, printed, status, written) in rows {
        let scene = Scene {
            dial_fails: *dial_fails,
            ..calm(words, *octets)
        };
        let (ended, prints, sends) = tells(
            &rt,
            rt.alloc(),
            &scene,
            FIX.as_bytes(),
            printed,
            *written,
        );
        assert!(rt; ended == *status);
        assert!(rt; prints);
        assert!(rt; sends);
    }
}

// Without a fix nothing is dialled, and so it is where a line is bad.
#[test]
fn lines_of_fixes(rt: HostRuntime) {
    let rows: &[(&str, &[u8], Status)] = &[
        ("", b"accepted=0 of 0\n", Status::Done),
        ("# none\n\n", b"accepted=0 of 0\n", Status::Done),
        (
            "000000000000000300000001",
            b"line 1+12 refused Truncated\n",
            Status::Refused,
        ),
        (
            "00000000000000030000000106bc3e400000000000002401010000\n",
            b"line 1+22 refused Truncated\n",
            Status::Refused,
        ),
        ("# none\n0\n", b"line 2 refused hex\n", Status::Refused),
        ("zz", b"line 1 refused hex\n", Status::Refused),
        (
            "00000000000000030000000106bc3e40000000000000240101000000\r\n",
            b"line 1 refused hex\n",
            Status::Refused,
        ),
        (
            "00000000000000030000000106bc3e40000000000000240101000000\nzz",
            b"line 2 refused hex\n",
            Status::Refused,
        ),
    ];
    for (text, printed, status) in rows {
        let scene = calm(WORDS, Some(ANSWERS));
        let (ended, prints, sends) = tells(&rt, rt.alloc(), &scene, text.as_bytes(), printed, None);
        assert!(rt; ended == *status, "{text}");
        assert!(rt; prints, "{text}");
        assert!(rt; sends, "{text}");
    }
}

// So many digits in a line.
#[test]
fn long_lines(rt: HostRuntime) -> Result<(), Fail> {
    let rows: &[(usize, &[u8])] = &[
        (2_048, b"line 1 refused long\n"),
        (4_096, b"line 1 refused long\n"),
        (4_097, b"line 1 refused\n"),
        (10_000, b"line 1 refused\n"),
    ];
    for (digits, printed) in rows {
        let text = vec![in rt.alloc(); b'0'; *digits]?;
        let scene = calm(WORDS, Some(ANSWERS));
        let (ended, prints, sends) = tells(&rt, rt.alloc(), &scene, &text, printed, None);
        assert!(rt; ended == Status::Refused, "{digits}");
        assert!(rt; prints, "{digits}");
        assert!(rt; sends, "{digits}");
    }
    Ok(())
}

// The status over one fix, and whether this was printed.
fn ends<R: Abort>(rt: &R, alloc: Global, scene: &Scene, printed: &[u8]) -> (Status, bool) {
    let (status, prints, _sends) = tells(rt, alloc, scene, FIX.as_bytes(), printed, None);
    (status, prints)
}

// The numbers of the calls of source, sink and vault that fail, and the limit of the vault, over one fix.
#[test]
fn faults(rt: HostRuntime) {
    let rows: &[(u64, u64, u64, u64, &[u8], Status)] = &[
        (1, 0, 0, 100, b"", Status::ReadFault),
        (0, 1, 0, 100, b"", Status::WriteFault),
        (0, 0, 1, 100, b"store fault\n", Status::StoreFault),
        (0, 0, 2, 100, b"store fault\n", Status::StoreFault),
        (0, 0, 3, 100, b"store fault\n", Status::StoreFault),
        (0, 0, 4, 100, b"store fault\n", Status::StoreFault),
        (0, 0, 5, 100, b"store fault\n", Status::StoreFault),
        (0, 0, 6, 100, b"accepted=1 of 1\n", Status::Done),
        (0, 0, 0, 0, b"vault full at 0\n", Status::StoreFault),
        (0, 0, 0, 1, b"accepted=1 of 1\n", Status::Done),
    ];
    for (source_fails, sink_fails, vault_fails, limit, printed, status) in rows {
        let scene = Scene {
            source_fails: *source_fails,
            sink_fails: *sink_fails,
            vault_fails: *vault_fails,
            limit: *limit,
            ..calm(WORDS, Some(ANSWERS))
        };
        let (ended, prints) = ends(&rt, rt.alloc(), &scene, printed);
        assert!(rt;
            ended == *status,
            "{source_fails} {sink_fails} {vault_fails} {limit}"
        );
        assert!(rt; prints, "{source_fails} {sink_fails} {vault_fails} {limit}");
    }
}

// What a run recorded is in the vault that it hands back, as a run without lines tells.
#[test]
fn the_vault_comes_back(rt: HostRuntime) {
    let rows: &[(&str, u64, &[u8])] = &[
        ("", 100, b"accepted=0 of 0\n"),
        (
            "zz\n00000000000000030000000106bc3e40000000000000240101000000\n",
            100,
            b"accepted=0 of 0\n",
        ),
        (
            "00000000000000030000000106bc3e40000000000000240101000000\nzz\n",
            100,
            b"try 1 dial\naccepted=0 of 1\n",
        ),
        (
            "00000000000000030000000106bc3e40000000000000240101000000\n00000000000000030000000106bc3e40000000000000240101000000",
            1,
            b"try 1 dial\naccepted=0 of 1\n",
        ),
    ];
    for (text, limit, printed) in rows {
        let scene = Scene {
            limit: *limit,
            ..calm(WORDS, Some(ANSWERS))
        };
        assert!(rt;
            tells_again(&rt, rt.alloc(), &scene, text.as_bytes(), printed),
            "{text}"
        );
    }
}
