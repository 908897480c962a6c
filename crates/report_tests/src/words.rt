use jt_report_command::ReportWords;
use jt_value::{Edition, Phone};
use std::alloc::Global;
use std::process::Abort;

// The words of a text, which one space divides.
fn words(rt: &impl Abort, alloc: Global, text: &str) -> Vec<String> {
    let mut words = Vec::new(alloc);
    for word in text.split(' ') {
        let word = String::from_str(alloc, word).expect(rt, "there is memory");
        words.push(word).expect(rt, "there is memory");
    }
    words
}

fn told(rt: &impl Abort, alloc: Global, text: &str) -> Option<ReportWords> {
    let words = words(rt, alloc, text);
    ReportWords::from_words(alloc, words.as_slice()).expect(rt, "there is memory")
}

// Whether the words are no words of `report`.
fn is_none(rt: &impl Abort, alloc: Global, text: &str) -> bool {
    let told = told(rt, alloc, text);
    let is_none = told.is_none();
    drop(told);
    is_none
}

// Whether the words are those of one vehicle, the same in each row.
fn is_one_vehicle(told: &Option<ReportWords>) -> bool {
    let phone = Phone {
        edition: Edition::E2013,
        digits: [0, 0, 0, 0, 0x01, 0x39, 0x12, 0x34, 0x56, 0x78],
    };
    match told {
        Some(told) => {
            told.host.as_str() == "127.0.0.1"
                && told.port == 9000
                && told.phone == phone
                && told.plate.as_slice() == b"JT808".as_slice()
                && told.terminal.as_slice() == b"1234567".as_slice()
                && told.tries == 3
        }
        None => false,
    }
}

#[test]
fn words_in_any_order(rt: HostRuntime) {
    let rows: &[&str] = &[
        "report --host 127.0.0.1 --port 9000 --phone 013912345678 --plate 4a54383038 --terminal 31323334353637 --tries 3",
        "report --host=127.0.0.1 --port=9000 --phone=013912345678 --plate=4a54383038 --terminal=31323334353637 --tries=3",
        "report --tries 3 --terminal=31323334353637 --plate 4A54383038 --phone=013912345678 --port 9000 --host=127.0.0.1",
        "report --phone 013912345678 --edition 2013 --tries=3 --host 127.0.0.1 --terminal 31323334353637 --plate 4a54383038 --port=9000",
        "report --edition=2013 --plate 4a54383038 --port 9000 --terminal 31323334353637 --host 127.0.0.1 --tries 3 --phone 013912345678",
    ];
    for text in rows {
        let told = told(&rt, rt.alloc(), text);
        assert!(rt; is_one_vehicle(&told), "{text}");
        drop(told);
    }
}

// Whether the words are those of one vehicle of 2019, the same in each row.
fn is_one_of_2019(told: &Option<ReportWords>) -> bool {
    let phone = Phone {
        edition: Edition::E2019,
        digits: [0x98, 0x76, 0x54, 0x32, 0x10, 0x13, 0x91, 0x23, 0x45, 0x67],
    };
    match told {
        Some(told) => {
            told.host.as_str() == "a-host.example:x"
                && told.port == 65535
                && told.phone == phone
                && told.plate.as_slice() == b"\x00".as_slice()
                && told.terminal.as_slice() == b"123456789012345678901234567890".as_slice()
                && told.tries == 100
        }
        None => false,
    }
}

#[test]
fn words_of_2019(rt: HostRuntime) {
    let rows: &[&str] = &[
        "report --host a-host.example:x --port 65535 --phone 98765432101391234567 --plate 00 --terminal 313233343536373839303132333435363738393031323334353637383930 --tries 100 --edition 2019",
        "report --edition=2019 --host a-host.example:x --port 65535 --phone 98765432101391234567 --plate 00 --terminal 313233343536373839303132333435363738393031323334353637383930 --tries 100",
    ];
    for text in rows {
        let told = told(&rt, rt.alloc(), text);
        assert!(rt; is_one_of_2019(&told), "{text}");
        drop(told);
    }
}

#[test]
fn words_of_no_report(rt: HostRuntime) {
    let rows: &[&str] = &[
        "",
        "report",
        "report --help",
        "reports --host h --port 1 --phone 013912345678 --plate 41 --terminal 31 --tries 1",
        "--host h --port 1 --phone 013912345678 --plate 41 --terminal 31 --tries 1 report",
        "report --port 1 --phone 013912345678 --plate 41 --terminal 31 --tries 1",
        "report --host h --phone 013912345678 --plate 41 --terminal 31 --tries 1",
        "report --host h --port 1 --plate 41 --terminal 31 --tries 1",
        "report --host h --port 1 --phone 013912345678 --terminal 31 --tries 1",
        "report --host h --port 1 --phone 013912345678 --plate 41 --tries 1",
        "report --host h --port 1 --phone 013912345678 --plate 41 --terminal 31",
        "report --host h --port 1 --phone 013912345678 --plate 41 --terminal 31 --tries",
        "report --host h --port 1 --phone 013912345678 --plate 41 --terminal 31 --tries=",
        "report --host h --port 1 --phone 013912345678 --plate 41 --terminal 31 --tries ",
        "report --host h --port 1 --phone 013912345678 --plate 41 --terminal 31 --trie 1",
        "report --host h --port 1 --phone 013912345678 --plate 41 --terminal 31 --triess 1",
        "report --host h --port 1 --phone 013912345678 --plate 41 --terminal 31 -tries 1",
        "report --host h --port 1 --phone 013912345678 --plate 41 --terminal 31 --tries 1 --tries 1",
        "report --host h --host h --port 1 --phone 013912345678 --plate 41 --terminal 31 --tries 1",
        "report --edition 2013 --edition 2013 --host h --port 1 --phone 013912345678 --plate 41 --terminal 31 --tries 1",
        "report --host h --port 1 --phone 013912345678 --plate 41 --terminal 31 --tries 1 more",
        "report more --host h --port 1 --phone 013912345678 --plate 41 --terminal 31 --tries 1",
        "report -- --host h --port 1 --phone 013912345678 --plate 41 --terminal 31 --tries 1",
        "report --host h --port 1 --phone 013912345678 --plate 41 --terminal 31 --tries 1 --",
        "report --host h --port 1 --phone 013912345678 --plate 41 --terminal 31 --tries 1 --help",
        "report --host h --port 1 --phone 013912345678 --plate 41 --terminal 31 --tries 1 --hex",
        "report --host h --port 1 --phone 013912345678 --plate 41 --terminal 31 --tries 1 --sessions 1",
        "report --host h --port 1 --phone 013912345678 --plate 41 --terminal 31 --tries 1 ",
    ];
    for text in rows {
        assert!(rt; is_none(&rt, rt.alloc(), text), "{text}");
    }
}

#[test]
fn values_out_of_form(rt: HostRuntime) {
    let rows: &[&str] = &[
        "report --host -h --port 1 --phone 013912345678 --plate 41 --terminal 31 --tries 1",
        "report --host=-h --port 1 --phone 013912345678 --plate 41 --terminal 31 --tries 1",
        "report --host h_h --port 1 --phone 013912345678 --plate 41 --terminal 31 --tries 1",
        "report --host= --port 1 --phone 013912345678 --plate 41 --terminal 31 --tries 1",
        "report --host h --port 0 --phone 013912345678 --plate 41 --terminal 31 --tries 1",
        "report --host h --port 65536 --phone 013912345678 --plate 41 --terminal 31 --tries 1",
        "report --host h --port 01 --phone 013912345678 --plate 41 --terminal 31 --tries 1",
        "report --host h --port +1 --phone 013912345678 --plate 41 --terminal 31 --tries 1",
        "report --host h --port -1 --phone 013912345678 --plate 41 --terminal 31 --tries 1",
        "report --host h --port 1 --phone 01391234567 --plate 41 --terminal 31 --tries 1",
        "report --host h --port 1 --phone 0139123456789 --plate 41 --terminal 31 --tries 1",
        "report --host h --port 1 --phone 01391234567890 --plate 41 --terminal 31 --tries 1",
        "report --host h --port 1 --phone 01391234567a --plate 41 --terminal 31 --tries 1",
        "report --host h --port 1 --phone 98765432101391234567 --plate 41 --terminal 31 --tries 1",
        "report --host h --port 1 --phone 013912345678 --plate 41 --terminal 31 --tries 1 --edition 2019",
        "report --host h --port 1 --phone 98765432101391234567 --plate 41 --terminal 31 --tries 1 --edition 2013",
        "report --host h --port 1 --phone 013912345678 --plate 41 --terminal 31 --tries 1 --edition 2011",
        "report --host h --port 1 --phone 013912345678 --plate 41 --terminal 31 --tries 1 --edition=",
        "report --host h --port 1 --phone 013912345678 --plate 4 --terminal 31 --tries 1",
        "report --host h --port 1 --phone 013912345678 --plate 411 --terminal 31 --tries 1",
        "report --host h --port 1 --phone 013912345678 --plate 4g --terminal 31 --tries 1",
        "report --host h --port 1 --phone 013912345678 --plate - --terminal 31 --tries 1",
        "report --host h --port 1 --phone 013912345678 --plate= --terminal 31 --tries 1",
        "report --host h --port 1 --phone 013912345678 --plate 41 --terminal 3 --tries 1",
        "report --host h --port 1 --phone 013912345678 --plate 41 --terminal= --tries 1",
        "report --host h --port 1 --phone 013912345678 --plate 41 --terminal 3132333435363738 --tries 1",
        "report --host h --port 1 --phone 013912345678 --plate 41 --terminal 31 --tries 0",
        "report --host h --port 1 --phone 013912345678 --plate 41 --terminal 31 --tries 101",
        "report --edition 2019 --host h --port 1 --phone 98765432101391234567 --plate 41 --terminal 31323334353637383930313233343536373839303132333435363738393031 --tries 1",
    ];
    for text in rows {
        assert!(rt; is_none(&rt, rt.alloc(), text), "{text}");
    }
}

// A word of this option and so many times this text.
fn word_of(rt: &impl Abort, alloc: Global, option: &str, text: &str, count: usize) -> String {
    let mut word = String::from_str(alloc, option).expect(rt, "there is memory");
    for _ in 0..count {
        word.push_str(text).expect(rt, "there is memory");
    }
    word
}

// Whether a host and a plate of these lengths, of the octets `h` and pairs of the digits `41`, are good.
fn is_good(rt: &impl Abort, alloc: Global, host: usize, plate: usize) -> bool {
    let host_word = word_of(rt, alloc, "--host=", "h", host);
    let plate_word = word_of(rt, alloc, "--plate=", "41", plate);
    let mut words = words(
        rt,
        alloc,
        "report --port 1 --phone 013912345678 --terminal 31 --tries 1",
    );
    words.push(host_word).expect(rt, "there is memory");
    words.push(plate_word).expect(rt, "there is memory");
    let told = ReportWords::from_words(alloc, words.as_slice()).expect(rt, "there is memory");
    let is_good = told.is_some();
    drop(told);
    drop(words);
    is_good
}

#[test]
fn the_longest_host_and_plate(rt: HostRuntime) {
    assert!(rt; is_good(&rt, rt.alloc(), 255, 255));
    assert!(rt; is_good(&rt, rt.alloc(), 1, 1));
    assert!(rt; !is_good(&rt, rt.alloc(), 256, 1));
    assert!(rt; !is_good(&rt, rt.alloc(), 1, 256));
    assert!(rt; !is_good(&rt, rt.alloc(), 0, 1));
    assert!(rt; !is_good(&rt, rt.alloc(), 1, 0));
}
