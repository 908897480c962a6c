//! The words of the commands beside a service.

use crate::settings_tests::said;
use std::test::Fail;

#[test]
fn words_of_the_commands_beside_a_service(rt: HostRuntime) -> Result<(), Fail> {
    let rows: &[(&str, &str)] = &[
        ("registrations d", "registrations d"),
        ("registrations", "too few words: expected registrations DIR"),
        (
            "registrations d e",
            "a word too many \"e\": expected registrations DIR",
        ),
        (
            "registrations --quiet 5",
            "unknown option \"--quiet\": expected registrations DIR",
        ),
        ("registrations d --help", "help"),
        ("stop d", "stop d"),
        ("stop", "too few words: expected stop DIR"),
        (
            "stop d --until-input-ends",
            "unknown option \"--until-input-ends\": expected stop DIR",
        ),
        ("copy d f", "copy d f"),
        ("copy d", "too few words: expected copy DIR FILE"),
        (
            "copy d f g",
            "a word too many \"g\": expected copy DIR FILE",
        ),
        ("copy -h", "help"),
        (
            "forget d 13912345678",
            "forget d [0, 0, 0, 0, 1, 57, 18, 52, 86, 120]",
        ),
        (
            "forget d 99999999999999999990",
            "forget d [153, 153, 153, 153, 153, 153, 153, 153, 153, 144]",
        ),
        ("forget d 7", "forget d [0, 0, 0, 0, 0, 0, 0, 0, 0, 7]"),
        (
            "forget d 123456789012345678901",
            "\"123456789012345678901\" is no phone: expected 1 to 20 digits",
        ),
        (
            "forget d 1391234567a",
            "\"1391234567a\" is no phone: expected 1 to 20 digits",
        ),
        ("forget d /1", "\"/1\" is no phone: expected 1 to 20 digits"),
        ("forget d :", "\":\" is no phone: expected 1 to 20 digits"),
        ("forget d", "too few words: expected forget DIR PHONE"),
        ("forget", "too few words: expected forget DIR PHONE"),
        (
            "forget d -1",
            "unknown option \"-1\": expected forget DIR PHONE",
        ),
    ];
    for (line, expected) in rows {
        let found = said(rt.alloc(), line, "")?;
        assert!(rt; found.as_str() == *expected, "{line}: {found}");
    }
    Ok(())
}
