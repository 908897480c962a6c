//! What both ends do, over stores in memory and in files.

use crate::files::{first_platform, first_terminal};
use crate::{memory, platform, terminal};
use jt_sql::{SqlKeeper, SqlVault};
use jt_value::Edition;
use sql_tests::files::{make_folder, remove_folder};
use std::test::Fail;

/// Lives of a platform and of a terminal, each with what its store has then.
#[derive(Clone, Copy)]
struct Story {
    platform: &'static [platform::Life],
    terminal: &'static [terminal::Life],
}

// Unit 2 is stored and its acceptance lost, both ends begin anew, and the platform knows the repeat. Then the terminal lost its
// file: it registers anew, and its unit 2 is another one, with a number of its own. Another phone that asks for its plate is
// refused. It deregisters, and what it sends then is refused.
const LOST_ANSWER: Story = Story {
    platform: &[
        (
            &[(1, b"RAU", b"rau")],
            "registered 4a54383038 31323334353637 last=2\n\
             2 0200 00000000000000030000000006bc3e40000000000000240101000000\n\
             none\n",
        ),
        (
            &[(1, b"BU", b"bp")],
            "registered 4a54383038 31323334353637 last=2\n\
             2 0200 00000000000000030000000006bc3e40000000000000240101000000\n\
             none\n",
        ),
        (
            &[(1, b"S", b"s"), (2, b"RAX", b"rau")],
            "registered 4a54383038 31323334353637 last=65538\n\
             2 0200 00000000000000030000000006bc3e40000000000000240101000000\n\
             65538 0200 00000000000000030000000906bc3e40000000000000240101000000\n\
             none\n",
        ),
        (
            &[(1, b"RADW", b"radn"), (2, b"A", b"x"), (3, b"T", b"t")],
            "none last=65538\n\
             2 0200 00000000000000030000000006bc3e40000000000000240101000000\n\
             65538 0200 00000000000000030000000906bc3e40000000000000240101000000\n\
             none\n",
        ),
    ],
    terminal: &[
        (
            Edition::E2013,
            "F 0 - -  O 0 - R  D 0 r A  D 0 a U",
            "recorded=1 accepted=0 mark=65535 next=3 code=33316139396238346534633038656530\n\
             unit 2 0200 1 00000000000000030000000006bc3e40000000000000240101000000\n",
        ),
        (
            Edition::E2013,
            "O 0 - B  D 0 b U  D 0 p -",
            "recorded=1 accepted=1 mark=2 next=3 code=33316139396238346534633038656530\n",
        ),
    ],
};

// Three units are stored, and the terminal begins anew before it hears of it.
const TERMINAL_ANEW: Story = Story {
    platform: &[(
        &[(1, b"RAUVW", b"rauvw"), (2, b"CUVW", b"cpqk")],
        "registered 4a54383038 31323334353637 last=4\n\
             2 0200 00000000000000030000000006bc3e40000000000000240101000000\n\
             3 0200 00000000000000030000000106bc3e40000000000000240101000000\n\
             4 0200 00000000000000030000000206bc3e40000000000000240101000000\n\
             none\n",
    )],
    terminal: &[
        (
            Edition::E2013,
            "O 0 - R  D 0 r A  D 0 a -  F 0 - -  T 0 - U  F 1 - -  T 0 - V  F 2 - -  T 0 - W",
            "recorded=3 accepted=0 mark=65535 next=5 code=33316139396238346534633038656530\n\
             unit 2 0200 1 00000000000000030000000006bc3e40000000000000240101000000\n\
             unit 3 0200 1 00000000000000030000000106bc3e40000000000000240101000000\n\
             unit 4 0200 1 00000000000000030000000206bc3e40000000000000240101000000\n",
        ),
        (
            Edition::E2013,
            "O 0 - C  D 0 c UVW  D 0 pq -  D 0 k -",
            "recorded=3 accepted=3 mark=4 next=5 code=33316139396238346534633038656530\n",
        ),
    ],
};

// The unit comes on the first connection once a second one has the phone.
const LATE_UNIT: Story = Story {
    platform: &[(
        &[
            (1, b"RA", b"ra"),
            (2, b"B", b"b"),
            (1, b"U", b"f"),
            (2, b"U", b"o"),
        ],
        "registered 4a54383038 31323334353637 last=2\n\
         2 0200 00000000000000030000000006bc3e40000000000000240101000000\n\
         none\n",
    )],
    terminal: &[(
        Edition::E2013,
        "O 0 - R  D 0 r A  D 0 a -  F 0 - -  T 0 - U  L 0 - -  O 0 - B  D 0 b U  D 0 p -  F 1 - -",
        "recorded=2 accepted=1 mark=2 next=3 code=33316139396238346534633038656530\n\
         fix 00000000000000030000000106bc3e40000000000000240101000000\n",
    )],
};

// The terminal begins anew in the edition of 2019: its code is denied, it registers anew, and its unit is a repeat.
const OTHER_EDITION: Story = Story {
    platform: &[(
        &[(1, b"RAU", b"rau"), (2, b"G", b"g"), (3, b"HIJ", b"hij")],
        "registered 4a54383038 31323334353637 last=2\n\
             2 0200 00000000000000030000000006bc3e40000000000000240101000000\n\
             none\n",
    )],
    terminal: &[
        (
            Edition::E2013,
            "F 0 - -  O 0 - R  D 0 r A  D 0 a U",
            "recorded=1 accepted=0 mark=65535 next=3 code=33316139396238346534633038656530\n\
             unit 2 0200 1 00000000000000030000000006bc3e40000000000000240101000000\n",
        ),
        (
            Edition::E2019,
            "O 0 - G  D 0 g -  O 0 - H  D 0 h I  D 0 i J  D 0 j -",
            "recorded=1 accepted=1 mark=2 next=3 code=30373066376538333364643436376565\n",
        ),
    ],
};

// Three fixes are stored in one batch, and its acceptance is lost. Both ends begin anew, and the batch is a repeat; then they begin
// anew once more, and the next fix goes alone.
const SEVERAL_FIXES: Story = Story {
    platform: &[
        (
            &[(1, b"RAE", b"rae")],
            "registered 4a54383038 31323334353637 last=2\n\
             2 0704 000301001c00000000000000030000000006bc3e40000000000000240101000000001c00000000000000030000000106bc3e40000000000000240101000000001c00000000000000030000000206bc3e40000000000000240101000000\n\
             none\n",
        ),
        (
            &[(1, b"BE", b"bm")],
            "registered 4a54383038 31323334353637 last=2\n\
             2 0704 000301001c00000000000000030000000006bc3e40000000000000240101000000001c00000000000000030000000106bc3e40000000000000240101000000001c00000000000000030000000206bc3e40000000000000240101000000\n\
             none\n",
        ),
        (
            &[(1, b"BW", b"bl")],
            "registered 4a54383038 31323334353637 last=4\n\
             2 0704 000301001c00000000000000030000000006bc3e40000000000000240101000000001c00000000000000030000000106bc3e40000000000000240101000000001c00000000000000030000000206bc3e40000000000000240101000000\n\
             4 0200 00000000000000030000000206bc3e40000000000000240101000000\n\
             none\n",
        ),
    ],
    terminal: &[
        (
            Edition::E2013,
            "F 0 - -  F 1 - -  F 2 - -  O 0 - R  D 0 r A  D 0 a E",
            "recorded=3 accepted=0 mark=65535 next=3 code=33316139396238346534633038656530\n\
             unit 2 0704 3 000301001c00000000000000030000000006bc3e40000000000000240101000000001c00000000000000030000000106bc3e40000000000000240101000000001c00000000000000030000000206bc3e40000000000000240101000000\n",
        ),
        (
            Edition::E2013,
            "O 0 - B  D 0 b E  D 0 m -",
            "recorded=3 accepted=3 mark=2 next=3 code=33316139396238346534633038656530\n",
        ),
        (
            Edition::E2013,
            "F 2 - -  O 0 - B  D 0 b W  D 0 l -",
            "recorded=4 accepted=4 mark=4 next=5 code=33316139396238346534633038656530\n",
        ),
    ],
};

#[test]
fn both_ends_over_stores_in_memory(rt: HostRuntime) -> Result<(), Fail> {
    for story in [
        &LOST_ANSWER,
        &TERMINAL_ANEW,
        &LATE_UNIT,
        &OTHER_EDITION,
        &SEVERAL_FIXES,
    ] {
        assert!(rt; memory::first_platform(rt.alloc(), story.platform) == None);
        assert!(rt; memory::first_terminal(rt.alloc(), story.terminal) == None);
    }
    Ok(())
}

// Whether a story goes so over stores in files of a folder, which is made for it.
fn goes_in_files(rt: &HostRuntime, folder: &str, story: &Story) -> Result<bool, Fail> {
    make_folder(rt, folder)?;
    let of_platform = format!(in rt.alloc(); "{folder}/p.db")?;
    let of_terminal = format!(in rt.alloc(); "{folder}/t.db")?;
    let platform = first_platform::<SqlKeeper<HostRuntime>>(rt, &of_platform, story.platform);
    let terminal = first_terminal::<SqlVault<HostRuntime>>(rt, &of_terminal, story.terminal);
    let goes = platform == None && terminal == None;
    if goes {
        remove_folder(rt, folder)?;
    }
    Ok(goes)
}

#[test]
fn a_lost_answer_over_stores_in_files(rt: HostRuntime) -> Result<(), Fail> {
    assert!(rt; goes_in_files(&rt, "lost_answer_test", &LOST_ANSWER)?);
    Ok(())
}

#[test]
fn a_terminal_anew_over_stores_in_files(rt: HostRuntime) -> Result<(), Fail> {
    assert!(rt; goes_in_files(&rt, "terminal_anew_test", &TERMINAL_ANEW)?);
    Ok(())
}

#[test]
fn a_late_unit_over_stores_in_files(rt: HostRuntime) -> Result<(), Fail> {
    assert!(rt; goes_in_files(&rt, "late_unit_test", &LATE_UNIT)?);
    Ok(())
}

#[test]
fn another_edition_over_stores_in_files(rt: HostRuntime) -> Result<(), Fail> {
    assert!(rt; goes_in_files(&rt, "other_edition_test", &OTHER_EDITION)?);
    Ok(())
}

#[test]
fn several_fixes_over_stores_in_files(rt: HostRuntime) -> Result<(), Fail> {
    assert!(rt; goes_in_files(&rt, "several_fixes_test", &SEVERAL_FIXES)?);
    Ok(())
}
