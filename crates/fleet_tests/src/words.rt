use jt_value::Memory;
use jt_words::PlatformWords;
use std::alloc::Global;
use std::test::Fail;

// The words of a text, which one space divides.
fn words(alloc: Global, text: &str) -> Result<Vec<String>, Memory> {
    let mut words = Vec::new(alloc);
    for word in text.split(' ') {
        words.push(String::from_str(alloc, word)?)?;
    }
    Ok(words)
}

#[test]
fn words_of_platform(rt: HostRuntime) -> Result<(), Fail> {
    let rows = [
        ("platform --port 9000 --sessions 1", 9000, 1),
        ("platform --port=9000 --sessions=1", 9000, 1),
        ("platform --sessions 1 --port=9000", 9000, 1),
        ("platform --sessions=1024 --port 65535", 65535, 1024),
        ("platform --port 1 --sessions=1", 1, 1),
    ];
    for (text, port, sessions) in rows {
        let words = words(rt.alloc(), text)?;
        let told = PlatformWords::from_words(words.as_slice());
        assert!(rt; told == Some(PlatformWords { port, sessions }), "{text}");
    }
    Ok(())
}

#[test]
fn words_of_no_platform(rt: HostRuntime) -> Result<(), Fail> {
    let rows = [
        "",
        "platform",
        "platforms --port 1 --sessions 1",
        "platform --port 9000",
        "platform --sessions 1",
        "platform --port 0 --sessions 1",
        "platform --port 65536 --sessions 1",
        "platform --port 1 --sessions 0",
        "platform --port 1 --sessions 1025",
        "platform --port 09000 --sessions 1",
        "platform --port +1 --sessions 1",
        "platform --port 1x --sessions 1",
        "platform --port= --sessions=1",
        "platform --port  --sessions=1",
        "platform --port --sessions 1",
        "platform --port 1 --sessions",
        "platform --port -1 --sessions 1",
        "platform --ports 1 --sessions 1",
        "platform --por 1 --sessions 1",
        "platform -port 1 --sessions 1",
        "platform --port 1 --port 1 --sessions 1",
        "platform --port 1 --port 1",
        "platform --port 1 --sessions 1 more",
        "platform more --port 1 --sessions 1",
        "platform -- --port 1 --sessions 1",
        "platform --help",
        "--port 1 --sessions 1 platform",
    ];
    for text in rows {
        let words = words(rt.alloc(), text)?;
        assert!(rt;
            PlatformWords::from_words(words.as_slice()).is_none(),
            "{text}"
        );
    }
    Ok(())
}
