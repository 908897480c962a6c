use dewfelt_settings::{Command, Settings, read_command, read_file};
use std::alloc::{AllocError, Global};
use std::test::Fail;

// The words of a command line that stand in a text, with a space between two.
fn words(alloc: Global, text: &str) -> Result<Vec<String>, AllocError> {
    let mut words = Vec::new(alloc);
    for word in text.split_whitespace() {
        words.push(String::from_str(alloc, word)?)?;
    }
    Ok(words)
}

// What is said of a command line: the settings in one line, or what is wrong.
pub(crate) fn said(alloc: Global, line: &str, file: &str) -> Result<String, AllocError> {
    let words = words(alloc, line)?;
    let command = match read_command(alloc, words.as_slice()) {
        Ok(command) => command,
        Err(wrong) => return format!(in alloc; "{wrong}"),
    };
    let chosen = match read_file(alloc, file.as_bytes()) {
        Ok(choices) => choices,
        Err(wrong) => return format!(in alloc; "{wrong}"),
    };
    match command {
        Command::Serve(folder, choices) => {
            let s = Settings::of(&choices, &chosen);
            let of = match s.strangers_of_address {
                Some(count) => count.number,
                None => 0,
            };
            let listen = s.listen;
            let links = s.links.number;
            let quiet = s.quiet.number;
            let strangers = s.strangers.number;
            let ends = s.until_input_ends;
            let http = s.http;
            let name = match &s.http_name {
                Some(name) => name.as_str(),
                None => "-",
            };
            format!(in alloc;
                "{folder} {listen} {links} {quiet} {strangers} {of} {http} {name} {ends}"
            )
        }
        Command::Check(folder, _) => format!(in alloc; "check {folder}"),
        Command::Page(folder, _) => format!(in alloc; "page {folder}"),
        Command::Registrations(folder) => format!(in alloc; "registrations {folder}"),
        Command::Forget(folder, phone) => {
            let digits = phone.digits;
            format!(in alloc; "forget {folder} {digits:?}")
        }
        Command::Copy(folder, file) => format!(in alloc; "copy {folder} {file}"),
        Command::Stop(folder) => format!(in alloc; "stop {folder}"),
        Command::Help => format!(in alloc; "help"),
        Command::Version => format!(in alloc; "version"),
    }
}

#[test]
fn settings_of_words_and_files(rt: HostRuntime) -> Result<(), Fail> {
    let rows: &[(&str, &str, &str)] = &[
        (
            "serve d",
            "",
            "d 0.0.0.0:8808 1024 180 512 0 127.0.0.1:8080 - false",
        ),
        (
            "serve --links 500 d",
            "links = 7",
            "d 0.0.0.0:8808 500 180 250 0 127.0.0.1:8080 - false",
        ),
        (
            "serve d",
            "links = 7\nquiet=60",
            "d 0.0.0.0:8808 7 60 3 0 127.0.0.1:8080 - false",
        ),
        (
            "serve d --links=1 --until-input-ends",
            "",
            "d 0.0.0.0:8808 1 180 1 0 127.0.0.1:8080 - true",
        ),
        (
            "serve d --listen [::]:9000",
            "listen = \"1.2.3.4:5\"",
            "d [::]:9000 1024 180 512 0 127.0.0.1:8080 - false",
        ),
        (
            "serve d --http none",
            "listen = \"1.2.3.4:5\"",
            "d 1.2.3.4:5 1024 180 512 0 none - false",
        ),
        (
            "serve d --strangers-of-address 9",
            "strangers = 2000",
            "d 0.0.0.0:8808 1024 180 1024 9 127.0.0.1:8080 - false",
        ),
        (
            "serve d",
            "strangers_of_address = 20\nhttp = \"none\"",
            "d 0.0.0.0:8808 1024 180 512 20 none - false",
        ),
        (
            "serve d --http [::1]:9090",
            "http = \"none\"\nhttp_name = \"fleet.example.org\"",
            "d 0.0.0.0:8808 1024 180 512 0 [::1]:9090 fleet.example.org false",
        ),
        (
            "serve d --http-name=fleet.example.org:8443",
            "http = \"0.0.0.0:80\"\nhttp_name = \"other\"",
            "d 0.0.0.0:8808 1024 180 512 0 0.0.0.0:80 fleet.example.org:8443 false",
        ),
        ("check d", "", "check d"),
        ("page d", "", "page d"),
        ("page", "", "no folder: expected page DIR"),
        ("serve d --help", "", "help"),
        ("--version", "", "version"),
        (
            "",
            "",
            "no command: expected serve DIR, check DIR, page DIR, registrations DIR, forget DIR PHONE, copy DIR FILE, stop DIR, --help or --version",
        ),
        (
            "serv d",
            "",
            "unknown command \"serv\": expected serve DIR, check DIR, page DIR, registrations DIR, forget DIR PHONE, copy DIR FILE, stop DIR, --help or --version",
        ),
        ("serve", "", "no folder: expected serve DIR"),
        ("serve a b", "", "a second folder \"b\": expected one"),
        (
            "serve a --links",
            "",
            "--links has no value: expected a number from 1 to 10000",
        ),
        (
            "serve a --links 0",
            "",
            "--links \"0\": expected a number from 1 to 10000",
        ),
        (
            "serve a --links 10001",
            "",
            "--links \"10001\": expected a number from 1 to 10000",
        ),
        (
            "serve a --links 5 --links 5",
            "",
            "--links is given twice: expected once",
        ),
        (
            "serve a --until-input-ends --until-input-ends",
            "",
            "--until-input-ends is given twice: expected once",
        ),
        (
            "serve a --quiet x",
            "",
            "--quiet \"x\": expected a number of seconds from 1 to 86400",
        ),
        (
            "serve a --listen :80",
            "",
            "--listen \":80\": expected an address and a port, as 0.0.0.0:8808 or [::]:8808",
        ),
        (
            "serve a --listen 1.2.3.4:0",
            "",
            "--listen \"1.2.3.4:0\": expected an address and a port, as 0.0.0.0:8808 or [::]:8808",
        ),
        (
            "serve a --http 8080",
            "",
            "--http \"8080\": expected none, or an address and a port, as 127.0.0.1:8080 or [::1]:8080",
        ),
        (
            "serve a --http 127.0.0.1:0",
            "",
            "--http \"127.0.0.1:0\": expected none, or an address and a port, as 127.0.0.1:8080 or [::1]:8080",
        ),
        (
            "serve a --http-name Fleet.example",
            "",
            "--http-name \"Fleet.example\": expected a host in small letters, with its port where a browser sends one",
        ),
        (
            "serve a --http none --http none",
            "",
            "--http is given twice: expected once",
        ),
        (
            "serve a --port 1",
            "",
            "unknown option \"--port\": expected --listen, --links, --quiet, --strangers, --strangers-of-address, --http, --http-name or --until-input-ends",
        ),
        (
            "serve a",
            "link = 1",
            "unknown key \"link\": expected listen, links, quiet, strangers, strangers_of_address, http or http_name",
        ),
        (
            "serve a",
            "links = \"7\"",
            "links is a wrong string: expected a number from 1 to 10000",
        ),
        (
            "serve a",
            "quiet = 0",
            "quiet is a wrong integer: expected a number of seconds from 1 to 86400",
        ),
        (
            "serve a",
            "http = true",
            "http is a wrong boolean: expected none, or an address and a port, as 127.0.0.1:8080 or [::1]:8080",
        ),
    ];
    for (line, file, expected) in rows {
        let found = said(rt.alloc(), line, file)?;
        assert!(rt; found.as_str() == *expected, "{line} / {file}: {found}");
    }
    Ok(())
}

#[test]
fn a_file_that_is_no_toml(rt: HostRuntime) -> Result<(), Fail> {
    let found = said(rt.alloc(), "serve d", "# two lines\nlinks : 7\n")?;
    assert!(rt;
        found.as_str().starts_with("line 2 is no TOML: "),
        "{found}"
    );
    Ok(())
}

#[test]
fn a_folder_without_a_name(rt: HostRuntime) -> Result<(), Fail> {
    let mut words = words(rt.alloc(), "check")?;
    words.push(String::new(rt.alloc()))?;
    let found = match read_command(rt.alloc(), words.as_slice()) {
        Ok(_) => String::new(rt.alloc()),
        Err(wrong) => format!(in rt.alloc(); "{wrong}")?,
    };
    assert!(rt;
        found.as_str() == "no folder: expected check DIR",
        "{found}"
    );
    Ok(())
}
