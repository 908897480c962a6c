//! The tokens of a service's folder.

use dewfelt_serve::{page, tokens_of};
use dewfelt_settings::Choices;
use std::fs;

// What is said of the page of a folder.
fn said(rt: &HostRuntime, folder: &str) -> String {
    match page(rt, folder, &Choices::none()) {
        Ok(line) => line,
        Err(trouble) => trouble.text,
    }
}

// Tokens are made once, and read then; a file that holds none is named.
#[test]
fn tokens_are_made_and_read(rt: HostRuntime) {
    let folder = "tokens_are_made_and_read";
    fs::create_dir(&rt, folder).expect(&rt, "it can be made");
    assert!(rt;
        said(&rt, folder).as_str()
            == "tokens_are_made_and_read/http.token: not there: a service makes it when it starts"
    );
    let made = tokens_of(&rt, folder).ok().expect(&rt, "it can be made");
    assert!(rt; made.operate.len() == 64 && made.read.len() == 64);
    assert!(rt; made.operate.as_slice() != made.read.as_slice());
    let read = tokens_of(&rt, folder).ok().expect(&rt, "it is there");
    assert!(rt; read.operate.as_slice() == made.operate.as_slice());
    assert!(rt; read.read.as_slice() == made.read.as_slice());
    let line = said(&rt, folder);
    let token = std::str::from_utf8(made.operate.as_slice()).expect(&rt, "text");
    assert!(rt;
        line.as_str()
            .strip_prefix("http://127.0.0.1:8080/#token=")
            .expect(&rt, "a front")
            .strip_suffix("\n")
            .expect(&rt, "an end")
            == token
    );
    fs::write(&rt, "tokens_are_made_and_read/http.token", "secret\n").expect(&rt, "it is there");
    assert!(rt;
        said(&rt, folder).as_str()
            == "tokens_are_made_and_read/http.token: holds no token: expected 64 hexadecimal digits"
    );
    fs::write(
        &rt,
        "tokens_are_made_and_read/dewfelt.toml",
        "http = \"none\"\n",
    )
    .expect(&rt, "it can be written");
    assert!(rt;
        said(&rt, folder).as_str()
            == "tokens_are_made_and_read/dewfelt.toml: http is none, so that there is no page"
    );
}
