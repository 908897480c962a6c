//! The files of the page, by their paths.

ghost use Rattle.std.specs.Prelude.{IsSome, IsTrue};
ghost use Rattle.dewfelt_page.specs.Files.{is_file};

use crate::files::{
    APP, APP_TAG, ICON, ICON_TAG, INDEX, INDEX_TAG, MAP, MAP_TAG, STYLE, STYLE_TAG, WORDS,
    WORDS_TAG,
};

/// What a file holds.
#[derive(Clone, Copy, Debug, PartialEq, Eq)]
pub enum Kind {
    Html,
    Style,
    Script,
    Picture,
}

/// A file of the page.
#[derive(Clone, Copy)]
pub struct File {
    pub kind: Kind,
    pub text: &'static str,
    /// A strong ETag, with its quotes.
    pub tag: &'static str,
}

fn make_file(kind: Kind, text: &'static str, tag: &'static str) -> File {
    File { kind, text, tag }
}

/// The file at this path, as the path of a request is spelled.
pub fn file_at(path: &str) -> Option<File>
    ensures { IsSome result → IsTrue (is_file path.now) }
{
    match path {
        "/" => Some(make_file(Kind::Html, INDEX, INDEX_TAG)),
        "/style.css" => Some(make_file(Kind::Style, STYLE, STYLE_TAG)),
        "/app.js" => Some(make_file(Kind::Script, APP, APP_TAG)),
        "/map.js" => Some(make_file(Kind::Script, MAP, MAP_TAG)),
        "/words.js" => Some(make_file(Kind::Script, WORDS, WORDS_TAG)),
        "/icon.svg" => Some(make_file(Kind::Picture, ICON, ICON_TAG)),
        _ => None,
    }
}
