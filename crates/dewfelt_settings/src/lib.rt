//! What `dewfelt` is told: by the words of its command line and by the text of dewfelt.toml.
#![tactic(auto)]

mod choices;
mod command;
mod file;
mod form;
mod help;
mod host;
mod http;
mod key;
mod number;
mod phone;
mod settings;
mod wrong;

pub use choices::Choices;
pub use command::{Command, read_command};
pub use file::read_file;
pub use form::Form;
pub use help::{HELP, VERSION};
pub use host::{HOST_ROOM, HostName};
pub use http::Http;
pub use key::Key;
pub use number::{Count, Seconds};
pub use phone::phone_of;
pub use settings::Settings;
pub use wrong::{Cause, Wrong};
