//! The words of a command line: options with a value, phones, and the words of `platform`.
#![tactic(auto)]

mod option_words;
mod phone_digits;
mod platform_words;

pub use option_words::{only_option_value, option_pair, option_value};
pub use phone_digits::{phone_in, phone_with_digits};
pub use platform_words::PlatformWords;
