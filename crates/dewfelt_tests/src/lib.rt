//! Tests of what `dewfelt` has beside its serving core.
#![tactic(auto)]

#[cfg(test)]
mod beside_tests;
#[cfg(test)]
mod clerk_tests;
#[cfg(test)]
mod command_tests;
#[cfg(test)]
mod copy_tests;
#[cfg(test)]
mod desk;
#[cfg(test)]
mod log_tests;
#[cfg(test)]
mod request_tests;
#[cfg(test)]
mod settings_tests;
