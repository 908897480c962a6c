//! Tests of the terminal's attempts over links.
#![tactic(auto)]

#[cfg(test)]
mod attempts;
#[cfg(test)]
mod reports;
#[cfg(test)]
mod setting;
