//! Tests of the lines of a rehearsal's script, and of the lines that it prints. Each was typed from the forms, or worked out by hand.
#![tactic(auto)]

#[cfg(test)]
mod entries;
#[cfg(test)]
mod events;
#[cfg(test)]
mod fixes;
