//! Tests of serving a listener's links in threads.
#![tactic(auto)]

#[cfg(test)]
mod rows;
#[cfg(test)]
mod runs;
#[cfg(test)]
mod waiting;
