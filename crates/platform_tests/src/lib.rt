//! Tests of the platform's core over a keeper in memory. It has no code of its own.
#![tactic(auto)]

#[cfg(test)]
mod acting;
#[cfg(test)]
mod chance;
#[cfg(test)]
mod journaling;
#[cfg(test)]
mod tests;
#[cfg(test)]
mod turning;
