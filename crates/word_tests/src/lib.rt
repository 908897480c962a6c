//! Tests by words: what a run writes and how it ends. Each expected text was typed from its row, or worked out by hand. Beside them
//! what words alone can't reach: inputs in pieces, and worlds by their events.
#![tactic(auto)]

#[cfg(test)]
mod faults;
#[cfg(test)]
mod fences;
#[cfg(test)]
mod gateway_events;
#[cfg(test)]
mod gateways;
#[cfg(test)]
mod inputs;
#[cfg(test)]
mod no_memory;
#[cfg(test)]
mod orders;
#[cfg(test)]
mod rehearsals;
#[cfg(test)]
mod relays;
#[cfg(test)]
mod rows;
#[cfg(test)]
mod scene;
#[cfg(test)]
mod views;
#[cfg(test)]
mod words;
#[cfg(test)]
mod world_rows;
