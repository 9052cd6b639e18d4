//! Tests that cross crates: worked sessions, byte for byte with their statuses, and sources and sinks
//! that fail. It has no code besides.
#![tactic(auto)]

#[cfg(test)]
mod costs;
#[cfg(test)]
mod edge;
#[cfg(test)]
mod faults;
#[cfg(test)]
mod idle;
#[cfg(test)]
mod long;
#[cfg(test)]
mod orders;
#[cfg(test)]
mod recycled;
#[cfg(test)]
mod refused;
#[cfg(test)]
mod sessions;
#[cfg(test)]
mod support;
#[cfg(test)]
mod text;
