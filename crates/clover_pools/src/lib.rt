//! Tests that cross crates below the machine: the tasks of the metadata server and the calls of a client, each by its
//! own crate's calls, over one plain pool with a server. Besides it has what they tell apart of a node's turns.
#![tactic(auto)]

#[cfg(test)]
mod bindings;
#[cfg(test)]
mod calls;
#[cfg(test)]
mod grants;
#[cfg(test)]
mod recycling;
#[cfg(test)]
mod served;
mod turns;
#[cfg(test)]
mod whole_calls;
