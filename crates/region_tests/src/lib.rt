//! Tests of partitions, trails, calls and states, and nothing else.
#![tactic(auto)]

#[cfg(test)]
mod calls;
#[cfg(test)]
mod exchanged;
#[cfg(test)]
mod partitions;
#[cfg(test)]
mod played;
#[cfg(test)]
mod rests;
#[cfg(test)]
mod states;
#[cfg(test)]
mod trails;
