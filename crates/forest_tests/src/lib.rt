//! Tests of query forests, and nothing else.
#![tactic(auto)]

#[cfg(test)]
mod calls;
#[cfg(test)]
mod cases;
#[cfg(test)]
mod model;
#[cfg(test)]
mod play;
#[cfg(test)]
mod random;
#[cfg(test)]
mod schedules;
