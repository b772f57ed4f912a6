//! Tests of boards and of those who work at them, and nothing else.
#![tactic(auto)]

#[cfg(test)]
mod beginnings;
#[cfg(test)]
mod ends;
#[cfg(test)]
mod kept;
#[cfg(test)]
mod musts;
#[cfg(test)]
mod orders;
#[cfg(test)]
mod origins;
#[cfg(test)]
mod play;
#[cfg(test)]
mod programs;
#[cfg(test)]
mod reports;
#[cfg(test)]
mod stops;
