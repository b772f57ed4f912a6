//! Tests of slices and of what tables say, and nothing else.
#![tactic(auto)]

#[cfg(test)]
mod calls;
#[cfg(test)]
mod families;
#[cfg(test)]
mod holders;
#[cfg(test)]
mod learning;
#[cfg(test)]
mod made;
#[cfg(test)]
mod memos;
#[cfg(test)]
mod musts;
#[cfg(test)]
mod ready;
#[cfg(test)]
mod slices;
#[cfg(test)]
mod states;
#[cfg(test)]
mod tables;
