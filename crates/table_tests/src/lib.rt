//! Tests of tables of summaries, and nothing else.
#![tactic(auto)]

#[cfg(test)]
mod answers;
#[cfg(test)]
mod chains;
#[cfg(test)]
mod listed;
#[cfg(test)]
mod made;
