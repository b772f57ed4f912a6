//! Tests of what is kept of a program that was edited, and nothing else.
#![tactic(auto)]

#[cfg(test)]
mod edits;
#[cfg(test)]
mod keeping;
#[cfg(test)]
mod made;
