//! Tests of workers in rounds, and nothing else.
#![tactic(auto)]

#[cfg(test)]
mod gates;
#[cfg(test)]
mod late;
#[cfg(test)]
mod programs;
#[cfg(test)]
mod side_by_side;
#[cfg(test)]
mod verdicts;
