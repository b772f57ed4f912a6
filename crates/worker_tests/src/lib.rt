//! Tests of workers at one board, and nothing else.
#![tactic(auto)]

#[cfg(test)]
mod at_once;
#[cfg(test)]
mod gates;
#[cfg(test)]
mod late;
#[cfg(test)]
mod passes;
#[cfg(test)]
mod programs;
#[cfg(test)]
mod verdicts;
