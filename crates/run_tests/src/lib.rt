//! Tests of the commands of `smash`, and nothing else.
#![tactic(auto)]

#[cfg(test)]
mod commands;
