//! Tests of shortest paths, and nothing else.
#![tactic(auto)]

#[cfg(test)]
mod routes;
