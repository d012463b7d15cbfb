//! Tests of trees, texts and queries, and what they are made of.
#![tactic(auto)]

#[cfg(test)]
mod query_tests;
#[cfg(test)]
mod sketches;
#[cfg(test)]
mod text_tests;
#[cfg(test)]
mod tree_tests;
