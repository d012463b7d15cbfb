//! Tests of trees: what walks ask, look-ups, and what handlers see.

mod asking;
mod counted;
mod walks;
