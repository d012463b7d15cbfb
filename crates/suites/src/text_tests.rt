//! Tests of texts: a table of what is asked of ranges of small ones, and ranges that are kept.

mod asking;
mod tables;
mod weak;
