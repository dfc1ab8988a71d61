//! The readers, as functions for a driver in Rust to measure (`bench/run`).
//!
//! Each function reads the bytes with one reader and returns a sum over what it gave, wrapping at
//! 64 bits, which the driver compares with the sum of a reader of its own. Of speed nothing is
//! proved; the readers' contracts are those of their crates.
#![tactic(auto)]

mod config;
mod info;
mod log;
mod map;
mod path;
mod resources;
mod time;
