//! Examples of callers: what a caller in another crate learns from public contracts alone.
//!
//! Begin with [`contracts`], which has a function of one's own over each reader. Each function here
//! calls a library of this repository and ensures what it then knows of its whole input. The proofs
//! cite no proof of a library. Some of the functions are the examples in the documentation of the
//! libraries.
#![tactic(auto)]

pub mod base;
pub mod configuration;
pub mod contracts;
pub mod digest_logs;
pub mod errors;
pub mod events;
pub mod flags;
pub mod full_map;
pub mod laws;
pub mod load_option;
pub mod logs;
pub mod map;
pub mod node;
pub mod path;
pub mod path_text;
pub mod records;
pub mod resources;
pub mod time;
pub mod volumes;
pub mod whole_logs;
