//! A function of one's own over each reader, as docs/CONTRACTS.md shows them: each file is one
//! example, with all that it imports, and can be copied as it stands. `calls` has the lines by which
//! a program calls them over a file.

pub mod calls;
pub mod configuration;
pub mod file;
pub mod map;
pub mod partition;
pub mod path;
pub mod pcr;
pub mod resources;
pub mod time;
