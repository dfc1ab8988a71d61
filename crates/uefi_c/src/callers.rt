//! Callers of the exported functions: what the loops of a C program over them find.
//!
//! Each loop calls its function from the start while it returns success. What it finds is proved to
//! be the list that the library's iterator gives.

mod instances;
mod log;
mod log1;
mod log2;
mod map;
mod nodes;
mod pairs;
mod selections;
mod signatures;
mod tagged;

pub use self::instances::instances_by_steps;
pub use self::log::log_by_steps;
pub use self::log1::log1_by_steps;
pub use self::log2::{digests_by_steps, log2_after_event_by_steps, log2_by_steps};
pub use self::map::entries_by_steps;
pub use self::nodes::nodes_by_steps;
pub use self::pairs::pairs_by_steps;
pub use self::selections::selections_by_steps;
pub use self::signatures::signatures_by_steps;
pub use self::tagged::tagged_by_steps;
