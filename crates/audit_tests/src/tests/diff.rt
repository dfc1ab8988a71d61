//! What changed between two logs.

mod change;
