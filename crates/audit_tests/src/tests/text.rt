//! How names are displayed.

mod names;
