//! Words that text and JSON share.
//!
//! [`push_said`] appends in a few words what the data of an event say, and [`push_number`] the number
//! of an algorithm.

pub(crate) use self::forms::form_name;
pub use self::numbers::push_number;
pub(crate) use self::path::path_text;
pub(crate) use self::rules::rule_name;
pub use self::said::push_said;
pub(crate) use self::said::{push_bytes, push_more};
pub(crate) use self::types::push_type;

mod forms;
pub(crate) mod names;
mod numbers;
mod path;
pub(crate) mod printed;
mod rules;
mod said;
pub(crate) mod signatures;
pub(crate) mod tags;
pub(crate) mod texts;
mod types;
