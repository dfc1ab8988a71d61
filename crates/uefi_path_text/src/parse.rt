//! Paths from text (UEFI 2.10, 10.6).

pub use self::error::FromTextError;
pub use self::path::{from_text, from_text_in, write_from_text};

mod argument;
mod call;
mod check;
mod cut;
mod data;
mod error;
mod excess;
mod fault;
mod file_name;
mod ipv4;
mod ipv6;
mod nodes;
mod number;
mod path;
mod piece;
mod place;
mod reading;
mod repeated;
mod shape;
mod text_node;
mod value;
mod words;
