//! UEFI configuration strings, read from texts (UEFI 2.10, 35.2.1 "String Syntax").
//!
//! A configuration string says what a driver's form holds: pairs of keys and values in hex, joined
//! by `&`. A text has any number of configurations, one after another, of which some may be wrong.
//!
//! Begin with [`ConfigurationString::from_str`] for the first configuration of a text, with
//! [`MultiConfigurationStringIter`] for one after another, or with [`parse_all`] for all of them.
//! Each gives a configuration that owns its memory, or the error of a group of pairs in which one
//! is missing or wrong. [`ConfigurationStringIter`] gives the pairs themselves, and takes no
//! memory. [`next_pair`] is one step of it, over bytes.
//!
//! The contracts speak of the one cut of a text into groups: `specs/Slots.antt` says which pair has
//! to come next, `specs/Group.antt` what a group is, and `specs/Cut.antt` what the cut is. That
//! each text has exactly one is a law.
#![tactic(auto)]

pub use self::configuration::{ConfigurationString, ConfigurationStringElement, NvPair};
pub use self::error::{ConfigHdrSection, ParseError};
pub use self::filling::fill_from_hex;
pub use self::hex::HexBytes;
pub use self::multi::{MultiConfigurationStringIter, parse_all};
pub use self::pairs::{ConfigurationStringIter, next_pair};

mod configuration;
mod digit;
mod error;
mod filling;
mod finding;
mod hex;
pub mod keys;
pub mod laws;
mod multi;
mod pairs;
mod peeked;
mod reading;
mod taking;
mod values;
