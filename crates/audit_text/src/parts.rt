//! What the data of an event say, as named parts.
//!
//! [`content_parts`] lists the parts of each content. JSON (`json/content.rt`) and an event's block of
//! lines (`text/events/parts.rt`) render that one list, so a new part is a line in the function that
//! lists it, and in its definition in `specs/parts/Contents.antt`.

pub(crate) use self::content::content_parts;
pub(crate) use self::firmware::header_parts;
pub(crate) use self::part::{Part, PartValue};

mod content;
mod firmware;
mod gpt;
mod part;
mod path;
mod signatures;
mod texts;
mod variable;
