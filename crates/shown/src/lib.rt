//! Values as the lines of this project's programs show them.
//!
//! [`Hex`] and [`HexByte`] have two lower case hex digits for each byte, [`HexNumber`] has `0x` and
//! the digits of a number without leading zeros, and [`HexName`] four digits for each unit of a name.
//! [`gap_before`] is the space that comes before bytes, if there are any. [`ShownName`] displays a
//! text so that nothing in it is hidden, and [`ShownBytes`] one that isn't UTF-8. Nothing here
//! allocates memory.
//!
//! The contracts say which characters are written (`specs/`, a file for each module).
#![tactic(auto)]

pub use self::hex_name::HexName;
pub use self::hex_text::{Hex, HexByte, HexNumber, gap_before};
pub use self::name::{ShownBytes, ShownName, is_control};

mod hex_name;
mod hex_text;
mod name;
