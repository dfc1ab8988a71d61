ghost use Rattle.std.specs.Prelude.{Some};
ghost use Rattle.uefi_node.specs.Texts.{error_text};

use std::error::Error;
use std::fmt;

/// Why a node is no value of a type.
#[derive(Clone, Copy, PartialEq, Eq, Debug)]
pub enum NodeConversionError {
    /// The node has another type or subtype.
    DifferentType,
    /// No type of nodes has this type and subtype.
    UnsupportedType,
    /// The data have another length than the type has.
    Length,
    /// The data have the length, but not the form of the type.
    Form,
}

/// Writes what is wrong with the node, such as `a node of another type`.
impl fmt::Display for NodeConversionError {
    ghost output = { λ error. Some (error_text error) };

    fn fmt<W: fmt::Write>(&self, f: &mut fmt::Formatter<W>) -> fmt::Result {
        f.write_str(match self {
            NodeConversionError::DifferentType => "a node of another type",
            NodeConversionError::UnsupportedType => "a node of an unknown type",
            NodeConversionError::Length => "a length that no node of the type has",
            NodeConversionError::Form => "data that no node of the type has",
        })
    }
}

impl Error for NodeConversionError {}
