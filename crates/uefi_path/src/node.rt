ghost use Rattle.std.specs.Prelude.{◌≡◌, ◌↔◌, ◌+◌, length, IsTrue, nat_eq, Some};
ghost use Rattle.std.specs.Cmp.{partial_equiv_from_equiv, on_per, on_equiv};
ghost use Rattle.std.specs.Cmp.Lexicographic.{pointwise, nat_list_eq_equiv};
ghost use Rattle.uefi_path.specs.Header.{header_length};
ghost use Rattle.uefi_path.specs.Node.{encoding, IsEndEntire};
ghost use Rattle.uefi_path.specs.private.Encoding.{IsEncodingOfNode, EncodesNode};
ghost use Rattle.uefi_path.specs.private.OneNode.{EncodesNode-prop};
ghost use Rattle.uefi_path.specs.Reading.{ReadsNode};

use crate::device_type::{DeviceSubType, DeviceType};
use crate::error::ByteConversionError;
use crate::header::{DEVICE_TYPE_OFFSET, HEADER_LENGTH, LENGTH_OFFSET, SUB_TYPE_OFFSET};
use crate::walk::split_node;
use std::fmt;
use uefi_base::little_endian::u16_at;

/// One node of a device path (UEFI 2.10, 10.3.1): a type, a subtype and data.
///
/// | offset | bytes | field |
/// |---|---|---|
/// | 0 | 1 | type |
/// | 1 | 1 | subtype |
/// | 2 | 2 | length of the whole node in bytes, little-endian, 4 to 65535 |
/// | 4 | length - 4 | data |
///
/// A view: it borrows the bytes that it was read from, and what it returns lives as long as they
/// do.
#[derive(Clone, Copy)]
pub struct DevicePathNode<'a> {
    bytes: &'a [u8],
    pub ghost node: { EncodesNode bytes.now } by { EncodesNode-prop bytes.now },
}

impl<'a> DevicePathNode<'a> {
    ghost use Rattle.uefi_path.specs.Views.{node_of};

    /// Returns the node that `bytes`, which are known to be a node, encode.
    pub(crate) fn new_unchecked(bytes: &'a [u8]) -> DevicePathNode<'a>
        requires { EncodesNode bytes.now }
        ensures { IsEncodingOfNode bytes.now (node_of result) }
    {
        DevicePathNode { bytes }
    }

    /// Returns the type.
    pub fn device_type(&self) -> DeviceType
        ensures { result.0 ≡ (node_of self.now).device_type }
    {
        DeviceType(self.bytes[DEVICE_TYPE_OFFSET])
    }

    /// Returns the subtype.
    pub fn sub_type(&self) -> DeviceSubType
        ensures { result.0 ≡ (node_of self.now).sub_type }
    {
        DeviceSubType(self.bytes[SUB_TYPE_OFFSET])
    }

    /// Returns the type and the subtype.
    pub fn full_type(&self) -> (DeviceType, DeviceSubType)
        ensures device_type { result.0.0 ≡ (node_of self.now).device_type }
        ensures sub_type { result.1.0 ≡ (node_of self.now).sub_type }
    {
        (self.device_type(), self.sub_type())
    }

    /// Returns the length of the whole node in bytes, including the header: 4 to 65535.
    pub fn length(&self) -> u16
        ensures { result ≡ header_length + length (node_of self.now).payload }
    {
        u16_at(self.bytes, LENGTH_OFFSET)
    }

    /// Returns whether the node ends the whole path: whether it has the type END and the subtype
    /// END_ENTIRE (UEFI 2.10, 10.3.1), whatever its data is.
    pub fn is_end_entire(&self) -> bool
        ensures { IsTrue result ↔ IsEndEntire (node_of self.now) }
    {
        self.full_type() == (DeviceType::END, DeviceSubType::END_ENTIRE)
    }

    /// Returns the data: the bytes after the four header bytes, at most 65531.
    pub fn data(&self) -> &'a [u8]
        ensures { result.now ≡ (node_of self.now).payload }
    {
        &self.bytes[HEADER_LENGTH..]
    }

    /// Returns all bytes of the node, including the header.
    pub fn as_bytes(&self) -> &'a [u8]
        ensures { result.now ≡ encoding (node_of self.now) }
    {
        self.bytes
    }
}

/// Reads the node that the bytes start with, and ignores the bytes after it.
///
/// # Errors
///
/// [`ByteConversionError::InvalidLength`] if no prefix of the bytes is a node: if there are fewer
/// than four bytes, or if the length that the header states is below 4 or beyond the end of the
/// bytes.
impl<'a> TryFrom<&'a [u8]> for DevicePathNode<'a> {
    ghost use Rattle.uefi_path.specs.Views.{node_of};

    type Error = ByteConversionError;

    ghost try_from_gives = { λ bytes read. ReadsNode node_of bytes.now read };

    fn try_from(bytes: &'a [u8]) -> Result<DevicePathNode<'a>, ByteConversionError> {
        let (node, _) = split_node(bytes)?;
        Ok(node)
    }
}

/// Two nodes are equal if all their bytes are.
impl<'a> PartialEq for DevicePathNode<'a> {
    ghost use Rattle.uefi_path.specs.Views.{node_bytes};

    ghost eq = { λ x y. pointwise nat_eq (node_bytes x) (node_bytes y) };

    ghost laws = { on_per node_bytes (partial_equiv_from_equiv nat_list_eq_equiv) };

    fn eq(&self, other: &Self) -> bool {
        self.as_bytes() == other.as_bytes()
    }
}

impl<'a> Eq for DevicePathNode<'a> {
    ghost use Rattle.uefi_path.specs.Views.{node_bytes};

    ghost laws = { on_equiv node_bytes nat_list_eq_equiv };
}

// Left out of rust/: there a node displays its text.
/// Writes `<device path node: N bytes>`, where N is the length of the data in decimal.
impl<'a> fmt::Display for DevicePathNode<'a> {
    ghost use Rattle.uefi_path.specs.Texts.{node_text};

    ghost output = { λ view. Some (node_text view) };

    fn fmt<W: fmt::Write>(&self, f: &mut fmt::Formatter<W>) -> fmt::Result {
        let length = self.data().len();
        write!(f, "<device path node: {length} bytes>")
    }
}
