ghost use Rattle.std.specs.Prelude.{◌≡◌, ◌++◌, ◌+◌, ◌*◌, ◌≤◌, ◌<◌, ◌^◌, length, IfSome, IfNone};
ghost use Rattle.uefi_base.specs.Buffer.{put_at, put_prefix};
ghost use Rattle.uefi_base.specs.Unaligned.{unit_bytes};
ghost use Rattle.uefi_base.specs.Views.{slice_units};
ghost use Rattle.uefi_path.specs.build.Writing.{WritesNode};
ghost use Rattle.uefi_node.specs.Layout.{IsValue, fields_bytes, rest_bytes, node_as};
ghost use Rattle.uefi_node.specs.private.Fields.{node_kind, parts_bytes, tail_bytes, WritesParts};

use crate::read::{NodeKind, NodeValue};
use uefi_base::UnalignedSlice;
use uefi_base::buffer::put;
use uefi_path::build::BuildError;
use uefi_path::{DevicePathHeader, DeviceSubType, DeviceType};

// The length of a header, and the greatest length of a node.
pub(crate) const HEADER_LENGTH: usize = 4;

const GREATEST_LENGTH: usize = 0xffff;

/// What follows the fields of a value.
#[derive(Clone, Copy)]
pub(crate) enum Tail<'a> {
    /// Bytes.
    Bytes(&'a [u8]),
    /// Parts, one after another.
    Parts(&'a [&'a [u8]]),
    /// Units of 16 bits.
    Units(UnalignedSlice<'a>),
}

impl Tail<'_> {
    /// Returns the length in bytes, or `None` if no node has so many.
    #[tactic(auto, using(crate::proofs::Parts::units_sized))]
    fn length(&self) -> Option<usize>
        ensures length { IfSome result (λ n. n ≡ length (tail_bytes self.now)) }
        ensures few { IfSome result (λ n. n ≤ 0xffff) }
        ensures many { IfNone result (0xffff < length (tail_bytes self.now)) }
    {
        match self {
            Tail::Bytes(bytes) if bytes.len() <= GREATEST_LENGTH => Some(bytes.len()),
            Tail::Parts(parts) => length_of(parts),
            Tail::Units(units) if units.len() <= GREATEST_LENGTH / 2 => Some(2 * units.len()),
            _ => None,
        }
    }

    /// Puts the bytes at an offset of a buffer that has room for them.
    #[tactic(auto, using(crate::proofs::Parts::units_sized))]
    fn put(&self, buffer: &mut [u8], offset: usize)
        requires { offset + length (tail_bytes self.now) ≤ length buffer.old }
        ensures { buffer.new ≡ put_at offset (tail_bytes self.now) buffer.old }
    {
        match self {
            Tail::Bytes(bytes) => put(buffer, offset, bytes),
            Tail::Parts(parts) => put_parts(buffer, offset, parts),
            Tail::Units(units) => put_units(buffer, offset, units),
        }
    }
}

/// Returns the length of all parts, or `None` if no node has so many bytes.
fn length_of(parts: &[&[u8]]) -> Option<usize>
    ensures length { IfSome result (λ n. n ≡ length (parts_bytes parts.now)) }
    ensures few { IfSome result (λ n. n ≤ 0xffff) }
    ensures many { IfNone result (0xffff < length (parts_bytes parts.now)) }
{
    match parts {
        [] => Some(0),
        [part, others @ ..] => {
            let after = length_of(others)?;
            if part.len() > GREATEST_LENGTH - after {
                return None;
            }
            Some(part.len() + after)
        }
    }
}

/// Puts units, two bytes each, little-endian, at an offset of a buffer that has room for them.
#[tactic(auto, using(uefi_base::proofs::UnitsPut::units_put))]
fn put_units(buffer: &mut [u8], offset: usize, units: &UnalignedSlice<'_>)
    requires { offset + 2 * length (slice_units units.now) ≤ length buffer.old }
    ensures { buffer.new ≡ put_at offset (unit_bytes (slice_units units.now)) buffer.old }
{
    for i in 0..units.len() {
        let unit = units.get(i).unwrap_or(0);
        put(buffer, offset + 2 * i, &unit.to_le_bytes());
    }
}

/// Puts the parts, one after another, at an offset of a buffer that has room for them.
fn put_parts(buffer: &mut [u8], offset: usize, parts: &[&[u8]])
    requires { offset + length (parts_bytes parts.now) ≤ length buffer.old }
    ensures { buffer.new ≡ put_at offset (parts_bytes parts.now) buffer.old }
{
    if let [part, others @ ..] = parts {
        put(buffer, offset, part);
        put_parts(buffer, offset + part.len(), others);
    }
}

/// Returns the bytes of the parts, one after another.
pub(crate) fn joined<const N: usize>(parts: &[&[u8]]) -> [u8; N]
    requires { length (parts_bytes parts.now) ≡ N }
    ensures { result ≡ parts_bytes parts.now }
{
    let mut bytes = [0; N];
    put_parts(&mut bytes, 0, parts);
    bytes
}

/// Writes the node of a value, which has these fields and this tail.
pub(crate) fn write_node<'a, T: NodeValue<'a>>(
    buffer: &mut [u8],
    kind: NodeKind,
    value: &T,
    fields: &[u8],
    tail: Tail<'_>,
) -> Result<usize, BuildError>
    requires kind { kind ≡ node_kind T.layout }
    requires value { IsValue T.layout value.now }
    requires fields { fields.now ≡ fields_bytes T.layout.fields value.now }
    requires few { length fields.now < 2 ^ 16 }
    requires tail { tail_bytes tail ≡ rest_bytes T.layout.rest value.now }
    ensures { WritesNode (IsValue T.layout value.now) (node_as T.layout value.now)
        buffer.old buffer.new result }
{
    let _value = value;
    write_parts(buffer, kind.full_type, fields, &tail)
}

/// Writes the node with this type and subtype, whose data are the fields and then the tail.
fn write_parts(
    buffer: &mut [u8],
    full_type: (DeviceType, DeviceSubType),
    fields: &[u8],
    tail: &Tail<'_>,
) -> Result<usize, BuildError>
    requires { length fields.now < 2 ^ 16 }
    ensures { WritesParts full_type.0.0 full_type.1.0 fields.now (tail_bytes tail.now)
        buffer.old buffer.new result }
{
    let Some(after) = tail.length() else {
        return Err(BuildError::NodeTooBig);
    };
    let length = HEADER_LENGTH + fields.len() + after;
    if length > GREATEST_LENGTH {
        return Err(BuildError::NodeTooBig);
    }
    if buffer.len() < length {
        return Err(BuildError::BufferTooSmall(length));
    }
    let (device_type, sub_type) = full_type;
    let header = DevicePathHeader::new(device_type, sub_type, length as u16);
    put_node(buffer, header.to_bytes(), fields, tail);
    Ok(length)
}

/// Puts a node at the start of a buffer that has room for it: its header, its fields and its tail.
#[tactic(auto, using(crate::proofs::Parts::node_put))]
fn put_node(buffer: &mut [u8], header: [u8; 4], fields: &[u8], tail: &Tail<'_>)
    requires { 4 + (length fields.now + length (tail_bytes tail.now)) ≤ length buffer.old }
    ensures { buffer.new ≡ put_prefix (header ++ (fields.now ++ tail_bytes tail.now)) buffer.old }
{
    put(buffer, 0, &header);
    put(buffer, HEADER_LENGTH, fields);
    tail.put(buffer, HEADER_LENGTH + fields.len());
}
