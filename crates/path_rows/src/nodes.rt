use rows::{hex_digits, quoted};
use std::alloc::Global;
use test_support::bytes;
use uefi_path::{
    ByteConversionError, DevicePath, DevicePathHeader, DevicePathNode, DeviceSubType, DeviceType,
    LoadedImageDevicePath,
};

/// Returns the node that the bytes begin with: its type, its subtype, its length, its data, all its
/// bytes, and whether it ends a path.
pub(crate) fn node(alloc: Global, input: &str) -> Option<String> {
    let input = bytes(alloc, input).ok()?;
    let node = match DevicePathNode::try_from(input.as_slice()) {
        Ok(node) => node,
        Err(error) => return format!(in alloc; "Err({error:?})").ok(),
    };
    if node.full_type() != (node.device_type(), node.sub_type()) {
        return format!(in alloc; "another full type").ok();
    }
    let (device_type, sub_type) = (node.device_type().0, node.sub_type().0);
    let (length, ends) = (node.length(), node.is_end_entire());
    let data = hex_digits(alloc, node.data()).ok()?;
    let whole = hex_digits(alloc, node.as_bytes()).ok()?;
    format!(in alloc;
        "Ok(type: {device_type}, sub_type: {sub_type}, length: {length}, data: {data}, \
         bytes: {whole}, ends a path: {ends})"
    )
    .ok()
}

/// Returns what the node that the bytes begin with is displayed as.
pub(crate) fn node_text(alloc: Global, input: &str) -> Option<String> {
    let input = bytes(alloc, input).ok()?;
    let node = DevicePathNode::try_from(input.as_slice()).ok()?;
    let text = format!(in alloc; "{node}").ok()?;
    quoted(alloc, text.as_str()).ok()
}

/// The type, the subtype and the length of a header.
type Header = (u8, u8, u16);

/// Returns the fields of the header that the bytes begin with, and whether they make that header
/// and its bytes.
pub(crate) fn header(input: &[u8]) -> Result<(Header, [bool; 2]), ByteConversionError> {
    let header = DevicePathHeader::try_from(input)?;
    let (device_type, sub_type) = (header.device_type(), header.sub_type());
    let made = DevicePathHeader::new(device_type, sub_type, header.length());
    let bytes = made.to_bytes();
    let are_same = [made == header, input.starts_with(&bytes)];
    Ok(((device_type.0, sub_type.0, header.length()), are_same))
}

/// Returns whether the headers that two inputs begin with are equal.
pub(crate) fn equal_headers(one: &[u8], other: &[u8]) -> Option<bool> {
    let one = DevicePathHeader::try_from(one).ok()?;
    Some(one == DevicePathHeader::try_from(other).ok()?)
}

/// Returns whether the paths that two inputs begin with, their first nodes and their first instances
/// are equal, in this order.
pub(crate) fn equal_views(one: &[u8], other: &[u8]) -> Option<[bool; 3]> {
    let one = DevicePath::try_from(one).ok()?;
    let other = DevicePath::try_from(other).ok()?;
    Some([
        one == other,
        one.node_iter().next() == other.node_iter().next(),
        one.instance_iter().next() == other.instance_iter().next(),
    ])
}

/// Returns whether the path of a loaded image gives the path back that it is of.
pub(crate) fn loaded_image(input: &[u8]) -> Option<bool> {
    let path = DevicePath::try_from(input).ok()?;
    Some(LoadedImageDevicePath::new(path).device_path() == path)
}

/// Returns the name of the type that a byte is.
pub(crate) fn type_name(input: &[u8]) -> Option<&'static str> {
    DeviceType(*input.first()?).name()
}

/// Returns what `Debug` prints of the type that a byte is.
pub(crate) fn type_debug(alloc: Global, input: &str) -> Option<String> {
    let device_type = DeviceType(bytes(alloc, input).ok()?.first().copied()?);
    format!(in alloc; "{device_type:?}").ok()
}

/// Returns whether a type comes before another one, and whether the subtype of its number does.
pub(crate) fn is_less(one: &[u8], other: &[u8]) -> Option<[bool; 2]> {
    let (one, other) = (*one.first()?, *other.first()?);
    Some([
        DeviceType(one) < DeviceType(other),
        DeviceSubType(one) < DeviceSubType(other),
    ])
}
