ghost use Rattle.std.specs.Prelude.{◌≡◌, ◌↔◌, ◌+◌, List, [], ◌∷◌, ◌++◌, length, map, flat_map, slice_get, option_map, string_bytes, IsTrue, IfOk, OnOk, OnErr};
ghost use Rattle.uefi_base.specs.Buffer.{put_at};
ghost use Rattle.uefi_base.specs.Prefix.{IsPrefix};
ghost use Rattle.uefi_path.specs.Node.{Node, encoding, joined, end_entire};
ghost use Rattle.uefi_path.specs.Path.{IsPath, HasPath, AreInstances, all_but_last};
ghost use Rattle.uefi_path.specs.Texts.{node_text};
ghost use Rattle.uefi_path.specs.Views.{node_of, header_of, path_nodes, path_bytes, instance_nodes, boxed_nodes};

use std::alloc::{AllocError, Global};
use uefi_path::build::{BuildError, DevicePathBuilder, DevicePathVecBuilder};
use uefi_path::laws::one_front;
use uefi_path::{
    BoxedDevicePath, ByteConversionError, DevicePath, DevicePathHeader, DevicePathInstance,
    DevicePathNode,
};

/// Returns the first node of the path that `bytes` start with, if a node precedes its end.
pub fn first_node<'a>(bytes: &'a [u8]) -> Result<Option<DevicePathNode<'a>>, ByteConversionError>
    ensures node { IfOk result (λ node. (nodes : List Node)
        × IsPath nodes × IsPrefix (joined nodes) bytes.now
        × (option_map node_of node ≡ slice_get (all_but_last nodes) 0)) }
    ensures none { OnErr result (¬ HasPath bytes.now) }
{
    let path = DevicePath::try_from(bytes)?;
    Ok(path.node_iter().next())
}

/// Returns the data of that node. Like the node, the data borrow `bytes` alone, and outlive the
/// path, the iterator and the node.
pub fn first_data<'a>(bytes: &'a [u8]) -> Result<Option<&'a [u8]>, ByteConversionError>
    ensures payload { IfOk result (λ found. (nodes : List Node)
        × IsPath nodes × IsPrefix (joined nodes) bytes.now
        × (option_map (λ part. part.now) found
        ≡ option_map (λ node. node.payload) (slice_get (all_but_last nodes) 0))) }
    ensures none { OnErr result (¬ HasPath bytes.now) }
{
    match first_node(bytes)? {
        Some(node) => Ok(Some(node.data())),
        None => Ok(None),
    }
}

/// Returns all nodes of a path but the end-entire one, by `collect`.
pub fn all_nodes<'a>(
    alloc: Global,
    path: &DevicePath<'a>,
) -> Result<Vec<DevicePathNode<'a>>, AllocError>
    ensures { IfOk result (λ nodes. map node_of nodes.items ≡ all_but_last (path_nodes path.now)) }
{
    path.node_iter().collect(alloc)
}

/// Returns all instances of a path, by `collect`.
pub fn all_instances<'a>(
    alloc: Global,
    path: &DevicePath<'a>,
) -> Result<Vec<DevicePathInstance<'a>>, AllocError>
    ensures { IfOk result
        (λ all. AreInstances (map instance_nodes all.items) (path_nodes path.now)) }
{
    path.instance_iter().collect(alloc)
}

/// Returns the number of nodes before the end-entire one, by `count`.
pub fn node_count(path: &DevicePath<'_>) -> usize
    ensures { result ≡ length (all_but_last (path_nodes path.now)) }
{
    path.node_iter().count()
}

/// Returns the number of instances of a path, by `count`.
pub fn instance_count(path: &DevicePath<'_>) -> usize
    ensures { (instances : List (List Node))
        × AreInstances instances (path_nodes path.now) × (result ≡ length instances) }
{
    path.instance_iter().count()
}

/// Returns the number of nodes of an instance before its last, by `count`.
pub fn instance_node_count(instance: &DevicePathInstance<'_>) -> usize
    ensures { result ≡ length (all_but_last (instance_nodes instance.now)) }
{
    instance.node_iter().count()
}

/// Returns the data of all nodes before the end-entire one, joined, by `for`.
pub fn all_data(alloc: Global, path: &DevicePath<'_>) -> Result<Vec<u8>, AllocError>
    ensures { let nodes = all_but_last (path_nodes path.now) in
        IfOk result (λ bytes. bytes.items ≡ flat_map (λ node. node.payload) nodes) }
{
    let mut bytes = Vec::new(alloc);
    for node in path.node_iter() {
        bytes.extend_from_slice(node.data())?;
    }
    Ok(bytes)
}

/// Returns whether two paths are equal: whether all their bytes are.
pub fn is_same_path(path: &DevicePath<'_>, other: &DevicePath<'_>) -> bool
    ensures { IsTrue result ↔ (path_bytes path.now ≡ path_bytes other.now) }
{
    path == other
}

/// Returns whether two headers are equal: whether their types, subtypes and lengths are.
pub fn is_same_header(header: &DevicePathHeader, other: &DevicePathHeader) -> bool
    ensures { IsTrue result ↔ (header_of header.now ≡ header_of other.now) }
{
    header == other
}

/// Returns the text of a node.
pub fn node_label(alloc: Global, node: &DevicePathNode<'_>) -> Result<String, AllocError>
    ensures { IfOk result (λ text. string_bytes text ≡ node_text node.now) }
{
    node.to_string(alloc)
}

/// Returns whether a path is read back from its bytes, whatever follows them: always, unless an
/// allocation fails.
pub fn is_read_back(alloc: Global, path: &DevicePath<'_>, rest: &[u8]) -> Result<bool, AllocError>
    ensures { IfOk result (λ same. IsTrue same) }
{
    let mut bytes = Vec::from_slice(alloc, path.as_bytes())?;
    bytes.extend_from_slice(rest)?;
    let read = DevicePath::try_from(bytes.as_slice());
    Ok(read == Ok(*path))
}

/// Returns whether two paths are equal, and so are the bytes after them, where all bytes together
/// are the same: always.
pub fn have_same_parts(
    path: &DevicePath<'_>,
    rest: &[u8],
    other: &DevicePath<'_>,
    other_rest: &[u8],
) -> bool
    requires { path_bytes path.now ++ rest.now ≡ path_bytes other.now ++ other_rest.now }
    ensures { IsTrue result }
{
    one_front();
    path.as_bytes() == other.as_bytes() && rest == other_rest
}

/// Builds a path of the two nodes in the buffer.
pub fn path_of_two<'a>(
    buffer: &'a mut [u8],
    first: &DevicePathNode<'_>,
    second: &DevicePathNode<'_>,
) -> Result<DevicePath<'a>, BuildError>
    ensures { IfOk result (λ path. path_nodes path
        ≡ node_of first.now ∷ node_of second.now ∷ end_entire ∷ []) }
{
    DevicePathBuilder::with_buf(buffer)
        .push(first)?
        .push(second)?
        .finalize()
}

/// Builds a path of the node in a vector.
pub fn boxed_path_of(
    alloc: Global,
    node: &DevicePathNode<'_>,
) -> Result<BoxedDevicePath, BuildError>
    ensures { IfOk result (λ boxed. boxed_nodes boxed ≡ node_of node.now ∷ end_entire ∷ []) }
{
    DevicePathVecBuilder::new(alloc).push(node)?.finalize()
}

/// Writes a path of the node to the start of the buffer, and returns its length.
pub fn write_path_of(buffer: &mut [u8], node: &DevicePathNode<'_>) -> Result<usize, BuildError>
    ensures length { IfOk result (λ n. n ≡ length (encoding (node_of node.now)) + 4) }
    ensures written { OnOk result (buffer.new ≡ put_at (length (encoding (node_of node.now)))
        (encoding end_entire) (put_at 0 (encoding (node_of node.now)) buffer.old)) }
{
    let mut builder = DevicePathBuilder::with_buf(buffer);
    builder.push_node(node)?;
    builder.write_end()
}

/// Writes the node to the start of the buffer, if it fits, and returns whether it does.
pub fn push_if_it_fits(buffer: &mut [u8], node: &DevicePathNode<'_>) -> bool
    ensures fits { IsTrue result → buffer.new ≡ put_at 0 (encoding (node_of node.now)) buffer.old }
    ensures other { ¬ IsTrue result → buffer.new ≡ buffer.old }
{
    let mut builder = DevicePathBuilder::with_buf(buffer);
    builder.push_node(node).is_ok()
}
