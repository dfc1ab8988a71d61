ghost use Rattle.std.specs.Prelude.{◌≡◌, [], ◌∷◌, ◌++◌, ◌*◌, ◌^◌, ◌<◌, ◌≤◌, length, IfOk, nat_eq, Some};
ghost use Rattle.std.specs.Cmp.{partial_equiv_from_equiv, on_per, on_equiv};
ghost use Rattle.std.specs.Cmp.Lexicographic.{pointwise, nat_list_eq_equiv};
ghost use Rattle.uefi_path.specs.Header.{header_length};
ghost use Rattle.uefi_path.specs.Node.{joined, IsEndEntire};
ghost use Rattle.uefi_path.specs.Path.{IsPath, AreInstances, all_but_last};
ghost use Rattle.uefi_path.specs.private.Encoding.{IsEncodingOfNodes, EncodesPath};
ghost use Rattle.uefi_path.specs.private.OnePath.{EncodesPath-prop};
ghost use Rattle.uefi_path.specs.Reading.{ReadsPath};

use crate::boxed::BoxedDevicePath;
use crate::error::ByteConversionError;
use crate::instance_iter::DevicePathInstanceIterator;
use crate::node::DevicePathNode;
use crate::node_iter::DevicePathNodeIterator;
use crate::walk::{StopCondition, end_node, nodes_before_end, split_nodes};
use std::alloc::{AllocError, Allocator};
use std::fmt;

/// A device path (UEFI 2.10, 10.2): nodes of which only the last is an end-entire node.
///
/// Its bytes are the encodings of its nodes, in order. A view: it borrows the bytes that it was
/// read from, and what it returns lives as long as they do.
///
/// # Examples
///
/// A node borrows the source bytes, and not the path or the iterator that returned it:
///
/// ```
/// use uefi_path::{ByteConversionError, DevicePath, DevicePathNode};
///
/// /// Returns the first node of the path that `bytes` start with, if a node precedes its end.
/// pub fn first_node<'a>(
///     bytes: &'a [u8],
/// ) -> Result<Option<DevicePathNode<'a>>, ByteConversionError> {
///     let path = DevicePath::try_from(bytes)?;
///     Ok(path.node_iter().next())
/// }
/// ```
///
/// An iterator works with `for`, `collect` and `count`:
///
/// ```
/// use std::alloc::{AllocError, Global};
/// use uefi_path::DevicePath;
///
/// /// Returns the data of all nodes before the end-entire one, joined.
/// pub fn all_data(alloc: Global, path: &DevicePath<'_>) -> Result<Vec<u8>, AllocError> {
///     let mut bytes = Vec::new(alloc);
///     for node in path.node_iter() {
///         bytes.extend_from_slice(node.data())?;
///     }
///     Ok(bytes)
/// }
/// ```
///
/// Both functions are proved in `crates/uefi_examples/src/path.rt`, which shows their contracts.
#[derive(Clone, Copy)]
pub struct DevicePath<'a> {
    bytes: &'a [u8],
    pub ghost nodes: { EncodesPath bytes.now } by { EncodesPath-prop bytes.now },
}

#[tactic(auto, using(crate::specs::private::OnePath::same_nodes, crate::proofs::Counts::few_before_end))]
impl<'a> DevicePath<'a> {
    ghost use Rattle.uefi_path.specs.Views.{node_of, path_nodes, nodes_left, instances_left, boxed_nodes};

    /// Returns the path that `bytes`, which are known to be a path, encode.
    pub(crate) fn new_unchecked(bytes: &'a [u8]) -> DevicePath<'a>
        requires { EncodesPath bytes.now }
        ensures { IsEncodingOfNodes IsEndEntire bytes.now (path_nodes result) }
    {
        DevicePath { bytes }
    }

    /// Returns an iterator over the instances of the path, in order.
    #[tactic(auto, using(crate::proofs::Cuts::are_instances, crate::proofs::Counts::few_instances))]
    pub fn instance_iter(&self) -> DevicePathInstanceIterator<'a>
        ensures instances { AreInstances (instances_left result) (path_nodes self.now) }
        ensures countable { length (instances_left result) < 2 ^ 64 }
    {
        DevicePathInstanceIterator::new(self.bytes)
    }

    /// Returns an iterator over the nodes before the end-entire one, in order.
    pub fn node_iter(&self) -> DevicePathNodeIterator<'a>
        ensures nodes { nodes_left result ≡ all_but_last (path_nodes self.now) }
        ensures countable { length (nodes_left result) < 2 ^ 64 }
    {
        DevicePathNodeIterator::new(self.bytes, StopCondition::EndEntireNode)
    }

    /// Returns the bytes of the nodes before the end-entire one.
    pub fn nodes(&self) -> &'a [u8]
        ensures { result.now ≡ joined (all_but_last (path_nodes self.now)) }
    {
        nodes_before_end(self.bytes, StopCondition::EndEntireNode)
    }

    /// Returns the end-entire node, which is the last.
    pub fn end_node(&self) -> DevicePathNode<'a>
        ensures { path_nodes self.now ≡ all_but_last (path_nodes self.now) ++ (node_of result ∷ []) }
    {
        end_node(self.bytes, StopCondition::EndEntireNode)
    }

    /// Copies the path into an allocation of its own.
    ///
    /// # Errors
    ///
    /// [`AllocError`] if an allocation fails.
    pub fn to_boxed<A: Allocator>(&self, alloc: A) -> Result<BoxedDevicePath<A>, AllocError>
        ensures { IfOk result (λ boxed. boxed_nodes boxed ≡ path_nodes self.now) }
    {
        let bytes = Vec::from_slice(alloc, self.bytes)?;
        Ok(BoxedDevicePath::new_unchecked(bytes))
    }

    /// Returns all bytes of the path, including those of the end-entire node. A path of n bytes has
    /// at most n / 4 nodes.
    #[tactic(auto, using(crate::proofs::Counts::four_bytes_each))]
    pub fn as_bytes(&self) -> &'a [u8]
        ensures bytes { result.now ≡ joined (path_nodes self.now) }
        ensures path { IsPath (path_nodes self.now) }
        ensures few_nodes { header_length * length (path_nodes self.now) ≤ length result.now }
    {
        self.bytes
    }
}

/// Reads the path that the bytes start with, and ignores the bytes after it.
///
/// # Errors
///
/// [`ByteConversionError::InvalidLength`] if no prefix of the bytes is a path: if, before the end
/// of an end-entire node, fewer than four bytes are left, or a header states a length that is below
/// 4 or beyond the end of the bytes.
impl<'a> TryFrom<&'a [u8]> for DevicePath<'a> {
    ghost use Rattle.uefi_path.specs.Views.{path_nodes};

    type Error = ByteConversionError;

    ghost try_from_gives = { λ bytes read. ReadsPath path_nodes bytes.now read };

    #[tactic(auto, using(crate::specs::private::OnePath::one_path))]
    fn try_from(bytes: &'a [u8]) -> Result<DevicePath<'a>, ByteConversionError> {
        let (path, _) = split_nodes(bytes, StopCondition::EndEntireNode)?;
        Ok(DevicePath::new_unchecked(path))
    }
}

/// Two paths are equal if all their bytes are.
impl<'a> PartialEq for DevicePath<'a> {
    ghost use Rattle.uefi_path.specs.Views.{path_bytes};

    ghost eq = { λ x y. pointwise nat_eq (path_bytes x) (path_bytes y) };

    ghost laws = { on_per path_bytes (partial_equiv_from_equiv nat_list_eq_equiv) };

    fn eq(&self, other: &Self) -> bool {
        self.as_bytes() == other.as_bytes()
    }
}

impl<'a> Eq for DevicePath<'a> {
    ghost use Rattle.uefi_path.specs.Views.{path_bytes};

    ghost laws = { on_equiv path_bytes nat_list_eq_equiv };
}

// Left out of rust/: there a path displays its text.
/// Writes `<device path: N bytes>`, where N is the length of the whole path in decimal.
impl<'a> fmt::Display for DevicePath<'a> {
    ghost use Rattle.uefi_path.specs.Texts.{path_text};

    ghost output = { λ view. Some (path_text view) };

    fn fmt<W: fmt::Write>(&self, f: &mut fmt::Formatter<W>) -> fmt::Result {
        let length = self.bytes.len();
        write!(f, "<device path: {length} bytes>")
    }
}
