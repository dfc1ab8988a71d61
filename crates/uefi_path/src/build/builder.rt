ghost use Rattle.std.specs.Prelude.{◌≡◌, ◌↔◌, ◌+◌, ◌≤◌, ⊤, Err, [], ◌∷◌, ◌++◌, length, take, IsOk, IsErr, IsTrue, IfOk, IfErr, OnOk, OnErr, MatchResult};
ghost use Rattle.std.specs.Borrow.{sem};
ghost use Rattle.uefi_base.specs.Buffer.{put_at};
ghost use Rattle.uefi_path.specs.Header.{header_length};
ghost use Rattle.uefi_path.specs.Node.{Fits, encoding, joined, IsEndEntire, end_entire};
ghost use Rattle.uefi_path.specs.Views.{path_nodes};
ghost use Rattle.uefi_path.specs.build.Pushing.{HasBufferFault, IsTooShortFor};
ghost use Rattle.uefi_path.specs.private.Encoding.{EncodesBefore, EncodesPath, IsEncodingBefore, IsEncodingOfNodes};
ghost use Rattle.uefi_path.specs.private.OnePath.{EncodesBefore-prop};

use crate::append::end_entire_bytes;
use crate::build::error::BuildError;
use crate::build::node::{BuildNode, is_end_entire};
use crate::header::HEADER_LENGTH;
use crate::path::DevicePath;
use uefi_base::buffer::put;

/// A path that is built in a buffer, node by node (UEFI 2.10, 10.2).
///
/// The nodes lie one after another at the start of the buffer. The bytes after them stay.
///
/// # Examples
///
/// The path borrows the buffer:
///
/// ```
/// use uefi_path::build::{BuildError, DevicePathBuilder};
/// use uefi_path::{DevicePath, DevicePathNode};
///
/// /// Builds a path of the two nodes in the buffer.
/// pub fn path_of_two<'a>(
///     buffer: &'a mut [u8],
///     first: &DevicePathNode<'_>,
///     second: &DevicePathNode<'_>,
/// ) -> Result<DevicePath<'a>, BuildError> {
///     DevicePathBuilder::with_buf(buffer)
///         .push(first)?
///         .push(second)?
///         .finalize()
/// }
/// ```
///
/// The function is proved in `crates/uefi_examples/src/path.rt`, which shows its contract.
#[derive(Drop)]
pub struct DevicePathBuilder<'a> {
    buffer: &'a mut [u8],
    end: usize,
    ghost within: { end ≤ length buffer.now },
    pub ghost nodes: { EncodesBefore (take end buffer.now) } by { EncodesBefore-prop (take end buffer.now) },
}

impl<'a> DevicePathBuilder<'a> {
    ghost use Rattle.uefi_path.specs.build.Views.{built_nodes, builder_bytes, built_length, BuiltEndsAs, StaysIfRefused, WritesTo, WriteToTheSame};

    /// Returns a builder of a path in the buffer, without a node.
    pub fn with_buf(buffer: &'a mut [u8]) -> DevicePathBuilder<'a>
        ensures nodes { built_nodes result ≡ [] }
        ensures bytes { builder_bytes result ≡ buffer.old }
        ensures same_buffer { WritesTo buffer.entry result }
    {
        DevicePathBuilder { buffer, end: 0 }
    }

    /// Writes the node after those that were pushed before, and returns the builder.
    ///
    /// # Errors
    ///
    /// Fails with the first of these errors that applies, and leaves every byte of the buffer
    /// unchanged:
    ///
    /// - [`BuildError::EndEntire`] if the node is an end-entire node.
    /// - [`BuildError::Form`] if no node of its type has the value.
    /// - [`BuildError::NodeTooBig`] if the node is longer than 65535 bytes.
    /// - [`BuildError::BufferTooSmall`] with the length of all nodes, including this one, if the
    ///   buffer is shorter.
    ///
    /// The builder is gone then. [`DevicePathBuilder::push_node`] keeps it. A caller whose own proof
    /// needs the bytes of the buffer calls that.
    pub fn push<N: BuildNode>(self, node: &N) -> Result<DevicePathBuilder<'a>, BuildError>
        ensures* unchanged_if_refused { sem 𝓛 (StaysIfRefused self.entry result) }
        ensures valid { OnOk result (N.is_valid node.now × Fits (N.node node.now)) }
        ensures accepted { OnOk result (¬ IsEndEntire (N.node node.now)) }
        ensures nodes { IfOk result (λ builder. built_nodes builder
            ≡ built_nodes self.entry ++ N.node node.now ∷ []) }
        ensures bytes { IfOk result (λ builder. builder_bytes builder
            ≡ put_at (built_length self.entry) (encoding (N.node node.now)) (builder_bytes self.entry)) }
        ensures room { IfOk result (λ builder. built_length builder ≤ length (builder_bytes self.entry)) }
        ensures same_buffer { IfOk result (WriteToTheSame self.entry) }
        ensures refused { IfErr result (HasBufferFault (N.is_valid node.now) (N.node node.now)
            (built_length self.entry) (length (builder_bytes self.entry))) }
    {
        let DevicePathBuilder { buffer, end } = self;
        let written = push_at(buffer, end, node);
        if is_written(written) {
            return DevicePathBuilder::from_written(buffer, written);
        }
        DevicePathBuilder::not_written(written)
    }

    /// Returns the builder of the path whose next node was written.
    fn from_written(
        buffer: &'a mut [u8],
        written: Result<usize, BuildError>,
    ) -> Result<DevicePathBuilder<'a>, BuildError>
        requires ok { IsOk written }
        requires nodes { IfOk written (λ end. (end ≤ length buffer.old) × EncodesBefore (take end buffer.old)) }
        ensures ok { IsOk result }
        ensures nodes { MatchResult written
            (λ end. IfOk result (λ builder. IsEncodingBefore (take end buffer.entry.now) (built_nodes builder)))
            (λ _. ⊤) }
        ensures bytes { IfOk result (λ builder. builder_bytes builder ≡ buffer.entry.now) }
        ensures same_buffer { IfOk result (WritesTo buffer.entry) }
    {
        let end = written?;
        Ok(DevicePathBuilder { buffer, end })
    }

    /// Returns the error of a node that wasn't written.
    fn not_written(written: Result<usize, BuildError>) -> Result<DevicePathBuilder<'a>, BuildError>
        requires { IsErr written }
        ensures { MatchResult written (λ _. ⊤) (λ error. result ≡ Err error) }
    {
        Err(written.unwrap_err())
    }

    /// Writes the node after those that were pushed before.
    ///
    /// # Errors
    ///
    /// The errors of [`DevicePathBuilder::push`]. The builder and every byte of the buffer are then
    /// unchanged.
    pub fn push_node<N: BuildNode>(&mut self, node: &N) -> Result<(), BuildError>
        ensures valid { OnOk result (N.is_valid node.now × Fits (N.node node.now)) }
        ensures accepted { OnOk result (¬ IsEndEntire (N.node node.now)) }
        ensures nodes { OnOk result (built_nodes self.new
            ≡ built_nodes self.old ++ N.node node.now ∷ []) }
        ensures bytes { OnOk result (builder_bytes self.new
            ≡ put_at (built_length self.old) (encoding (N.node node.now)) (builder_bytes self.old)) }
        ensures room { OnOk result (built_length self.new ≤ length (builder_bytes self.old)) }
        ensures same_buffer { WriteToTheSame self.old self.new }
        ensures refused { IfErr result (HasBufferFault (N.is_valid node.now) (N.node node.now)
            (built_length self.old) (length (builder_bytes self.old))) }
        ensures same_nodes { OnErr result (built_nodes self.new ≡ built_nodes self.old) }
        ensures same_bytes { OnErr result (builder_bytes self.new ≡ builder_bytes self.old) }
    {
        let buffer = &mut *self.buffer;
        self.end = push_at(buffer, self.end, node)?;
        Ok(())
    }

    /// Writes the end-entire node after the nodes that were pushed, and returns the path. The bytes
    /// that follow stay as they were.
    ///
    /// [`DevicePathBuilder::write_end`] does the same for a caller that goes on with the buffer.
    ///
    /// # Errors
    ///
    /// [`BuildError::BufferTooSmall`] with the length of the path if the buffer is shorter. Every
    /// byte of the buffer is then unchanged.
    pub fn finalize(self) -> Result<DevicePath<'a>, BuildError>
        ensures* after { sem 𝓛 (BuiltEndsAs self.entry (λ after. MatchResult result
            (λ _. after ≡ put_at (built_length self.entry) (encoding end_entire) (builder_bytes self.entry))
            (λ _. after ≡ builder_bytes self.entry))) }
        ensures nodes { IfOk result (λ path. path_nodes path
            ≡ built_nodes self.entry ++ end_entire ∷ []) }
        ensures room { OnOk result (built_length self.entry + header_length ≤ length (builder_bytes self.entry)) }
        ensures refused { IfErr result (IsTooShortFor (built_length self.entry + header_length)
            (length (builder_bytes self.entry))) }
    {
        let DevicePathBuilder { buffer, end } = self;
        let written = push_end_at(buffer, end);
        path_in(buffer, written)
    }

    /// Writes the end-entire node after the nodes that were pushed, and returns the length of the
    /// path in bytes. [`DevicePathBuilder::finalize`] does the same, and returns a view of the path.
    ///
    /// # Errors
    ///
    /// The error of [`DevicePathBuilder::finalize`]. Every byte of the buffer is then unchanged.
    pub fn write_end(self) -> Result<usize, BuildError>
        ensures length { IfOk result (λ n. n ≡ built_length self.entry + header_length) }
        ensures room { IfOk result (λ n. n ≤ length (builder_bytes self.entry)) }
        ensures written { OnOk result (self.exit.0.now
            ≡ put_at (built_length self.entry) (encoding end_entire) (builder_bytes self.entry)) }
        ensures unchanged { OnErr result (self.exit.0.now ≡ builder_bytes self.entry) }
        ensures refused { IfErr result (IsTooShortFor (built_length self.entry + header_length)
            (length (builder_bytes self.entry))) }
    {
        let DevicePathBuilder { buffer, end } = self;
        push_end_at(buffer, end)
    }
}

/// Writes the node at the offset, and returns the offset of its end.
fn push_at<N: BuildNode>(buffer: &mut [u8], offset: usize, node: &N) -> Result<usize, BuildError>
    requires { offset ≤ length buffer.old }
    ensures valid { OnOk result (N.is_valid node.now × Fits (N.node node.now)) }
    ensures accepted { OnOk result (¬ IsEndEntire (N.node node.now)) }
    ensures end { IfOk result (λ end. end ≡ offset + length (encoding (N.node node.now))) }
    ensures room { IfOk result (λ end. end ≤ length buffer.old) }
    ensures written { OnOk result (buffer.new ≡ put_at offset (encoding (N.node node.now)) buffer.old) }
    ensures refused { IfErr result (HasBufferFault (N.is_valid node.now) (N.node node.now) offset
        (length buffer.old)) }
    ensures unchanged { OnErr result (buffer.new ≡ buffer.old) }
{
    if is_end_entire(node) {
        return Err(BuildError::EndEntire);
    }
    let (_, rest) = buffer.split_at_mut(offset);
    match node.write(rest) {
        Ok(size) => Ok(offset + size),
        Err(BuildError::BufferTooSmall(size)) => Err(BuildError::BufferTooSmall(offset + size)),
        Err(error) => Err(error),
    }
}

/// Returns whether a node was written.
fn is_written(written: Result<usize, BuildError>) -> bool
    ensures { IsTrue result ↔ IsOk written }
{
    written.is_ok()
}

/// Writes the end-entire node at the offset, and returns the offset of its end.
fn push_end_at(buffer: &mut [u8], offset: usize) -> Result<usize, BuildError>
    requires { offset ≤ length buffer.old }
    ensures end { IfOk result (λ end. end ≡ offset + header_length) }
    ensures room { IfOk result (λ end. end ≤ length buffer.old) }
    ensures written { OnOk result (buffer.new ≡ put_at offset (encoding end_entire) buffer.old) }
    ensures unchanged { OnErr result (buffer.new ≡ buffer.old) }
    ensures refused { IfErr result (IsTooShortFor (offset + header_length) (length buffer.old)) }
{
    let end = offset + HEADER_LENGTH;
    if buffer.len() < end {
        return Err(BuildError::BufferTooSmall(end));
    }
    put(buffer, offset, &end_entire_bytes());
    Ok(end)
}

/// Returns the path that was written to the start of the bytes, if it was.
fn path_in<'a>(
    bytes: &'a [u8],
    written: Result<usize, BuildError>,
) -> Result<DevicePath<'a>, BuildError>
    requires { IfOk written (λ end. (end ≤ length bytes.now) × EncodesPath (take end bytes.now)) }
    ensures path { MatchResult written
        (λ end. IfOk result (λ path. IsEncodingOfNodes IsEndEntire (take end bytes.now) (path_nodes path)))
        (λ error. result ≡ Err error) }
    ensures ok { IsOk result ↔ IsOk written }
{
    let end = written?;
    Ok(DevicePath::new_unchecked(&bytes[..end]))
}
