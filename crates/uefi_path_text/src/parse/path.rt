ghost use Rattle.std.specs.Prelude.{List, ◌≡◌, ◌≤◌, Err, length, take, IfOk, OnErr, IfErr, MatchResult};
ghost use Rattle.std.specs.Borrow.{sem};
ghost use Rattle.uefi_base.specs.Buffer.{put_prefix, EndsAs};
ghost use Rattle.uefi_path.specs.Node.{Node, joined};
ghost use Rattle.uefi_path.specs.Path.{HasPath};
ghost use Rattle.uefi_path.specs.Reading.{ReadsPath};
ghost use Rattle.uefi_path.specs.Views.{path_nodes, boxed_nodes};
ghost use Rattle.uefi_path_text.specs.parse.Paths.{IsTextOf};
ghost use Rattle.uefi_path_text.specs.parse.Errors.{HasBufferFault, HasMemoryFault, NeedsLength, WritesText};
ghost use Rattle.uefi_path_text.specs.private.TextPaths.{HasTextFault, IsTextWithin};

use crate::parse::error::FromTextError;
use crate::parse::nodes::TextNodes;
use std::alloc::Allocator;
use uefi_base::buffer::put;
use uefi_path::{BoxedDevicePath, DevicePath};

/// The end-entire node without data.
const END_ENTIRE: [u8; 4] = [0x7f, 0xff, 4, 0];

/// Reads the text of a path, writes the path to the start of the buffer, and returns its length in
/// bytes. The bytes that follow stay as they were.
///
/// [`from_text`] does the same, and returns a view of the path.
///
/// # Errors
///
/// The errors of [`from_text`]. Every byte of the buffer is then unchanged.
pub fn write_from_text(buffer: &mut [u8], text: &str) -> Result<usize, FromTextError>
    ensures ok { IfOk result (WritesText text.now buffer.old buffer.new) }
    ensures unchanged { OnErr result (buffer.new ≡ buffer.old) }
    ensures refused { IfErr result (HasBufferFault text.now (length buffer.old)) }
{
    let needed = path_len(text)?;
    if buffer.len() < needed {
        return Err(FromTextError::Buffer(needed));
    }
    put_path(buffer, text);
    Ok(needed)
}

/// Reads the text of a path, such as `PciRoot(0x0)/Pci(0x2,0x0)`, writes the path to the start of a
/// buffer, and returns a view of it (UEFI 2.10, 10.6.1). The bytes that follow stay as they were. The
/// text is the one that [`to_text`](crate::to_text) writes of the path with both flags false, or one
/// of its other spellings.
///
/// [`write_from_text`] does the same for a caller that goes on with the buffer.
///
/// # Errors
///
/// Fails with the first of these errors that applies, and leaves every byte of the buffer as it was:
///
/// - [`FromTextError::UnknownNode`], [`FromTextError::Argument`], [`FromTextError::Missing`] or
///   [`FromTextError::TooLong`] if the text is that of no path.
/// - [`FromTextError::Buffer`] with the length of the path if the buffer is shorter.
pub fn from_text<'a>(buffer: &'a mut [u8], text: &str) -> Result<DevicePath<'a>, FromTextError>
    ensures* after { sem 𝓛 (EndsAs buffer.entry (λ after. MatchResult result
        (λ path. after ≡ put_prefix (joined (path_nodes path)) buffer.old)
        (λ _. after ≡ buffer.old))) }
    ensures path { IfOk result (λ path. IsTextOf (path_nodes path) text.now) }
    ensures refused { IfErr result (HasBufferFault text.now (length buffer.old)) }
{
    let written = write_from_text(buffer, text);
    path_from_written(buffer, written)
}

/// Returns the view of the path that was written to the start of the bytes, if one was.
fn path_from_written<'a>(
    bytes: &'a [u8],
    written: Result<usize, FromTextError>,
) -> Result<DevicePath<'a>, FromTextError>
    requires { IfOk written (λ n. (n ≤ length bytes.now) × HasPath (take n bytes.now)) }
    ensures path { IfOk written (λ n. ReadsPath path_nodes (take n bytes.now) result) }
    ensures error { IfErr written (λ error. result ≡ Err error) }
{
    let length = written?;
    let (path, _) = bytes.split_at(length);
    match DevicePath::try_from(path) {
        Ok(path) => Ok(path),
        Err(_) => unreachable!(),
    }
}

/// Reads the text of a path into new memory (UEFI 2.10, 10.6.1).
///
/// # Errors
///
/// Fails with the first of these errors that applies:
///
/// - [`FromTextError::UnknownNode`], [`FromTextError::Argument`], [`FromTextError::Missing`] or
///   [`FromTextError::TooLong`] if the text is that of no path.
/// - [`FromTextError::Memory`] if an allocation fails.
pub fn from_text_in<A: Allocator>(alloc: A, text: &str) -> Result<BoxedDevicePath<A>, FromTextError>
    ensures path { IfOk result (λ boxed. IsTextOf (boxed_nodes boxed) text.now) }
    ensures refused { IfErr result (HasMemoryFault text.now) }
{
    let needed = path_len(text)?;
    let mut bytes = vec![in alloc; 0; needed]?;
    put_path(&mut bytes, text);
    match BoxedDevicePath::try_from(bytes) {
        Ok(path) => Ok(path),
        Err(_) => unreachable!(),
    }
}

/// Returns the length in bytes of the path whose text this is, or [`usize::MAX`] if it is greater.
///
/// # Errors
///
/// The first error of the text.
fn path_len(text: &str) -> Result<usize, FromTextError>
    ensures length { IfOk result (λ n. (nodes : List Node) × NeedsLength text.now nodes n) }
    ensures wrong { IfErr result (HasTextFault text.now) }
{
    let mut nodes = TextNodes::new(text);
    let mut size = 0usize;
    while let Some(node) = nodes.next()? {
        size = size.saturating_add(node.size());
        if node.is_end_entire() {
            nodes.end()?;
            return Ok(size);
        }
    }
    Ok(size.saturating_add(END_ENTIRE.len()))
}

/// Writes the path whose text this is to the start of the buffer.
fn put_path(buffer: &mut [u8], text: &str)
    requires { IsTextWithin (length buffer.old) text.now }
    ensures { (nodes : List Node) → IsTextOf nodes text.now
        → buffer.new ≡ put_prefix (joined nodes) buffer.old }
{
    let mut nodes = TextNodes::new(text);
    let mut end = 0;
    while let Some(node) = nodes.next().unwrap() {
        end = node.put(buffer, end);
        if node.is_end_entire() {
            return;
        }
    }
    put(buffer, end, &END_ENTIRE);
}
