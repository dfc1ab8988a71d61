//! A node of a path's text.

ghost use Rattle.std.specs.Prelude.{◌≡◌, ◌≤◌, ◌<◌, ◌+◌, ◌↔◌, length, IsTrue};
ghost use Rattle.uefi_base.specs.Buffer.{put_at, put_prefix};
ghost use Rattle.uefi_path.specs.Node.{encoding, IsEndEntire};

use crate::parse::call::Call;
use crate::parse::file_name::FileName;
use uefi_base::buffer::put;
use uefi_path::{DevicePathHeader, DeviceSubType, DeviceType};

/// The length of the header of a node in bytes.
const HEADER_LENGTH: usize = 4;

/// A node of a path's text.
#[derive(Clone, Copy)]
pub(crate) enum TextNode<'a> {
    /// `NAME(ARGUMENTS)`
    Call(Call<'a>),
    /// A file's name.
    FileName(FileName<'a>),
    /// A comma, the end of an instance.
    EndInstance,
}

impl TextNode<'_> {
    ghost use Rattle.uefi_path_text.specs.private.TextNodes.{text_node};

    /// Returns the type and the subtype.
    fn full_type(&self) -> (DeviceType, DeviceSubType)
        ensures device_type { result.0.0 ≡ (text_node self.now).device_type }
        ensures sub_type { result.1.0 ≡ (text_node self.now).sub_type }
    {
        match self {
            TextNode::Call(call) => call.full_type(),
            TextNode::FileName(_) => (DeviceType::MEDIA, DeviceSubType::MEDIA_FILE_PATH),
            TextNode::EndInstance => (DeviceType::END, DeviceSubType::END_INSTANCE),
        }
    }

    /// Returns the length of the data.
    fn data_len(&self) -> usize
        requires { length (text_node self.now).payload ≤ 0xfffb }
        ensures { result ≡ length (text_node self.now).payload }
    {
        let size = match self {
            TextNode::Call(call) => call.data_len(),
            TextNode::FileName(name) => name.data_len(),
            TextNode::EndInstance => Some(0),
        };
        match size {
            Some(size) => size,
            None => unreachable!(),
        }
    }

    /// Writes the data at an offset.
    fn put_data(&self, buffer: &mut [u8], offset: usize)
        requires { offset + length (text_node self.now).payload ≤ length buffer.old }
        ensures { buffer.new ≡ put_at offset (text_node self.now).payload buffer.old }
    {
        match self {
            TextNode::Call(call) => call.put_data(buffer, offset),
            TextNode::FileName(name) => name.put_data(buffer, offset),
            TextNode::EndInstance => {}
        }
    }

    /// Returns the length of the node in bytes.
    pub(crate) fn size(&self) -> usize
        requires { length (text_node self.now).payload ≤ 0xfffb }
        ensures { result ≡ length (encoding (text_node self.now)) }
    {
        HEADER_LENGTH + self.data_len()
    }

    /// Writes the node to the start of the buffer, and returns its length in bytes.
    fn write(&self, buffer: &mut [u8]) -> usize
        requires short { length (text_node self.now).payload ≤ 0xfffb }
        requires room { length (encoding (text_node self.now)) ≤ length buffer.old }
        ensures size { result ≡ length (encoding (text_node self.now)) }
        ensures written { buffer.new ≡ put_prefix (encoding (text_node self.now)) buffer.old }
    {
        let size = self.size();
        let (device_type, sub_type) = self.full_type();
        let header = DevicePathHeader::new(device_type, sub_type, size as u16);
        put(buffer, 0, &header.to_bytes());
        self.put_data(buffer, HEADER_LENGTH);
        size
    }

    /// Writes the node at an offset, and returns the offset of its end.
    pub(crate) fn put(&self, buffer: &mut [u8], offset: usize) -> usize
        requires short { length (text_node self.now).payload ≤ 0xfffb }
        requires room { offset + length (encoding (text_node self.now)) ≤ length buffer.old }
        ensures end { result ≡ offset + length (encoding (text_node self.now)) }
        ensures written { buffer.new ≡ put_at offset (encoding (text_node self.now)) buffer.old }
    {
        let (_, rest) = buffer.split_at_mut(offset);
        offset + self.write(rest)
    }

    /// Returns whether the node is an end-entire node.
    pub(crate) fn is_end_entire(&self) -> bool
        ensures end { IsTrue result ↔ IsEndEntire (text_node self.now) }
        ensures numbers { (text_node self.now).device_type < 256
            × (text_node self.now).sub_type < 256 }
    {
        self.full_type() == (DeviceType::END, DeviceSubType::END_ENTIRE)
    }
}
