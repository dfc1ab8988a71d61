ghost use Rattle.std.specs.Prelude.{◌≡◌, IfOk, OnOk, option_map};
ghost use Rattle.std.specs.Str.{chars};
ghost use Rattle.uefi_base.specs.Appending.{AppendsText};
ghost use Rattle.uefi_base.specs.Views.{slice_units};
ghost use Rattle.uefi_path.specs.Views.{path_nodes};
ghost use Rattle.tcg_event.specs.Views.{image_of, text_of, version_of};
ghost use Rattle.audit_text.specs.words.Said.{event_words, image_text, more, said, shown_bytes, shown_hex, shown_text, shown_units, tagged_words, version_words};
ghost use Rattle.uefi_audits.specs.content.Views.{content_of};

use crate::words::path_text;
use crate::words::tags::push_tag;
use crate::words::texts::name_text;
use shown::{Hex, HexNumber, ShownBytes, ShownName};
use std::alloc::{AllocError, Global};
use tcg_event::{CrtmVersion, EventText, ImageLoadEvent};
use uefi_audits::content::{EventContent, TaggedData};
use uefi_base::UnalignedSlice;
use uefi_path::DevicePath;

/// The most characters of a text or of a name that are shown.
const SHOWN_LENGTH: usize = 1000;

/// Appends in a few words what data say; nothing if they aren't read.
///
/// ```text
/// variable SecureBoot
/// image PciRoot(0x0)/Pci(0x1F,0x2)/Sata(0x0,0xFFFF,0x0)/\EFI\BOOT\BOOTX64.EFI
/// ```
///
/// | data | words |
/// |---|---|
/// | a text, a version | it |
/// | a separator | `separator` and its number |
/// | a locality | `locality` and its number |
/// | the header of a log | `header` |
/// | tagged events | `tag`, the name of the first one's tag, if it has one, and its number |
/// | a blob | `blob at` and its address |
/// | a blob with a description | `blob` and the description |
/// | a partition table | `disk` and the GUID of the disk |
/// | a variable | `variable` and its name |
/// | an image | `image` and its device path, if it has one |
///
/// A text, a description or a name is shown as [`ShownName`] or [`ShownBytes`] displays it. Of more
/// than 1,000 characters the first are shown, and how many there are more: `..(23 more)`. A device
/// path is shown whole, as [`uefi_path_text::to_text`] returns it. If the bytes are no path, they are in
/// hex, in the same way.
///
/// # Errors
///
/// [`AllocError`] if an allocation fails. The text may have grown then.
#[tactic(auto, unfolding(crate::specs::words::Said::said))]
pub fn push_said(
    text: &mut String,
    alloc: Global,
    content: &EventContent<'_>,
) -> Result<(), AllocError>
    ensures { OnOk result (AppendsText text.old text.new (said (content_of content.now))) }
{
    match content {
        EventContent::Unread => Ok(()),
        EventContent::Text(said) => push_bytes(text, said.as_bytes()),
        EventContent::Separator(number) => write!(text, "separator {number}"),
        EventContent::Locality(number) => write!(text, "locality {number}"),
        EventContent::Header(_) => text.push_str("header"),
        EventContent::LoaderText(said) => push_event(text, alloc, said),
        EventContent::CrtmVersion(version) => push_version(text, alloc, version),
        EventContent::Blob(blob) => {
            let address = HexNumber(blob.base);
            write!(text, "blob at {address}")
        }
        EventContent::DescribedBlob(described) => {
            text.push_str("blob ")?;
            push_bytes(text, described.description)
        }
        EventContent::Tagged(tagged) => push_tagged(text, tagged),
        EventContent::Gpt(gpt) => {
            let guid = gpt.header().disk_guid;
            write!(text, "disk {guid}")
        }
        EventContent::Variable(variable)
        | EventContent::BootOption(variable, _)
        | EventContent::BootOrder(variable, _)
        | EventContent::SignatureLists(variable, _)
        | EventContent::Signature(variable, _) => {
            text.push_str("variable ")?;
            push_units(text, alloc, &variable.name)
        }
        EventContent::Image(image, path) => push_image(text, image, path),
    }
}

/// Appends the first bytes of what is no text, and how many there are more.
#[tactic(auto, unfolding(crate::specs::words::Said::shown_bytes))]
pub(crate) fn push_bytes(text: &mut String, bytes: &[u8]) -> Result<(), AllocError>
    ensures { OnOk result (AppendsText text.old text.new (shown_bytes bytes.now)) }
{
    let (first, rest) = bytes.split_at(SHOWN_LENGTH.min(bytes.len()));
    let first = ShownBytes(first);
    write!(text, "{first}")?;
    push_more(text, rest.len())
}

/// Appends how many characters, or bytes, a text has that aren't shown, if it has any.
#[tactic(auto, unfolding(crate::specs::words::Said::more))]
pub(crate) fn push_more(text: &mut String, left: usize) -> Result<(), AllocError>
    ensures { OnOk result (AppendsText text.old text.new (more left)) }
{
    if left == 0 {
        return Ok(());
    }
    write!(text, "..({left} more)")
}

/// Appends the first characters of a text, and how many there are more.
#[tactic(auto, unfolding(crate::specs::words::Said::shown_text))]
fn push_text(text: &mut String, alloc: Global, said: &str) -> Result<(), AllocError>
    ensures { OnOk result (AppendsText text.old text.new (shown_text said.now)) }
{
    let characters = characters_of(alloc, said)?;
    let all = characters.as_slice();
    let (first, rest) = all.split_at(SHOWN_LENGTH.min(all.len()));
    for character in first {
        let mut room = [0; 4];
        let shown = ShownName(character.encode_utf8(&mut room));
        write!(text, "{shown}")?;
    }
    push_more(text, rest.len())
}

/// Returns the characters of a text.
fn characters_of(alloc: Global, text: &str) -> Result<Vec<char>, AllocError>
    ensures { IfOk result (λ found. found.items ≡ chars text.now) }
{
    text.chars().collect(alloc)
}

/// Appends the first units as text.
fn push_units(
    text: &mut String,
    alloc: Global,
    units: &UnalignedSlice<'_>,
) -> Result<(), AllocError>
    ensures { OnOk result (AppendsText text.old text.new (shown_units (slice_units units.now))) }
{
    let said = name_text(alloc, units)?;
    push_text(text, alloc, said.as_str())
}

/// Appends the text of an event.
#[tactic(auto, unfolding(crate::specs::words::Said::event_words))]
fn push_event(text: &mut String, alloc: Global, said: &EventText<'_>) -> Result<(), AllocError>
    ensures { OnOk result (AppendsText text.old text.new (event_words (text_of said.now))) }
{
    match said {
        EventText::Utf8 { text: said, .. } => push_text(text, alloc, said),
        EventText::Utf16 { units, .. } => push_units(text, alloc, units),
        EventText::Other(bytes) => push_bytes(text, bytes),
    }
}

/// Appends a version.
#[tactic(auto, unfolding(crate::specs::words::Said::version_words))]
fn push_version(
    text: &mut String,
    alloc: Global,
    version: &CrtmVersion<'_>,
) -> Result<(), AllocError>
    ensures { OnOk result (AppendsText text.old text.new (version_words (version_of version.now))) }
{
    match version {
        CrtmVersion::Ucs2(units) => push_units(text, alloc, units),
        CrtmVersion::Guid(guid) => write!(text, "{guid}"),
        CrtmVersion::Other(said) => push_event(text, alloc, said),
    }
}

/// Appends the tag of the first tagged event.
#[tactic(auto, unfolding(crate::specs::words::Said::tagged_words))]
fn push_tagged(text: &mut String, tagged: &TaggedData<'_>) -> Result<(), AllocError>
    ensures { OnOk result (AppendsText text.old text.new (tagged_words tagged.now.split.0.0)) }
{
    match tagged.iter().next() {
        Some(first) => {
            text.push_str("tag ")?;
            push_tag(text, first.id)
        }
        None => text.push_str("no tagged event"),
    }
}

/// Appends `image` and its device path, if it has one.
#[tactic(auto, unfolding(crate::specs::words::Said::image_text))]
fn push_image(
    text: &mut String,
    image: &ImageLoadEvent<'_>,
    path: &Option<DevicePath<'_>>,
) -> Result<(), AllocError>
    ensures { OnOk result (AppendsText text.old text.new
        (image_text (image_of image.now) (option_map path_nodes path.now))) }
{
    if image.device_path.is_empty() {
        return text.push_str("image");
    }
    text.push_str("image ")?;
    match path {
        Some(path) => {
            let path = path_text(*path);
            write!(text, "{path}")
        }
        None => push_hex(text, image.device_path),
    }
}

/// Appends the first bytes in hex, and how many there are more.
#[tactic(auto, unfolding(crate::specs::words::Said::shown_hex))]
fn push_hex(text: &mut String, bytes: &[u8]) -> Result<(), AllocError>
    ensures { OnOk result (AppendsText text.old text.new (shown_hex bytes.now)) }
{
    let (first, rest) = bytes.split_at(SHOWN_LENGTH.min(bytes.len()));
    let first = Hex(first);
    write!(text, "{first}")?;
    push_more(text, rest.len())
}
