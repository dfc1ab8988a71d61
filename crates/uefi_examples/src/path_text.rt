ghost use Rattle.std.specs.Prelude.{◌≡◌, false, string_bytes, IfOk};
ghost use Rattle.uefi_path.specs.Views.{path_nodes};
ghost use Rattle.uefi_path_text.specs.text.PathText.{path_text};
ghost use Rattle.uefi_path_text.specs.text.Style.{style};
ghost use Rattle.uefi_path_text.specs.parse.Paths.{IsTextOf};

use std::alloc::{AllocError, Global};
use uefi_path::DevicePath;
use uefi_path_text::laws::{one_path_of_text, text_reads_back};
use uefi_path_text::{AllowShortcuts, DisplayOnly, FromTextError, from_text, to_text};

/// Returns the text of a path, such as `PciRoot(0x0)/Pci(0x2,0x0)`.
pub fn path_string(alloc: Global, path: DevicePath<'_>) -> Result<String, AllocError>
    ensures { IfOk result (λ text. string_bytes text
        ≡ path_text (style false false) (path_nodes path.entry)) }
{
    let text = to_text(path, DisplayOnly(false), AllowShortcuts(false));
    format!(in alloc; "{text}")
}

/// Builds the path of a text, such as `PciRoot(0x0)/Pci(0x2,0x0)`, in a buffer.
pub fn path_from_text<'a>(buffer: &'a mut [u8], text: &str) -> Result<DevicePath<'a>, FromTextError>
    ensures { IfOk result (λ path. IsTextOf (path_nodes path) text.now) }
{
    from_text(buffer, text)
}

/// Calls each law of texts of paths.
pub fn laws_of_texts() {
    text_reads_back();
    one_path_of_text();
}
