ghost use Rattle.std.specs.Prelude.{◌≡◌};
ghost use Rattle.uefi_path_text.specs.text.Views.{path_view_text};
ghost use Rattle.uefi_path.specs.Views.{path_nodes};
ghost use Rattle.audit_text.specs.words.Path.{path_text};

use uefi_path::DevicePath;
use uefi_path_text::{AllowShortcuts, DisplayOnly, PathText, to_text};

/// Returns the text of a path: all of it, without shortcuts.
pub(crate) fn path_text(path: DevicePath<'_>) -> PathText<'_>
    ensures { path_view_text result ≡ path_text (path_nodes path.entry) }
{
    to_text(path, DisplayOnly(false), AllowShortcuts(false))
}
