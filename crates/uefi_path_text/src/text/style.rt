ghost use Rattle.std.specs.Prelude.{◌≡◌};

/// Whether the text is for display alone, and may be shorter (UEFI 2.10, 10.6.2).
///
/// A text for display may lack parts of a node.
#[derive(Clone, Copy, PartialEq, Eq, Debug)]
pub struct DisplayOnly(pub bool);

/// Whether nodes of some vendors have forms of their own, such as `VenVt100()` (UEFI 2.10, 10.6.2).
#[derive(Clone, Copy, PartialEq, Eq, Debug)]
pub struct AllowShortcuts(pub bool);

/// How nodes are written.
#[derive(Clone, Copy, PartialEq, Eq, Debug)]
pub(crate) struct Style {
    /// Whether the text is for display alone.
    pub(crate) display_only: bool,
    /// Whether nodes of some vendors have forms of their own.
    pub(crate) allow_shortcuts: bool,
}

impl Style {
    ghost use Rattle.uefi_path_text.specs.text.Style.{style};

    /// Returns the style with these flags.
    pub(crate) fn new(display_only: DisplayOnly, allow_shortcuts: AllowShortcuts) -> Style
        ensures { result ≡ style display_only.0 allow_shortcuts.0 }
    {
        Style {
            display_only: display_only.0,
            allow_shortcuts: allow_shortcuts.0,
        }
    }
}
