ghost use Rattle.std.specs.Prelude.{◌≡◌};
ghost use Rattle.uefi_path_text.specs.parse.Values.{size_bytes};

/// How many bytes a number has.
#[derive(Clone, Copy)]
pub(crate) enum Size {
    /// One byte.
    One,
    /// Two bytes.
    Two,
    /// Four bytes.
    Four,
    /// Eight bytes.
    Eight,
}

impl Size {
    /// Returns the number of bytes.
    pub(crate) fn bytes(self) -> usize
        ensures { result ≡ size_bytes self }
    {
        match self {
            Size::One => 1,
            Size::Two => 2,
            Size::Four => 4,
            Size::Eight => 8,
        }
    }
}
