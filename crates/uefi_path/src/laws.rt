//! Laws of the definitions. Each function states a law that holds for all values, and does nothing
//! when it runs.

ghost use Rattle.uefi_path.specs.Laws.{BuiltPaths, OneFront, WrittenOptions};
ghost use Rattle.uefi_path.specs.LoadOption.{OneLoadOption};
ghost use Rattle.uefi_path.specs.rows.Paths.{RowsHold};

/// States that no path is a proper prefix of another, and a path followed by any bytes starts with
/// that path and with no other.
#[tactic(auto, using(crate::specs::private::OnePath::one_path))]
pub fn one_front()
    ensures { OneFront }
{}

/// States that nodes none of which is end-entire, and then an end-entire node, are a path, and that
/// bytes which start with their encodings start with this path, and with no other. So what a builder
/// writes is read back.
pub fn built_paths()
    ensures { BuiltPaths }
{}

/// States that the definitions hold on worked rows: the numbers of the types that have a name,
/// examples of the bytes of paths, and of bytes that start with no path. Each row is a theorem.
#[tactic(auto, using(crate::proofs::Rows::rows_hold))]
pub fn worked_rows()
    ensures { RowsHold }
{}

/// States that bytes are at most one load option.
#[tactic(auto, using(crate::specs::private::OneLoadOption::one_load_option))]
pub fn one_load_option()
    ensures { OneLoadOption }
{}

/// States that the bytes of a load option are read as that option, and that parts are those of at
/// most one, whose length is theirs. So what is written is read back, and from the parts of an
/// option that was read, the same bytes are written.
#[tactic(auto, using(crate::proofs::OptionParts::written_options))]
pub fn written_options()
    ensures { WrittenOptions }
{}
