ghost use Rattle.std.specs.Prelude.{◌≡◌, ℕ};

/// A type whose records start at a multiple of an alignment.
///
/// No call looks at an address. The alignment says how the size of a record is
/// rounded up, and at which addresses firmware places it.
pub trait Align {
    /// The alignment in bytes, as clauses cite it.
    ghost alignment: { ℕ };

    /// Returns the alignment in bytes.
    fn alignment() -> usize
        ensures { result ≡ alignment };
}
