ghost use Rattle.std.specs.Prelude.{⊤, ◌≡◌, ◌↔◌, [], ◌∷◌, codes, IsTrue, IsSome, IfSome, ◌==◌, not};
ghost use Rattle.std.specs.Int.RustNames.{bit_and, bit_or};
ghost use Rattle.bitflags.specs.Sets.{without};
ghost use Rattle.uefi_base.specs.Flags.{has_bits};
ghost use Rattle.uefi_records.specs.flags.Named.{named_attributes};
ghost use Rattle.uefi_records.specs.flags.Views.{attribute_bits};

use bitflags::{Flag, Flags, bitflag_items};

/// The attributes of a file: a set of flags in eight bytes (UEFI 2.10, 13.5
/// `EFI_FILE_PROTOCOL.Open()`).
///
/// Equality and order are those of the bits, and the default is the empty set.
/// [`FileAttribute::from_bits_retain`] keeps bits without a name. The layout is that of `u64`.
#[derive(Clone, Copy, PartialEq, Eq, PartialOrd, Ord, Hash, Default, Debug)]
#[repr(transparent)]
pub struct FileAttribute(u64);

bitflag_items! {
    impl FileAttribute: u64 {
        /// The file is read-only.
        const READ_ONLY = 0x01;
        /// The file is hidden from listings.
        const HIDDEN = 0x02;
        /// The file belongs to an operating system.
        const SYSTEM = 0x04;
        /// The file is a directory.
        const DIRECTORY = 0x10;
        /// The file has changed since it was last archived.
        const ARCHIVE = 0x20;
        /// All flags that have a name.
        const VALID_ATTR = 0x37;
    }
}

impl FileAttribute {
    /// Returns the set without flags.
    pub fn empty() -> FileAttribute
        ensures { attribute_bits result ≡ 0 }
    {
        <FileAttribute as Flags>::empty()
    }

    /// Returns all bits of the set, including those without a name.
    pub fn bits(&self) -> u64
        ensures { result ≡ attribute_bits self.now }
    {
        <FileAttribute as Flags>::bits(self)
    }

    /// Returns the set of these bits, or `None` if one of them has no name.
    #[tactic(auto, using(uefi_base::proofs::NamedBits::named_bits), unfolding(bitflags::proofs::OnLiterals::bitflags_on_literals))]
    pub fn from_bits(bits: u64) -> Option<FileAttribute>
        ensures named { IsSome result ↔ IsTrue (has_bits named_attributes bits) }
        ensures same { IfSome result (λ set. attribute_bits set ≡ bits) }
    {
        <FileAttribute as Flags>::from_bits(bits)
    }

    /// Returns the set of these bits, including those without a name.
    pub fn from_bits_retain(bits: u64) -> FileAttribute
        ensures { attribute_bits result ≡ bits }
    {
        <FileAttribute as Flags>::from_bits_retain(bits)
    }

    /// Returns whether the set has no bit.
    pub fn is_empty(&self) -> bool
        ensures { result ≡ (attribute_bits self.now == 0) }
    {
        <FileAttribute as Flags>::is_empty(self)
    }

    /// Returns whether the set has each bit with a name.
    #[tactic(auto, unfolding(bitflags::proofs::OnLiterals::bitflags_on_literals))]
    pub fn is_all(&self) -> bool
        ensures { result ≡ (bit_or named_attributes (attribute_bits self.now) == attribute_bits self.now) }
    {
        <FileAttribute as Flags>::is_all(self)
    }

    /// Returns whether the sets have a bit in common.
    pub fn intersects(&self, other: FileAttribute) -> bool
        ensures { result ≡ not (bit_and (attribute_bits self.now) (attribute_bits other) == 0) }
    {
        <FileAttribute as Flags>::intersects(self, other)
    }

    /// Returns whether each bit of the other set is in this one.
    pub fn contains(&self, other: FileAttribute) -> bool
        ensures { result ≡ has_bits (attribute_bits self.now) (attribute_bits other) }
    {
        <FileAttribute as Flags>::contains(self, other)
    }

    /// Returns the set of the bits that are in either set.
    pub fn union(self, other: FileAttribute) -> FileAttribute
        ensures { attribute_bits result ≡ bit_or (attribute_bits self) (attribute_bits other) }
    {
        <FileAttribute as Flags>::union(self, other)
    }

    /// Adds the bits of the other set.
    pub fn insert(&mut self, other: FileAttribute)
        ensures { attribute_bits self.new ≡ bit_or (attribute_bits self.old) (attribute_bits other) }
    {
        <FileAttribute as Flags>::insert(self, other);
    }

    /// Removes the bits of the other set.
    pub fn remove(&mut self, other: FileAttribute)
        ensures { attribute_bits self.new ≡ without 64 (attribute_bits self.old) (attribute_bits other) }
    {
        <FileAttribute as Flags>::remove(self, other);
    }

    /// Returns the bits that the other set doesn't have.
    pub fn difference(self, other: FileAttribute) -> FileAttribute
        ensures { attribute_bits result ≡ without 64 (attribute_bits self) (attribute_bits other) }
    {
        <FileAttribute as Flags>::difference(self, other)
    }
}

impl Flags for FileAttribute {
    type Bits = u64;

    ghost exact = { ⊤ };

    ghost table = { (codes "READ_ONLY", 0x01)
        ∷ (codes "HIDDEN", 0x02)
        ∷ (codes "SYSTEM", 0x04)
        ∷ (codes "DIRECTORY", 0x10)
        ∷ (codes "ARCHIVE", 0x20)
        ∷ (codes "VALID_ATTR", 0x37)
        ∷ [] };

    ghost set_of = { λ set. set.0 };

    fn flags<'a>() -> &'a [Flag<FileAttribute>] {
        FileAttribute::FLAGS
    }

    fn bits(&self) -> u64 {
        self.0
    }

    fn from_bits_retain(bits: u64) -> FileAttribute {
        FileAttribute(bits)
    }
}
