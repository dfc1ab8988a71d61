ghost use Rattle.std.specs.Prelude.{⊤, ◌≡◌, ◌↔◌, [], ◌∷◌, codes, IsTrue, IsSome, IfSome, ◌==◌, not};
ghost use Rattle.std.specs.Int.RustNames.{bit_and, bit_or};
ghost use Rattle.bitflags.specs.Sets.{without};
ghost use Rattle.uefi_base.specs.Flags.{has_bits};
ghost use Rattle.uefi_records.specs.flags.Named.{named_daylight};
ghost use Rattle.uefi_records.specs.flags.Views.{daylight_bits};

use bitflags::{Flag, Flags, bitflag_items};

/// How daylight saving affects a time: a set of flags in one byte (UEFI 2.10, 8.3 `GetTime()`,
/// `EFI_TIME`).
///
/// Equality and order are those of the bits, and the default is the empty set.
/// [`Daylight::from_bits_retain`] keeps bits without a name. The layout is that of `u8`.
#[derive(Clone, Copy, PartialEq, Eq, PartialOrd, Ord, Hash, Default, Debug)]
#[repr(transparent)]
pub struct Daylight(u8);

bitflag_items! {
    impl Daylight: u8 {
        /// The time is affected by daylight saving: clocks are set forward when it begins.
        const ADJUST_DAYLIGHT = 0x01;
        /// The time has been set forward for daylight saving.
        const IN_DAYLIGHT = 0x02;
    }
}

impl Daylight {
    /// Returns the set without flags.
    pub fn empty() -> Daylight
        ensures { daylight_bits result ≡ 0 }
    {
        <Daylight as Flags>::empty()
    }

    /// Returns all bits of the set, including those without a name.
    pub fn bits(&self) -> u8
        ensures { result ≡ daylight_bits self.now }
    {
        <Daylight as Flags>::bits(self)
    }

    /// Returns the set of these bits, or `None` if one of them has no name.
    #[tactic(auto, using(uefi_base::proofs::NamedBits::named_bits), unfolding(bitflags::proofs::OnLiterals::bitflags_on_literals))]
    pub fn from_bits(bits: u8) -> Option<Daylight>
        ensures named { IsSome result ↔ IsTrue (has_bits named_daylight bits) }
        ensures same { IfSome result (λ set. daylight_bits set ≡ bits) }
    {
        <Daylight as Flags>::from_bits(bits)
    }

    /// Returns the set of these bits, including those without a name.
    pub fn from_bits_retain(bits: u8) -> Daylight
        ensures { daylight_bits result ≡ bits }
    {
        <Daylight as Flags>::from_bits_retain(bits)
    }

    /// Returns whether the set has no bit.
    pub fn is_empty(&self) -> bool
        ensures { result ≡ (daylight_bits self.now == 0) }
    {
        <Daylight as Flags>::is_empty(self)
    }

    /// Returns whether the set has each bit with a name.
    #[tactic(auto, unfolding(bitflags::proofs::OnLiterals::bitflags_on_literals))]
    pub fn is_all(&self) -> bool
        ensures { result ≡ (bit_or named_daylight (daylight_bits self.now) == daylight_bits self.now) }
    {
        <Daylight as Flags>::is_all(self)
    }

    /// Returns whether the sets have a bit in common.
    pub fn intersects(&self, other: Daylight) -> bool
        ensures { result ≡ not (bit_and (daylight_bits self.now) (daylight_bits other) == 0) }
    {
        <Daylight as Flags>::intersects(self, other)
    }

    /// Returns whether each bit of the other set is in this one.
    pub fn contains(&self, other: Daylight) -> bool
        ensures { result ≡ has_bits (daylight_bits self.now) (daylight_bits other) }
    {
        <Daylight as Flags>::contains(self, other)
    }

    /// Returns the set of the bits that are in either set.
    pub fn union(self, other: Daylight) -> Daylight
        ensures { daylight_bits result ≡ bit_or (daylight_bits self) (daylight_bits other) }
    {
        <Daylight as Flags>::union(self, other)
    }

    /// Adds the bits of the other set.
    pub fn insert(&mut self, other: Daylight)
        ensures { daylight_bits self.new ≡ bit_or (daylight_bits self.old) (daylight_bits other) }
    {
        <Daylight as Flags>::insert(self, other);
    }

    /// Removes the bits of the other set.
    pub fn remove(&mut self, other: Daylight)
        ensures { daylight_bits self.new ≡ without 8 (daylight_bits self.old) (daylight_bits other) }
    {
        <Daylight as Flags>::remove(self, other);
    }

    /// Returns the bits that the other set doesn't have.
    pub fn difference(self, other: Daylight) -> Daylight
        ensures { daylight_bits result ≡ without 8 (daylight_bits self) (daylight_bits other) }
    {
        <Daylight as Flags>::difference(self, other)
    }
}

impl Flags for Daylight {
    type Bits = u8;

    ghost exact = { ⊤ };

    ghost table = { (codes "ADJUST_DAYLIGHT", 0x01) ∷ (codes "IN_DAYLIGHT", 0x02) ∷ [] };

    ghost set_of = { λ set. set.0 };

    fn flags<'a>() -> &'a [Flag<Daylight>] {
        Daylight::FLAGS
    }

    fn bits(&self) -> u8 {
        self.0
    }

    fn from_bits_retain(bits: u8) -> Daylight {
        Daylight(bits)
    }
}
