ghost use Rattle.std.specs.Prelude.{⊤, ◌≡◌, ◌↔◌, [], ◌∷◌, codes, IsTrue, IsSome, IfSome, ◌==◌, not};
ghost use Rattle.std.specs.Int.RustNames.{bit_and, bit_or};
ghost use Rattle.bitflags.specs.Sets.{without};
ghost use Rattle.uefi_base.specs.Flags.{has_bits};
ghost use Rattle.uefi_map.specs.memory.Flags.{named_attributes};
ghost use Rattle.uefi_map.specs.memory.Views.{attribute_bits};

use bitflags::{Flag, Flags, bitflag_items};

/// What a range of memory is capable of, and whether runtime services need it: a set of flags in
/// eight bytes (UEFI 2.10, 7.2 `EFI_BOOT_SERVICES.GetMemoryMap()`).
///
/// Equality and order are those of the bits as a number, and the default is the empty set. A set
/// that is read, or made by [`MemoryAttribute::from_bits_retain`], keeps the bits without a name
/// here. The layout is that of `u64`.
#[derive(Clone, Copy, PartialEq, Eq, PartialOrd, Ord, Hash, Default, Debug)]
#[repr(transparent)]
pub struct MemoryAttribute(u64);

bitflag_items! {
    impl MemoryAttribute: u64 {
        /// The memory can be left uncached.
        const UNCACHEABLE = 0x1;
        /// Writes to the memory can be combined.
        const WRITE_COMBINE = 0x2;
        /// The memory can be cached with writes that go through.
        const WRITE_THROUGH = 0x4;
        /// The memory can be cached with writes that wait.
        const WRITE_BACK = 0x8;
        /// The memory can be left uncached, and is exported and supports the fetch and add mechanism
        /// of semaphores.
        const UNCACHABLE_EXPORTED = 0x10;
        /// The memory can be protected from writes by the hardware's caching rules.
        const WRITE_PROTECT = 0x1000;
        /// The memory can be protected from reads.
        const READ_PROTECT = 0x2000;
        /// The memory can be protected from execution.
        const EXECUTE_PROTECT = 0x4000;
        /// The memory keeps its bytes without power.
        const NON_VOLATILE = 0x8000;
        /// The memory is more reliable than other memory of the system.
        const MORE_RELIABLE = 0x1_0000;
        /// The memory can be protected from writes.
        const READ_ONLY = 0x2_0000;
        /// The memory is set aside for special purposes, such as those of a device's driver.
        const SPECIAL_PURPOSE = 0x4_0000;
        /// The memory can be protected by the processor's encryption.
        const CPU_CRYPTO = 0x8_0000;
        /// Runtime services need the memory mapped.
        const RUNTIME = 0x8000_0000_0000_0000;
        /// The bits of [`MemoryAttribute::ISA_MASK`] are attributes of the processor's architecture.
        const ISA_VALID = 0x4000_0000_0000_0000;
        /// The bits of attributes of the processor's architecture.
        const ISA_MASK = 0x0fff_f000_0000_0000;
    }
}

impl MemoryAttribute {
    /// Returns the empty set.
    pub fn empty() -> MemoryAttribute
        ensures { attribute_bits result ≡ 0 }
    {
        <MemoryAttribute as Flags>::empty()
    }

    /// Returns all bits of the set, also those without a name.
    pub fn bits(&self) -> u64
        ensures { result ≡ attribute_bits self.now }
    {
        <MemoryAttribute as Flags>::bits(self)
    }

    /// Returns the set of these bits, or `None` if one of them has no name.
    #[tactic(auto, using(uefi_base::proofs::NamedBits::named_bits), unfolding(bitflags::proofs::OnLiterals::bitflags_on_literals))]
    pub fn from_bits(bits: u64) -> Option<MemoryAttribute>
        ensures named { IsSome result ↔ IsTrue (has_bits named_attributes bits) }
        ensures same { IfSome result (λ set. attribute_bits set ≡ bits) }
    {
        <MemoryAttribute as Flags>::from_bits(bits)
    }

    /// Returns the set of these bits, also those without a name.
    pub fn from_bits_retain(bits: u64) -> MemoryAttribute
        ensures { attribute_bits result ≡ bits }
    {
        <MemoryAttribute as Flags>::from_bits_retain(bits)
    }

    /// Returns whether the set has no bit.
    pub fn is_empty(&self) -> bool
        ensures { result ≡ (attribute_bits self.now == 0) }
    {
        <MemoryAttribute as Flags>::is_empty(self)
    }

    /// Returns whether the set has each bit with a name.
    #[tactic(auto, unfolding(bitflags::proofs::OnLiterals::bitflags_on_literals))]
    pub fn is_all(&self) -> bool
        ensures { result ≡ (bit_or named_attributes (attribute_bits self.now) == attribute_bits self.now) }
    {
        <MemoryAttribute as Flags>::is_all(self)
    }

    /// Returns whether the sets have a bit in common.
    pub fn intersects(&self, other: MemoryAttribute) -> bool
        ensures { result ≡ not (bit_and (attribute_bits self.now) (attribute_bits other) == 0) }
    {
        <MemoryAttribute as Flags>::intersects(self, other)
    }

    /// Returns whether each bit of the other set is in this one.
    pub fn contains(&self, other: MemoryAttribute) -> bool
        ensures { result ≡ has_bits (attribute_bits self.now) (attribute_bits other) }
    {
        <MemoryAttribute as Flags>::contains(self, other)
    }

    /// Returns the set of the bits of either set.
    pub fn union(self, other: MemoryAttribute) -> MemoryAttribute
        ensures { attribute_bits result ≡ bit_or (attribute_bits self) (attribute_bits other) }
    {
        <MemoryAttribute as Flags>::union(self, other)
    }

    /// Adds the bits of the other set.
    pub fn insert(&mut self, other: MemoryAttribute)
        ensures { attribute_bits self.new ≡ bit_or (attribute_bits self.old) (attribute_bits other) }
    {
        <MemoryAttribute as Flags>::insert(self, other);
    }

    /// Removes the bits of the other set.
    pub fn remove(&mut self, other: MemoryAttribute)
        ensures { attribute_bits self.new ≡ without 64 (attribute_bits self.old) (attribute_bits other) }
    {
        <MemoryAttribute as Flags>::remove(self, other);
    }

    /// Returns the bits that the other set doesn't have.
    pub fn difference(self, other: MemoryAttribute) -> MemoryAttribute
        ensures { attribute_bits result ≡ without 64 (attribute_bits self) (attribute_bits other) }
    {
        <MemoryAttribute as Flags>::difference(self, other)
    }
}

impl Flags for MemoryAttribute {
    type Bits = u64;

    ghost exact = { ⊤ };

    ghost table = { (codes "UNCACHEABLE", 0x1)
        ∷ (codes "WRITE_COMBINE", 0x2)
        ∷ (codes "WRITE_THROUGH", 0x4)
        ∷ (codes "WRITE_BACK", 0x8)
        ∷ (codes "UNCACHABLE_EXPORTED", 0x10)
        ∷ (codes "WRITE_PROTECT", 0x1000)
        ∷ (codes "READ_PROTECT", 0x2000)
        ∷ (codes "EXECUTE_PROTECT", 0x4000)
        ∷ (codes "NON_VOLATILE", 0x8000)
        ∷ (codes "MORE_RELIABLE", 0x10000)
        ∷ (codes "READ_ONLY", 0x20000)
        ∷ (codes "SPECIAL_PURPOSE", 0x40000)
        ∷ (codes "CPU_CRYPTO", 0x80000)
        ∷ (codes "RUNTIME", 0x8000000000000000)
        ∷ (codes "ISA_VALID", 0x4000000000000000)
        ∷ (codes "ISA_MASK", 0x0ffff00000000000)
        ∷ [] };

    ghost set_of = { λ set. set.0 };

    fn flags<'a>() -> &'a [Flag<MemoryAttribute>] {
        MemoryAttribute::FLAGS
    }

    fn bits(&self) -> u64 {
        self.0
    }

    fn from_bits_retain(bits: u64) -> MemoryAttribute {
        MemoryAttribute(bits)
    }
}
