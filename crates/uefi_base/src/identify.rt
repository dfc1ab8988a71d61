ghost use Rattle.std.specs.Prelude.{◌≡◌};
ghost use Rattle.uefi_base.specs.declared.guid.Guid.{Guid};

use crate::Guid;

/// A type that a GUID identifies, such as a file information record.
///
/// A type with a lifetime implements [`IdentifiedBy`], which gives it this trait.
pub trait Identify {
    /// The GUID, as clauses cite it.
    ghost GUID: { Guid };

    /// The GUID.
    const GUID: Guid;

    /// Returns the GUID.
    fn identity() -> Guid
        ensures { result ≡ GUID }
    {
        Self::GUID
    }
}

/// A type that has the GUID of another type, its identity.
///
/// It is for types with a lifetime: outside this crate, none of them can give [`Identify`] itself
/// the ghost member that says which value the constant has. The identity is a type without a
/// lifetime.
pub trait IdentifiedBy {
    /// The type whose GUID this type has.
    type Identity: Identify;
}

impl<T: IdentifiedBy> Identify for T {
    ghost GUID = { T.Identity.GUID };

    const GUID: Guid = <T::Identity as Identify>::GUID;
}
