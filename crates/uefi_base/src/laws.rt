//! Laws of the definitions. Each function states a law that holds for all values, and does nothing
//! when it runs.

ghost use Rattle.uefi_base.specs.Laws.{NumbersReadBack, UnitsReadBack, UnitsByPlace, GuidsReadBack};
ghost use Rattle.uefi_base.specs.rows.Values.{RowsHold};

/// States that a number reads back from the offset at which its bytes were written, whatever comes
/// before and after them; and the bytes of a number that was read are the bytes at its offset.
#[tactic(auto, using(crate::proofs::NumbersBack::numbers_read_back))]
pub fn numbers_read_back()
    ensures { NumbersReadBack }
{}

/// Units and their bytes determine each other: the units of the bytes of some units are those
/// units, and the bytes of the units of an even number of bytes are those bytes. A unit has two
/// bytes, and the units of joined bytes are the joined units of the parts, if the first part has an
/// even length.
#[tactic(auto, using(crate::proofs::UnitsBack::units_read_back))]
pub fn units_read_back()
    ensures { UnitsReadBack }
{}

/// States that the unit at an index has its bytes at twice the index, and the units before and from
/// an index are the units of the bytes before and from twice the index.
#[tactic(auto, using(crate::proofs::UnitsOfBytes::units_by_place))]
pub fn units_by_place()
    ensures { UnitsByPlace }
{}

/// States that texts of GUIDs read back. The text of sixteen bytes is that of a GUID, and is read
/// as these bytes. The text of the bytes that a text is read as is that text, with its letters in
/// lower case.
#[tactic(auto, using(crate::proofs::GuidsBack::guids_read_back))]
pub fn guids_read_back()
    ensures { GuidsReadBack }
{}

/// States that the definitions hold on worked rows: examples of units, characters, numbers in
/// bytes, a GUID and a status. Each row is a theorem.
#[tactic(auto, using(crate::proofs::Rows::rows_hold))]
pub fn worked_rows()
    ensures { RowsHold }
{}
