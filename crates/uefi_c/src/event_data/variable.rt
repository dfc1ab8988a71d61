ghost use Rattle.std.specs.Prelude.{◌≡◌, ◌%◌, length, IsTrue, ◌≢◌, [], ◌∷◌};
ghost use Rattle.tcg_event.specs.Variable.{ReadsVariable};
ghost use Rattle.uefi_c.specs.EventData.{given, variable_seen};
ghost use Rattle.uefi_c.specs.Status.{IsOneOf, ok, other_data};

use crate::cursor::units_at;
use crate::status::{self, UefiStatus};
use tcg_event::VariableData;

/// The offset of the name in a variable's data.
const NAME_OFFSET: usize = 32;

/// A variable that was measured (TCG PC Client Platform Firmware Profile 1.06, 10.2.6,
/// `UEFI_VARIABLE_DATA`).
#[derive(Clone, Copy)]
#[repr(C)]
pub struct UefiVariable<'a> {
    /// The bytes of the name: units of two bytes, little-endian, without a NUL.
    pub name: &'a [u8],
    /// The variable's data.
    pub value: &'a [u8],
    /// The GUID of the vendor.
    pub guid: [u8; 16],
}

/// Reads the variable that the data of an event are, whole and alone.
#[unsafe(no_mangle)]
pub extern "C" fn uefi_variable<'a>(event_data: &'a [u8], out: &mut UefiVariable<'a>) -> UefiStatus
    ensures variable { ReadsVariable event_data.now (given result (variable_seen out.new)) }
    ensures whole_units { result ≡ ok → length out.new.name.now % 2 ≡ 0 }
    ensures known { IsOneOf result (ok ∷ other_data ∷ []) }
    ensures unchanged { result ≢ ok → out.new ≡ out.old }
{
    let Some(variable) = VariableData::read(event_data) else {
        return status::OTHER_DATA;
    };
    *out = UefiVariable {
        name: units_at(event_data, NAME_OFFSET, variable.name.len()),
        value: variable.data,
        guid: variable.guid.0,
    };
    status::OK
}
