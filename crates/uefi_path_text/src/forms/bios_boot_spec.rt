ghost use Rattle.std.specs.Prelude.{◌≡◌, map};
ghost use Rattle.uefi_path_text.specs.forms.BiosBootSpec.{bios_boot_spec_forms};
ghost use Rattle.uefi_path_text.specs.private.FormViews.{form_of};

use crate::form::Arguments::Listed;
use crate::form::Part::{Bytes, Value};
use crate::form::Source::Known;
use crate::form::argument::Argument;
use crate::form::parameters::U16;
use crate::form::size::Size;
use crate::form::words::Words;
use crate::form::{NodeForm, PLAIN, Parameter};

/// The forms of nodes of the type BIOS_BOOT_SPEC.
static BIOS_BOOT_SPEC: [NodeForm; 1] = [NodeForm {
    name: "BBS",
    device_type: Known(5),
    sub_type: Known(1),
    arguments: Listed(
        &[
            Parameter {
                argument: Argument::Word(Words::BootDevice, Size::Two),
                default: "0",
            },
            Parameter {
                argument: Argument::Text(65526),
                default: "",
            },
            U16,
        ],
        &[Value(0), Value(2), Value(1), Bytes(&[0])],
    ),
    first_displayed: 0,
    displayed: 2,
    ..PLAIN
}];

/// Returns the forms of nodes of the type BIOS_BOOT_SPEC.
pub(crate) fn forms() -> &'static [NodeForm]
    ensures { map form_of result.now ≡ bios_boot_spec_forms }
{
    &BIOS_BOOT_SPEC
}
