ghost use Rattle.std.specs.Prelude.{◌≡◌, map};
ghost use Rattle.uefi_path_text.specs.forms.Generic.{generic_forms};
ghost use Rattle.uefi_path_text.specs.private.FormViews.{form_of};

use crate::form::Arguments::Listed;
use crate::form::Part::Value;
use crate::form::Source::{Known, Stated};
use crate::form::parameters::{NODE_DATA, U8};
use crate::form::{NodeForm, PLAIN};

/// The forms of nodes of any type.
static GENERIC: [NodeForm; 6] = [
    NodeForm {
        name: "Path",
        device_type: Stated(0),
        sub_type: Stated(1),
        arguments: Listed(&[U8, U8, NODE_DATA], &[Value(2)]),
        ..PLAIN
    },
    NodeForm {
        name: "HardwarePath",
        device_type: Known(1),
        sub_type: Stated(0),
        arguments: Listed(&[U8, NODE_DATA], &[Value(1)]),
        ..PLAIN
    },
    NodeForm {
        name: "AcpiPath",
        device_type: Known(2),
        sub_type: Stated(0),
        arguments: Listed(&[U8, NODE_DATA], &[Value(1)]),
        ..PLAIN
    },
    NodeForm {
        name: "Msg",
        device_type: Known(3),
        sub_type: Stated(0),
        arguments: Listed(&[U8, NODE_DATA], &[Value(1)]),
        ..PLAIN
    },
    NodeForm {
        name: "MediaPath",
        device_type: Known(4),
        sub_type: Stated(0),
        arguments: Listed(&[U8, NODE_DATA], &[Value(1)]),
        ..PLAIN
    },
    NodeForm {
        name: "BbsPath",
        device_type: Known(5),
        sub_type: Stated(0),
        arguments: Listed(&[U8, NODE_DATA], &[Value(1)]),
        ..PLAIN
    },
];

/// Returns the forms of nodes of any type.
pub(crate) fn forms() -> &'static [NodeForm]
    ensures { map form_of result.now ≡ generic_forms }
{
    &GENERIC
}
