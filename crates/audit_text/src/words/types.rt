ghost use Rattle.std.specs.Prelude.{OnOk};
ghost use Rattle.uefi_base.specs.Appending.{AppendsText};
ghost use Rattle.audit_text.specs.words.Types.{type_text};

use std::alloc::{AllocError, Allocator};
use uefi_tcg::EventType;

/// Appends the name of a type of events; of a type without a name its number in hex.
#[tactic(auto, unfolding(crate::specs::words::Types::name_or_number))]
pub(crate) fn push_type<A: Allocator>(
    text: &mut String<A>,
    event_type: EventType,
) -> Result<(), AllocError>
    ensures { OnOk result (AppendsText text.old text.new (type_text event_type.0)) }
{
    match event_type.name() {
        Some(name) => text.push_str(name),
        None => {
            let number = event_type.0;
            write!(text, "0x{:x}", number)
        }
    }
}
