//! The names that standards have for numbers.

ghost use Rattle.std.specs.Prelude.{◌≡◌, ◌≢◌, [], ◌∷◌};
ghost use Rattle.uefi_map.specs.memory.Types.{memory_type_name};
ghost use Rattle.uefi_tcg.specs.Algorithms.{algorithm_name};
ghost use Rattle.uefi_tcg.specs.EventTypes.{event_type_name};
ghost use Rattle.uefi_c.specs.EventData.{given};
ghost use Rattle.uefi_c.specs.Status.{IsOneOf, no_name, ok};

use crate::status::{self, UefiStatus};
use uefi_map::MemoryType;
use uefi_tcg::{AlgorithmId, EventType};

/// Finds the name of a type of events (TCG PC Client Platform Firmware Profile 1.06, 10.4.1), such as
/// `EV_IPL`: ASCII without a NUL.
#[unsafe(no_mangle)]
pub extern "C" fn uefi_event_type_name<'a>(event_type: u32, name: &mut &'a [u8]) -> UefiStatus
    ensures name { given result name.new.now ≡ event_type_name event_type }
    ensures known { IsOneOf result (ok ∷ no_name ∷ []) }
    ensures unchanged { result ≢ ok → name.new ≡ name.old }
{
    let Some(found) = EventType(event_type).name() else {
        return status::NO_NAME;
    };
    *name = found.as_bytes();
    status::OK
}

/// Finds the name of a type of memory (UEFI 2.10, 7.2, `EFI_MEMORY_TYPE`), such as `EfiLoaderCode`:
/// ASCII without a NUL.
#[unsafe(no_mangle)]
pub extern "C" fn uefi_memory_type_name<'a>(memory_type: u32, name: &mut &'a [u8]) -> UefiStatus
    ensures name { given result name.new.now ≡ memory_type_name memory_type }
    ensures known { IsOneOf result (ok ∷ no_name ∷ []) }
    ensures unchanged { result ≢ ok → name.new ≡ name.old }
{
    let Some(found) = MemoryType(memory_type).name() else {
        return status::NO_NAME;
    };
    *name = found.as_bytes();
    status::OK
}

/// Finds the name of an algorithm (TCG Algorithm Registry, `TPM_ALG_ID`), such as `TPM_ALG_SHA256`:
/// ASCII without a NUL.
#[unsafe(no_mangle)]
pub extern "C" fn uefi_algorithm_name<'a>(algorithm: u16, name: &mut &'a [u8]) -> UefiStatus
    ensures name { given result name.new.now ≡ algorithm_name algorithm }
    ensures known { IsOneOf result (ok ∷ no_name ∷ []) }
    ensures unchanged { result ≢ ok → name.new ≡ name.old }
{
    let Some(found) = AlgorithmId(algorithm).name() else {
        return status::NO_NAME;
    };
    *name = found.as_bytes();
    status::OK
}
