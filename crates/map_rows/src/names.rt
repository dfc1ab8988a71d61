use rows::quoted;
use std::alloc::Global;
use uefi_map::{MemoryAttribute, MemoryMapError, MemoryType, ResourceError};

/// Returns the value that has a name, as its type and its number.
pub(crate) fn named(alloc: Global, name: &str) -> Option<String> {
    if let Some(set) = attribute_of(name) {
        return format!(in alloc; "{set:?}").ok();
    }
    let Some(memory_type) = type_of(name) else {
        return format!(in alloc; "there is no such name").ok();
    };
    format!(in alloc; "MemoryType({})", memory_type.0).ok()
}

/// Returns the attributes that have a name.
fn attribute_of(name: &str) -> Option<MemoryAttribute> {
    Some(match name {
        "MemoryAttribute::UNCACHEABLE" => MemoryAttribute::UNCACHEABLE,
        "MemoryAttribute::WRITE_COMBINE" => MemoryAttribute::WRITE_COMBINE,
        "MemoryAttribute::WRITE_THROUGH" => MemoryAttribute::WRITE_THROUGH,
        "MemoryAttribute::WRITE_BACK" => MemoryAttribute::WRITE_BACK,
        "MemoryAttribute::UNCACHABLE_EXPORTED" => MemoryAttribute::UNCACHABLE_EXPORTED,
        "MemoryAttribute::WRITE_PROTECT" => MemoryAttribute::WRITE_PROTECT,
        "MemoryAttribute::READ_PROTECT" => MemoryAttribute::READ_PROTECT,
        "MemoryAttribute::EXECUTE_PROTECT" => MemoryAttribute::EXECUTE_PROTECT,
        "MemoryAttribute::NON_VOLATILE" => MemoryAttribute::NON_VOLATILE,
        "MemoryAttribute::MORE_RELIABLE" => MemoryAttribute::MORE_RELIABLE,
        "MemoryAttribute::READ_ONLY" => MemoryAttribute::READ_ONLY,
        "MemoryAttribute::SPECIAL_PURPOSE" => MemoryAttribute::SPECIAL_PURPOSE,
        "MemoryAttribute::CPU_CRYPTO" => MemoryAttribute::CPU_CRYPTO,
        "MemoryAttribute::RUNTIME" => MemoryAttribute::RUNTIME,
        "MemoryAttribute::ISA_VALID" => MemoryAttribute::ISA_VALID,
        "MemoryAttribute::ISA_MASK" => MemoryAttribute::ISA_MASK,
        "MemoryAttribute::empty" => MemoryAttribute::empty(),
        "MemoryAttribute::default" => MemoryAttribute::default(),
        _ => return None,
    })
}

/// Returns the type of memory that has a name.
fn type_of(name: &str) -> Option<MemoryType> {
    Some(match name {
        "MemoryType::RESERVED" => MemoryType::RESERVED,
        "MemoryType::LOADER_CODE" => MemoryType::LOADER_CODE,
        "MemoryType::LOADER_DATA" => MemoryType::LOADER_DATA,
        "MemoryType::BOOT_SERVICES_CODE" => MemoryType::BOOT_SERVICES_CODE,
        "MemoryType::BOOT_SERVICES_DATA" => MemoryType::BOOT_SERVICES_DATA,
        "MemoryType::RUNTIME_SERVICES_CODE" => MemoryType::RUNTIME_SERVICES_CODE,
        "MemoryType::RUNTIME_SERVICES_DATA" => MemoryType::RUNTIME_SERVICES_DATA,
        "MemoryType::CONVENTIONAL" => MemoryType::CONVENTIONAL,
        "MemoryType::UNUSABLE" => MemoryType::UNUSABLE,
        "MemoryType::ACPI_RECLAIM" => MemoryType::ACPI_RECLAIM,
        "MemoryType::ACPI_NON_VOLATILE" => MemoryType::ACPI_NON_VOLATILE,
        "MemoryType::MMIO" => MemoryType::MMIO,
        "MemoryType::MMIO_PORT_SPACE" => MemoryType::MMIO_PORT_SPACE,
        "MemoryType::PAL_CODE" => MemoryType::PAL_CODE,
        "MemoryType::PERSISTENT_MEMORY" => MemoryType::PERSISTENT_MEMORY,
        "MemoryType::UNACCEPTED" => MemoryType::UNACCEPTED,
        _ => return None,
    })
}

/// Returns what the error with a name is displayed as.
pub(crate) fn error_text(alloc: Global, name: &str) -> Option<String> {
    let text = match name {
        "MemoryMapError::InvalidSize" => format!(in alloc; "{}", MemoryMapError::InvalidSize),
        "MemoryMapError::Misaligned" => format!(in alloc; "{}", MemoryMapError::Misaligned),
        "ResourceError::NoEndTag" => format!(in alloc; "{}", ResourceError::NoEndTag),
        "ResourceError::CutRecord" => format!(in alloc; "{}", ResourceError::CutRecord),
        "ResourceError::UnknownTag(18)" => format!(in alloc; "{}", ResourceError::UnknownTag(18)),
        _ => format!(in alloc; "{}", ResourceError::Memory),
    };
    quoted(alloc, text.ok()?.as_str()).ok()
}
