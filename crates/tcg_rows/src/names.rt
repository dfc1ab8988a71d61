use crate::of_logs::named_event;
use std::alloc::Global;
use std::cmp::Ordering;
use uefi_tcg::v2::EventLogFormat;
use uefi_tcg::{AlgorithmId, EventType, HashAlgorithm, PcrIndex, UintnSize};

/// Returns the number that has a name, with its type, or the event of a log that has one.
pub(crate) fn named(alloc: Global, name: &str) -> Option<String> {
    let (Some(number), Some((type_name, _))) = (number_of(name), name.split_once("::")) else {
        return named_event(alloc, name);
    };
    format!(in alloc; "{type_name}({number})").ok()
}

/// Returns the number that has a name.
fn number_of(name: &str) -> Option<u32> {
    Some(match name {
        "EventType::NO_ACTION" => EventType::NO_ACTION.0,
        "EventType::CRTM_VERSION" => EventType::CRTM_VERSION.0,
        "EventType::IPL" => EventType::IPL.0,
        "EventType::EFI_EVENT_BASE" => EventType::EFI_EVENT_BASE.0,
        "EventType::EFI_PLATFORM_FIRMWARE_BLOB" => EventType::EFI_PLATFORM_FIRMWARE_BLOB.0,
        "EventType::EFI_HCRTM_EVENT" => EventType::EFI_HCRTM_EVENT.0,
        "EventType::EFI_VARIABLE_AUTHORITY" => EventType::EFI_VARIABLE_AUTHORITY.0,
        "AlgorithmId::SM3_256" => u32::from(AlgorithmId::SM3_256.0),
        "HashAlgorithm::SHA1" => HashAlgorithm::SHA1.bits(),
        "HashAlgorithm::SHA256" => HashAlgorithm::SHA256.bits(),
        "HashAlgorithm::SHA384" => HashAlgorithm::SHA384.bits(),
        "HashAlgorithm::SHA512" => HashAlgorithm::SHA512.bits(),
        "HashAlgorithm::SM3_256" => HashAlgorithm::SM3_256.bits(),
        "HashAlgorithm::empty" => HashAlgorithm::empty().bits(),
        "HashAlgorithm::default" => HashAlgorithm::default().bits(),
        "EventLogFormat::TCG_1_2" => EventLogFormat::TCG_1_2.bits(),
        "EventLogFormat::TCG_2" => EventLogFormat::TCG_2.bits(),
        "EventLogFormat::empty" => EventLogFormat::empty().bits(),
        "EventLogFormat::default" => EventLogFormat::default().bits(),
        _ => return None,
    })
}

/// Returns the type of events of a number, and its name.
pub(crate) fn event_type(input: &[u8]) -> Option<(EventType, Option<&'static str>)> {
    let [a, b, c, d] = input else {
        return None;
    };
    let event_type = EventType(u32::from_le_bytes([*a, *b, *c, *d]));
    Some((event_type, event_type.name()))
}

/// Returns the algorithm of a number, its name, and the length of its digests.
pub(crate) fn algorithm(input: &[u8]) -> Option<(AlgorithmId, Option<&'static str>, Option<u16>)> {
    let [low, high] = input else {
        return None;
    };
    let algorithm = AlgorithmId(u16::from_le_bytes([*low, *high]));
    Some((algorithm, algorithm.name(), algorithm.digest_size()))
}

/// Returns the order of the types of events, of the algorithms and of the PCRs of two bytes.
pub(crate) fn order(one: &[u8], other: &[u8]) -> Option<[Ordering; 3]> {
    let (one, other) = (*one.first()?, *other.first()?);
    Some([
        EventType(u32::from(one)).cmp(&EventType(u32::from(other))),
        AlgorithmId(u16::from(one)).cmp(&AlgorithmId(u16::from(other))),
        PcrIndex(u32::from(one)).cmp(&PcrIndex(u32::from(other))),
    ])
}

/// Returns the size that a header states by a number, also in bytes.
pub(crate) fn uintn_size(input: &[u8]) -> Option<(UintnSize, usize)> {
    let size = UintnSize::from_header(*input.first()?);
    Some((size, size.in_bytes()))
}
