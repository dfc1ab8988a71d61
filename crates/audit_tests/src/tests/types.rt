//! The table of event types: which form the data of each have, and what its digests are the hash of.

use std::alloc::Global;
use std::test::Fail;
use test_support::{bytes, holds, same};
use uefi_audits::check::{Form, forms_of};
use uefi_audits::content::{EventContent, read_content};
use uefi_tcg::{EventType, LastEntry, Log, UintnSize};

/// What the data of a type's events are read as.
#[derive(Clone, Copy, PartialEq, Eq, Debug)]
enum Data {
    Other,
    PostCode,
    NoAction,
    Separator,
    Text,
    Tagged,
    CrtmVersion,
    LoaderText,
    DescribedBlob,
    Variable,
    Image,
    Gpt,
    Blob,
    Authority,
}

/// What kind of thing data say.
#[derive(Clone, Copy, PartialEq, Eq, Debug)]
enum Kind {
    Unread,
    Text,
    Separator,
    Locality,
    LoaderText,
    CrtmVersion,
    Blob,
    DescribedBlob,
    Tagged,
    Gpt,
    Variable,
    Signature,
    Image,
}

/// What the digests of a type's events are the hash of.
#[derive(Clone, Copy)]
enum Digests {
    /// The data in one of these forms.
    Of(&'static [Form]),
    /// What isn't in the log.
    NotInLog(&'static str),
}

/// The types of the table, each with the form of its data and with what its digests are of.
const TYPES: [(EventType, Data, Digests); 39] = [
    (
        EventType::PREBOOT_CERT,
        Data::Other,
        Digests::NotInLog("a certificate, which nothing measures any more"),
    ),
    (
        EventType::POST_CODE,
        Data::PostCode,
        Digests::NotInLog("the firmware's code"),
    ),
    (EventType::UNUSED, Data::Other, Digests::NotInLog("nothing")),
    (
        EventType::NO_ACTION,
        Data::NoAction,
        Digests::NotInLog("nothing: it extends no PCR"),
    ),
    (
        EventType::SEPARATOR,
        Data::Separator,
        Digests::Of(&[Form::Data]),
    ),
    (EventType::ACTION, Data::Text, Digests::Of(&[Form::Data])),
    (
        EventType::EVENT_TAG,
        Data::Tagged,
        Digests::Of(&[Form::Data]),
    ),
    (
        EventType::CRTM_CONTENTS,
        Data::Other,
        Digests::NotInLog("the code of the root of trust"),
    ),
    (
        EventType::CRTM_VERSION,
        Data::CrtmVersion,
        Digests::Of(&[Form::Data]),
    ),
    (
        EventType::CPU_MICROCODE,
        Data::Other,
        Digests::NotInLog("the microcode"),
    ),
    (
        EventType::PLATFORM_CONFIG_FLAGS,
        Data::Other,
        Digests::Of(&[Form::Data]),
    ),
    (
        EventType::TABLE_OF_DEVICES,
        Data::Other,
        Digests::Of(&[Form::Data]),
    ),
    (
        EventType::COMPACT_HASH,
        Data::Other,
        Digests::NotInLog("what the caller of the firmware gave"),
    ),
    (
        EventType::IPL,
        Data::LoaderText,
        Digests::Of(&[
            Form::Data,
            Form::WithoutNul,
            Form::WithNul,
            Form::Command,
            Form::Narrowed,
        ]),
    ),
    (
        EventType::IPL_PARTITION_DATA,
        Data::Other,
        Digests::NotInLog("the loader's data"),
    ),
    (
        EventType::NONHOST_CODE,
        Data::Other,
        Digests::NotInLog("the component's code"),
    ),
    (
        EventType::NONHOST_CONFIG,
        Data::Other,
        Digests::NotInLog("the component's configuration"),
    ),
    (
        EventType::NONHOST_INFO,
        Data::Other,
        Digests::NotInLog("what the component says"),
    ),
    (
        EventType::OMIT_BOOT_DEVICE_EVENTS,
        Data::Text,
        Digests::Of(&[Form::Data]),
    ),
    (
        EventType::POST_CODE2,
        Data::DescribedBlob,
        Digests::NotInLog("the firmware's code"),
    ),
    (
        EventType::EFI_VARIABLE_DRIVER_CONFIG,
        Data::Variable,
        Digests::Of(&[Form::Data]),
    ),
    (
        EventType::EFI_VARIABLE_BOOT,
        Data::Variable,
        Digests::Of(&[Form::VariableValue, Form::Data]),
    ),
    (
        EventType::EFI_BOOT_SERVICES_APPLICATION,
        Data::Image,
        Digests::NotInLog("the image"),
    ),
    (
        EventType::EFI_BOOT_SERVICES_DRIVER,
        Data::Image,
        Digests::NotInLog("the image"),
    ),
    (
        EventType::EFI_RUNTIME_SERVICES_DRIVER,
        Data::Image,
        Digests::NotInLog("the image"),
    ),
    (
        EventType::EFI_GPT_EVENT,
        Data::Gpt,
        Digests::Of(&[Form::Data]),
    ),
    (
        EventType::EFI_ACTION,
        Data::Text,
        Digests::Of(&[Form::Data]),
    ),
    (
        EventType::EFI_PLATFORM_FIRMWARE_BLOB,
        Data::Blob,
        Digests::NotInLog("the blob"),
    ),
    (
        EventType::EFI_HANDOFF_TABLES,
        Data::Other,
        Digests::NotInLog("the tables"),
    ),
    (
        EventType::EFI_PLATFORM_FIRMWARE_BLOB2,
        Data::DescribedBlob,
        Digests::NotInLog("the blob"),
    ),
    (
        EventType::EFI_HANDOFF_TABLES2,
        Data::Other,
        Digests::NotInLog("the tables"),
    ),
    (
        EventType::EFI_VARIABLE_BOOT2,
        Data::Variable,
        Digests::Of(&[Form::VariableValue, Form::Data]),
    ),
    (
        EventType::EFI_GPT_EVENT2,
        Data::Gpt,
        Digests::Of(&[Form::Data]),
    ),
    (
        EventType::EFI_HCRTM_EVENT,
        Data::Text,
        Digests::NotInLog("the code of the hardware's root of trust"),
    ),
    (
        EventType::EFI_VARIABLE_AUTHORITY,
        Data::Authority,
        Digests::Of(&[Form::Data]),
    ),
    (
        EventType::EFI_SPDM_FIRMWARE_BLOB,
        Data::Other,
        Digests::Of(&[Form::Data]),
    ),
    (
        EventType::EFI_SPDM_FIRMWARE_CONFIG,
        Data::Other,
        Digests::Of(&[Form::Data]),
    ),
    (
        EventType::EFI_SPDM_DEVICE_POLICY,
        Data::Other,
        Digests::Of(&[Form::Data]),
    ),
    (
        EventType::EFI_SPDM_DEVICE_AUTHORITY,
        Data::Other,
        Digests::Of(&[Form::Data]),
    ),
];

/// Returns the forms in which an event's digests are tried.
fn forms(digests: Digests) -> &'static [Form] {
    match digests {
        Digests::Of(forms) => forms,
        Digests::NotInLog(_) => &[],
    }
}

/// Returns whether a type has forms, or a reason for which it has none.
fn is_explained(digests: Digests) -> bool {
    match digests {
        Digests::Of(forms) => !forms.is_empty(),
        Digests::NotInLog(reason) => !reason.is_empty(),
    }
}

/// Sixteen characters that print.
const PRINTED: &str = "41414141414141414141414141414141";

/// Sixteen bytes of which most don't.
const UNPRINTED: &str = "00008400000000000000370000000000";

/// Four bytes.
const FOUR_BYTES: &str = "00000000";

/// A locality.
const LOCALITY: &str = "537461727475704c6f63616c6974790003";

/// A blob with a description.
const DESCRIBED_BLOB: &str = "02667610000000000000002000000000000000";

/// The variable `db` of the signature databases, with a signature as its value.
const VARIABLE: &str =
    "cbb219d73a3d9645a3bcdad00e67656f 0200000000000000 1400000000000000 64006200 \
     0102030405060708090a0b0c0d0e0f10 11121314";

/// An image without a device path.
const IMAGE: &str = "0010000000000000 0002000000000000 0000000000000000 0000000000000000";

/// A partition table without partitions.
const PARTITION_TABLE: &str =
    "4546492050415254 00000100 5c000000 44332211 00000000 0100000000000000 6300000000000000 \
     2200000000000000 ff07000000000000 11111111222233334444555555555555 0200000000000000 \
     80000000 80000000 88776655 0000000000000000";

/// Returns data in hex that tell the ways apart in which data are read, each with what they say.
fn samples(data: Data) -> &'static [(&'static str, Kind)] {
    match data {
        Data::Other => &[
            (PRINTED, Kind::Text),
            (UNPRINTED, Kind::Unread),
            (FOUR_BYTES, Kind::Unread),
            (LOCALITY, Kind::Unread),
            (DESCRIBED_BLOB, Kind::Unread),
            (VARIABLE, Kind::Unread),
            (IMAGE, Kind::Unread),
            (PARTITION_TABLE, Kind::Unread),
            ("", Kind::Unread),
        ],
        Data::PostCode => &[(PRINTED, Kind::Text), (UNPRINTED, Kind::Blob)],
        Data::NoAction => &[(LOCALITY, Kind::Locality), (FOUR_BYTES, Kind::Unread)],
        Data::Separator => &[(FOUR_BYTES, Kind::Separator)],
        Data::Tagged => &[(PRINTED, Kind::Tagged)],
        Data::CrtmVersion => &[(PRINTED, Kind::CrtmVersion)],
        Data::Text | Data::LoaderText => {
            &[(PRINTED, Kind::LoaderText), (UNPRINTED, Kind::LoaderText)]
        }
        Data::DescribedBlob => &[(DESCRIBED_BLOB, Kind::DescribedBlob)],
        Data::Variable => &[(VARIABLE, Kind::Variable)],
        Data::Image => &[(IMAGE, Kind::Image)],
        Data::Gpt => &[(PARTITION_TABLE, Kind::Gpt)],
        Data::Blob => &[(PRINTED, Kind::Blob)],
        Data::Authority => &[(VARIABLE, Kind::Signature)],
    }
}

/// Returns what kind of thing data say.
fn kind_of(content: &EventContent<'_>) -> Kind {
    match content {
        EventContent::Text(_) => Kind::Text,
        EventContent::Separator(_) => Kind::Separator,
        EventContent::Locality(_) => Kind::Locality,
        EventContent::LoaderText(_) => Kind::LoaderText,
        EventContent::CrtmVersion(_) => Kind::CrtmVersion,
        EventContent::Blob(_) => Kind::Blob,
        EventContent::DescribedBlob(_) => Kind::DescribedBlob,
        EventContent::Tagged(_) => Kind::Tagged,
        EventContent::Gpt(_) => Kind::Gpt,
        EventContent::Variable(_) => Kind::Variable,
        EventContent::Signature(_, _) => Kind::Signature,
        EventContent::Image(_, _) => Kind::Image,
        _ => Kind::Unread,
    }
}

/// Returns what kind of thing data in hex say in an event of a type.
fn read_as(alloc: Global, event_type: EventType, data: &str) -> Result<Kind, Fail> {
    let data = bytes(alloc, data)?;
    let length = u32::try_from(data.len()).ok().ok_or("a length")?;
    let mut log = Vec::new(alloc);
    log.extend_from_slice(&[0; 4])?;
    log.extend_from_slice(&event_type.0.to_le_bytes())?;
    log.extend_from_slice(&[0; 20])?;
    log.extend_from_slice(&length.to_le_bytes())?;
    log.extend_from_slice(data.as_slice())?;
    let log = Log::new(log.as_slice(), LastEntry::At(log.len()));
    let entry = log.entries().next().ok_or("an event")?;
    Ok(kind_of(&read_content(&entry.event, UintnSize::Eight)))
}

#[test]
fn data_are_read_by_the_type_of_their_event(rt: HostRuntime) -> Result<(), Fail> {
    for (event_type, data, _) in &TYPES {
        let name = event_type.name().ok_or("a name")?;
        for (sample, kind) in samples(*data) {
            same(name, &read_as(rt.alloc(), *event_type, sample)?, kind)?;
        }
    }
    Ok(())
}

#[test]
fn each_type_has_forms_of_its_digests_or_is_not_in_the_log() -> Result<(), Fail> {
    for (event_type, _, digests) in &TYPES {
        let name = event_type.name().ok_or("a name")?;
        holds(name, forms_of(*event_type) == forms(*digests))?;
        holds(name, is_explained(*digests))?;
    }
    Ok(())
}

/// Returns how many numbers from the first on have a name, of 257.
fn named_from(first: u32) -> usize {
    (0u32..257)
        .filter(|number| EventType(first.wrapping_add(*number)).name().is_some())
        .count()
}

#[test]
fn no_other_number_is_a_type() -> Result<(), Fail> {
    let named = (named_from(0), named_from(0x8000_0000));
    same("from 0 and from 0x80000000 on", &named, &(20, 19))
}

/// Types without a form: those beside the table.
const OTHERS: [u32; 4] = [0x14, 0x8000_0000, 0x8000_000e, 0xffff_ffff];

#[test]
fn other_numbers_have_no_forms(rt: HostRuntime) -> Result<(), Fail> {
    for number in &OTHERS {
        let event_type = EventType(*number);
        for (sample, kind) in samples(Data::Other) {
            same("data", &read_as(rt.alloc(), event_type, sample)?, kind)?;
        }
        holds("digests", forms_of(event_type).is_empty())?;
    }
    Ok(())
}
