ghost use Rattle.std.specs.Prelude.{◌≡◌, ◌↔◌, ◌+◌, ◌<◌, ◌≤◌, ◌^◌, Some, length, IsTrue, OnOk, OnErr};
ghost use Rattle.std.specs.Hash as fed;
ghost use Rattle.std.specs.List.{fold};
ghost use Rattle.uefi_base.specs.Buffer.{put_prefix};
ghost use Rattle.uefi_tcg.specs.v1.Event.{event_bytes, header_length};
ghost use Rattle.uefi_tcg.specs.v1.Writing.{event_given};

use std::alloc::Allocator;
use std::cmp::Ordering;
use std::hash::{Hash, Hasher};
use uefi_base::Error;
use uefi_tcg::v1::{BootServiceCapability, PcrEvent, Sha1Digest, Version, write_event};
use uefi_tcg::{EventType, PcrIndex};

/// Writes an event to a caller's buffer, if it fits; else the buffer stays as it was.
pub fn write_loader_event(
    buffer: &mut [u8],
    pcr: PcrIndex,
    digest: Sha1Digest,
    event_data: &[u8],
) -> Result<(), Error<Option<usize>>>
    ensures written { OnOk result (buffer.new ≡ put_prefix
        (event_bytes (event_given pcr EventType.IPL digest event_data.now)) buffer.old) }
    ensures unchanged { OnErr result (buffer.new ≡ buffer.old) }
{
    write_event(buffer, pcr, EventType::IPL, digest, event_data)?;
    Ok(())
}

/// Returns the room that an event wants, as the error says.
pub fn wanted_room(buffer: &mut [u8], digest: Sha1Digest, event_data: &[u8]) -> Option<usize>
    requires four { length event_data.now ≡ 4 }
    requires short { length buffer.old < header_length + 4 }
    ensures { result ≡ Some (header_length + 4) }
{
    match PcrEvent::new_in_buffer(buffer, PcrIndex(4), EventType::IPL, digest, event_data) {
        Ok(_) => None,
        Err(error) => *error.data(),
    }
}

/// Returns whether an event that owns its bytes equals the one in a buffer that is made of the same
/// values: always, unless an allocation fails.
pub fn is_same_in_box<A: Allocator>(
    alloc: A,
    buffer: &mut [u8],
    digest: Sha1Digest,
    event_data: &[u8],
) -> bool
    requires short { length event_data.now < 2 ^ 32 }
    requires room { header_length + length event_data.now ≤ length buffer.old }
    ensures { IsTrue result }
{
    let Ok(boxed) = PcrEvent::new_in_box(alloc, PcrIndex(4), EventType::IPL, digest, event_data)
    else {
        return true;
    };
    match PcrEvent::new_in_buffer(buffer, PcrIndex(4), EventType::IPL, digest, event_data) {
        Ok(event) => boxed.as_event() == event,
        Err(_) => false,
    }
}

/// Returns whether two capabilities are equal: exactly if all their fields are.
pub fn is_same_capability(one: &BootServiceCapability, other: &BootServiceCapability) -> bool
    ensures { IsTrue result ↔ (one.now ≡ other.now) }
{
    one == other
}

/// Returns whether neither capability is less: exactly if they are equal.
pub fn is_neither_less(one: &BootServiceCapability, other: &BootServiceCapability) -> bool
    ensures { IsTrue result ↔ (one.now ≡ other.now) }
{
    one.cmp(other) == Ordering::Equal
}

/// Returns whether one version is less, where both have one major number: it is if its minor number
/// is.
pub fn is_earlier(one: &Version, other: &Version) -> bool
    requires major { one.now.major ≡ other.now.major }
    requires minor { one.now.minor < other.now.minor }
    ensures { IsTrue result }
{
    one < other
}

/// Returns the default of a version: all zero.
pub fn zero_version() -> Version
    ensures { result ≡ record { major = 0; minor = 0; rev_major = 0; rev_minor = 0 } }
{
    Version::default()
}

/// Returns whether one PCR is less: exactly if its number is.
pub fn is_lower_pcr(one: &PcrIndex, other: &PcrIndex) -> bool
    ensures { IsTrue result ↔ (one.now.0 < other.now.0) }
{
    one < other
}

/// Hashes equal PCRs: their hashes are equal, those of their numbers.
pub fn hashes<H: Hasher>(one: &PcrIndex, other: &PcrIndex, mut first: H, mut second: H) -> (H, H)
    requires pcrs { one.now ≡ other.now }
    requires hashers { first ≡ second }
    ensures same { result.0 ≡ result.1 }
    ensures number { result.0 ≡ fold H.write first (fed.u32 one.now.0) }
{
    one.hash(&mut first);
    other.hash(&mut second);
    (first, second)
}
