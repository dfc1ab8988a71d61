ghost use Rattle.std.specs.Prelude.{◌≡◌, ◌+◌, ◌≤◌, take, drop, length, IfSome, IfNone, ◌≢◌, ◌<◌, [], ◌∷◌};
ghost use Rattle.uefi_base.specs.LittleEndian.{u32_at};
ghost use Rattle.uefi_base.specs.Prefix.{IsPrefix};
ghost use Rattle.tcg_event.specs.Signature.{HasSignatureList, HasSize, IsSignatureList, ReadsSignature, Signature, list_bytes, signature_bytes};
ghost use Rattle.tcg_event.specs.SignatureViews.{list_of, signature_of};
ghost use Rattle.uefi_c.specs.Cursor.{Stands};
ghost use Rattle.uefi_c.specs.EventData.{given};
ghost use Rattle.uefi_c.specs.Signatures.{IsNextList, IsGivenAs, signature_seen};
ghost use Rattle.uefi_c.specs.Status.{bad_signature_list, bad_signature_size, cut, ended, IsOneOf, ok, other_data};

use crate::cursor::bytes_from;
use crate::status::{self, UefiStatus};
use tcg_event::{SignatureData, SignatureList, SignatureLists};
use uefi_base::little_endian::u32_at;

/// The offset of the length in a list, and the length of the fields before a list's own header.
const LIST_SIZE_OFFSET: usize = 16;

const FIELDS_LENGTH: usize = 28;

/// The length of the owner in a signature.
const OWNER_LENGTH: u32 = 16;

/// A list of signatures of one type (UEFI 2.10, 32.4.1, `EFI_SIGNATURE_LIST`).
#[derive(Clone, Copy)]
#[repr(C)]
pub struct UefiSignatureList<'a> {
    /// The list's own header, whose meaning the type says.
    pub header: &'a [u8],
    /// The bytes of the signatures.
    pub signatures: &'a [u8],
    /// The size of each signature in bytes, with the sixteen of its owner.
    pub signature_size: u32,
    /// The GUID of the type.
    pub signature_type: [u8; 16],
}

/// A signature (UEFI 2.10, 32.4.1, `EFI_SIGNATURE_DATA`).
#[derive(Clone, Copy)]
#[repr(C)]
pub struct UefiSignature<'a> {
    /// The data: a hash or a certificate, as the type of the list says.
    pub value: &'a [u8],
    /// The GUID of the owner.
    pub owner: [u8; 16],
}

/// Reads the list at the offset of a signature database, and moves the offset to its end.
#[unsafe(no_mangle)]
pub extern "C" fn uefi_signature_list_next<'a>(
    lists: &'a [u8],
    offset: &mut usize,
    out: &mut UefiSignatureList<'a>,
) -> UefiStatus
    ensures list { result ≡ ok → IsNextList lists.now offset.old out.new offset.new }
    ensures known { IsOneOf result (ok ∷ ended ∷ bad_signature_list ∷ []) }
    ensures ended { result ≡ ended → length lists.now ≤ offset.old }
    ensures bad_list { result ≡ bad_signature_list → offset.old < length lists.now }
    ensures none { result ≢ ok → ¬ HasSignatureList (drop offset.old lists.now) }
    ensures offset_unchanged { result ≢ ok → offset.new ≡ offset.old }
    ensures out_unchanged { result ≢ ok → out.new ≡ out.old }
{
    let Some((list, end)) = list_at(lists, *offset) else {
        return if *offset < lists.len() {
            status::BAD_SIGNATURE_LIST
        } else {
            status::END
        };
    };
    *out = list;
    *offset = end;
    status::OK
}

/// Returns the list at the offset, and the offset of its end.
fn list_at(lists: &[u8], offset: usize) -> Option<(UefiSignatureList<'_>, usize)>
    ensures list { IfSome result (λ found. IsNextList lists.now offset found.0 found.1) }
    ensures none { IfNone result (¬ HasSignatureList (drop offset lists.now)) }
{
    let rest = bytes_from(lists, offset)?;
    let (list, bytes) = first_list(rest)?;
    let end = offset + bytes.len();
    Some((seen(bytes, &list), end))
}

/// Returns the list that the bytes begin with, and its bytes.
fn first_list(bytes: &[u8]) -> Option<(SignatureList<'_>, &[u8])>
    ensures list { IfSome result (λ found. IsSignatureList (list_of found.0)) }
    ensures part { IfSome result (λ found. found.1.now ≡ list_bytes (list_of found.0)) }
    ensures prefix { IfSome result (λ found. IsPrefix found.1.now bytes.now) }
    ensures none { IfNone result (¬ HasSignatureList bytes.now) }
{
    let part = stated_part(bytes)?;
    let list = SignatureLists::read(part)?.iter().next()?;
    Some((list, part))
}

/// Returns as many of the bytes as a list that they begin with is stated to have.
fn stated_part(bytes: &[u8]) -> Option<&[u8]>
    ensures part { IfSome result (λ part. part.now ≡ take (u32_at bytes.now 16) bytes.now) }
    ensures within { IfSome result (λ part. u32_at bytes.now 16 ≤ length bytes.now) }
    ensures none { IfNone result (¬ HasSignatureList bytes.now) }
{
    if bytes.len() < FIELDS_LENGTH {
        return None;
    }
    let size = u32_at(bytes, LIST_SIZE_OFFSET) as usize;
    let (part, _) = bytes.split_at_checked(size)?;
    Some(part)
}

/// Returns the parts of the list that the bytes are.
fn seen<'a>(bytes: &'a [u8], list: &SignatureList<'a>) -> UefiSignatureList<'a>
    requires is_list { IsSignatureList (list_of list.now) }
    requires encoded { bytes.now ≡ list_bytes (list_of list.now) }
    ensures { IsGivenAs (list_of list.now) result }
{
    let header = list.header();
    let (_, body) = bytes.split_at(FIELDS_LENGTH);
    let (_, signatures) = body.split_at(header.len());
    let signature_type = list.signature_type().0.0;
    UefiSignatureList {
        header,
        signatures,
        signature_size: list.signature_size(),
        signature_type,
    }
}

/// Reads the signature that the bytes are: the value of a variable that was measured as an authority.
#[unsafe(no_mangle)]
pub extern "C" fn uefi_signature<'a>(bytes: &'a [u8], out: &mut UefiSignature<'a>) -> UefiStatus
    ensures signature { ReadsSignature bytes.now (given result (signature_seen out.new)) }
    ensures known { IsOneOf result (ok ∷ other_data ∷ []) }
    ensures unchanged { result ≢ ok → out.new ≡ out.old }
{
    let Some(signature) = SignatureData::read(bytes) else {
        return status::OTHER_DATA;
    };
    *out = UefiSignature {
        value: signature.data,
        owner: signature.owner.0,
    };
    status::OK
}

/// Reads the signature of a size at the offset of a list's signatures, and moves the offset to its
/// end. The size is tested first: one that has no room for the owner is bad also at the end.
#[unsafe(no_mangle)]
pub extern "C" fn uefi_signature_next<'a>(
    signatures: &'a [u8],
    signature_size: u32,
    offset: &mut usize,
    out: &mut UefiSignature<'a>,
) -> UefiStatus
    ensures signature { result ≡ ok → HasSize signature_size (signature_seen out.new) }
    ensures stands { result ≡ ok → Stands (signature_bytes (signature_seen out.new))
        signatures.now offset.old offset.new }
    ensures known { IsOneOf result (ok ∷ ended ∷ cut ∷ bad_signature_size ∷ []) }
    ensures ended { result ≡ ended → length signatures.now ≤ offset.old }
    ensures cut { result ≡ cut → offset.old < length signatures.now }
    ensures bad_size { result ≡ bad_signature_size → signature_size < 16 }
    ensures good_size { result ≢ bad_signature_size → 16 ≤ signature_size }
    ensures none { result ≢ ok → (signature : Signature) → HasSize signature_size signature
        → IsPrefix (signature_bytes signature) (drop offset.old signatures.now) → ⊥ }
    ensures offset_unchanged { result ≢ ok → offset.new ≡ offset.old }
    ensures out_unchanged { result ≢ ok → out.new ≡ out.old }
{
    let Some(signature) = signature_at(signatures, signature_size as usize, *offset) else {
        return no_signature(signatures.len(), signature_size, *offset);
    };
    *out = UefiSignature {
        value: signature.data,
        owner: signature.owner.0,
    };
    *offset += signature_size as usize;
    status::OK
}

/// Returns why no signature of a size is at the offset in this many bytes.
fn no_signature(length: usize, size: u32, offset: usize) -> UefiStatus
    ensures known { IsOneOf result (ended ∷ cut ∷ bad_signature_size ∷ []) }
    ensures ended { result ≡ ended → length ≤ offset }
    ensures cut { result ≡ cut → offset < length }
    ensures bad_size { result ≡ bad_signature_size → size < 16 }
    ensures good_size { result ≢ bad_signature_size → 16 ≤ size }
{
    if size < OWNER_LENGTH {
        return status::BAD_SIGNATURE_SIZE;
    }
    if offset < length {
        status::CUT
    } else {
        status::END
    }
}

/// Returns the signature of a size at the offset.
fn signature_at(signatures: &[u8], size: usize, offset: usize) -> Option<SignatureData<'_>>
    ensures signature { IfSome result (λ signature. HasSize size (signature_of signature)) }
    ensures prefix { IfSome result (λ signature.
        IsPrefix (signature_bytes (signature_of signature)) (drop offset signatures.now)) }
    ensures within { IfSome result (λ signature. offset + size ≤ length signatures.now) }
    ensures none { IfNone result ((signature : Signature) → HasSize size signature
        → IsPrefix (signature_bytes signature) (drop offset signatures.now) → ⊥) }
{
    let (bytes, _) = bytes_from(signatures, offset)?.split_at_checked(size)?;
    SignatureData::read(bytes)
}
