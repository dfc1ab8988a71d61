ghost use Rattle.std.specs.Prelude.{◌≡◌, option_map};
ghost use Rattle.audit_text.specs.words.Signatures.{signature_type_name};

use tcg_event::SignatureType;

/// The longest data of a signature that are shown whole: a hash of 64 bytes, with the time of a
/// revocation.
pub(crate) const LONGEST_HASH: usize = 80;

/// Returns what the signatures of a type are; `None` for a type without a name here.
#[tactic(auto, unfolding(crate::specs::words::Signatures::signature_type_name))]
pub(crate) fn signature_type_name(kind: SignatureType) -> Option<&'static str>
    ensures { option_map (λ name. name.now) result ≡ signature_type_name kind.0.0 }
{
    let guid = kind.0;
    if guid == SignatureType::X509.0 {
        return Some("X.509 certificates");
    }
    if guid == SignatureType::SHA256.0 {
        return Some("SHA-256 hashes");
    }
    if guid == SignatureType::SHA1.0 {
        return Some("SHA-1 hashes");
    }
    if guid == SignatureType::SHA384.0 {
        return Some("SHA-384 hashes");
    }
    if guid == SignatureType::SHA512.0 {
        return Some("SHA-512 hashes");
    }
    if guid == SignatureType::RSA2048.0 {
        return Some("RSA-2048 keys");
    }
    if guid == SignatureType::X509_SHA256.0 {
        return Some("SHA-256 hashes of X.509 certificates, and times");
    }
    None
}
