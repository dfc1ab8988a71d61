ghost use Rattle.std.specs.Prelude.{◌≡◌, ◌≤◌, length, IsTrue};
ghost use Rattle.uefi_node.specs.Signature.{type_of_signature, signature_bytes, is_signature, is_defined, are_zero};

use crate::read::bytes_at;
use uefi_base::Guid;

/// What identifies the partition table of a partition's drive, or the partition (UEFI 2.10,
/// 10.3.5.1).
///
/// | variant | signature type | signature, 16 bytes |
/// |---|---|---|
/// | `None` | 0 | zeros |
/// | `Mbr` | 1 | four bytes, and then zeros |
/// | `Guid` | 2 | a GUID |
/// | `Unknown` | any other type, or 0 or 1 with other bytes | any |
#[derive(Clone, Copy, PartialEq, Eq, Debug)]
pub enum PartitionSignature {
    /// No signature.
    None,
    /// The signature of a master boot record, from its offset 0x1b8.
    Mbr([u8; 4]),
    /// The GUID of the partition.
    Guid(Guid),
    /// A signature that the standard doesn't define.
    Unknown {
        /// The type of the signature.
        signature_type: u8,
        /// The signature.
        signature: [u8; 16],
    },
}

impl PartitionSignature {
    /// Returns the signature with this type and these bytes.
    #[tactic(auto, using(crate::proofs::Signatures::sixteen_zeros))]
    pub fn new(signature_type: u8, signature: [u8; 16]) -> PartitionSignature
        ensures signature_type { type_of_signature result ≡ signature_type }
        ensures signature { signature_bytes result ≡ signature }
        ensures valid { IsTrue (is_signature result) }
    {
        if signature_type == 0 && are_zero(&signature) {
            return PartitionSignature::None;
        }
        if signature_type == 1 && are_zero(&signature[4..]) {
            return PartitionSignature::Mbr(bytes_at(&signature, 0));
        }
        if signature_type == 2 {
            return PartitionSignature::Guid(Guid(signature));
        }
        PartitionSignature::Unknown {
            signature_type,
            signature,
        }
    }

    /// Returns the type of the signature.
    pub fn signature_type(&self) -> u8
        ensures { result ≡ type_of_signature self.now }
    {
        match self {
            PartitionSignature::None => 0,
            PartitionSignature::Mbr(_) => 1,
            PartitionSignature::Guid(_) => 2,
            PartitionSignature::Unknown { signature_type, .. } => *signature_type,
        }
    }

    /// Returns the 16 bytes of the signature.
    pub fn to_bytes(&self) -> [u8; 16]
        ensures { result ≡ signature_bytes self.now }
    {
        match self {
            PartitionSignature::None => [0; 16],
            PartitionSignature::Mbr([a, b, c, d]) => {
                [*a, *b, *c, *d, 0, 0, 0, 0, 0, 0, 0, 0, 0, 0, 0, 0]
            }
            PartitionSignature::Guid(guid) => guid.to_bytes(),
            PartitionSignature::Unknown { signature, .. } => *signature,
        }
    }

    /// Returns whether [`PartitionSignature::new`] returns this value for its type and bytes: an
    /// `Unknown` signature isn't one of the other variants.
    pub fn is_valid(&self) -> bool
        ensures { result ≡ is_signature self.now }
    {
        match self {
            PartitionSignature::Unknown {
                signature_type,
                signature,
            } => !is_defined(*signature_type, signature),
            _ => true,
        }
    }
}

/// Returns whether the standard defines a signature of this type and these bytes.
fn is_defined(signature_type: u8, signature: &[u8]) -> bool
    requires { 4 ≤ length signature.now }
    ensures { result ≡ is_defined signature_type signature.now }
{
    let (_, after) = signature.split_at(4);
    match signature_type {
        0 => are_zero(signature),
        1 => are_zero(after),
        2 => true,
        _ => false,
    }
}

/// Returns whether all bytes are zero.
fn are_zero(bytes: &[u8]) -> bool
    ensures { result ≡ are_zero bytes.now }
{
    bytes.iter().all(|byte| *byte == 0)
}
