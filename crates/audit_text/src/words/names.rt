ghost use Rattle.std.specs.Prelude.{◌≡◌};
ghost use Rattle.std.specs.Option.{option_map};
ghost use Rattle.audit_text.specs.words.Names.{algorithm_name};

use uefi_tcg::AlgorithmId;

/// Returns the name of a hash algorithm; `None` for a number without one here.
#[tactic(auto, unfolding(crate::specs::words::Names::algorithm_name))]
pub(crate) fn algorithm_name(algorithm: AlgorithmId) -> Option<&'static str>
    ensures { option_map (λ name. name.now) result ≡ algorithm_name algorithm.0 }
{
    match algorithm {
        AlgorithmId::SHA1 => Some("sha1"),
        AlgorithmId::SHA256 => Some("sha256"),
        AlgorithmId::SHA384 => Some("sha384"),
        AlgorithmId::SHA512 => Some("sha512"),
        AlgorithmId::SM3_256 => Some("sm3_256"),
        AlgorithmId::SHA3_256 => Some("sha3_256"),
        AlgorithmId::SHA3_384 => Some("sha3_384"),
        AlgorithmId::SHA3_512 => Some("sha3_512"),
        _ => None,
    }
}
