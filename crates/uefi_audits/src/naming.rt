//! The names of banks, as tpm2-tools has them, and the banks of algorithms.

ghost use Rattle.std.specs.Prelude.{◌≡◌, IfSome, IfNone};
ghost use Rattle.pcr_replay.specs.declared.bank.Bank.{Bank};
ghost use Rattle.uefi_audits.specs.Naming.{bank_name, bank_of};

use pcr_replay::Bank;
use uefi_tcg::AlgorithmId;

/// The names of the banks that can be replayed, as tpm2-tools has them.
pub const BANK_NAMES: [&str; 5] = ["sha1", "sha256", "sha384", "sha512", "sm3_256"];

/// Returns the name of a bank, as tpm2-tools has it.
pub fn bank_name(bank: Bank) -> &'static str
    ensures { result.now ≡ bank_name bank }
{
    match bank {
        Bank::Sha1 => "sha1",
        Bank::Sha256 => "sha256",
        Bank::Sha384 => "sha384",
        Bank::Sha512 => "sha512",
        Bank::Sm3 => "sm3_256",
    }
}

/// Returns the bank of this name; `None` if no bank that can be replayed has it.
pub fn bank_named(name: &str) -> Option<Bank>
    ensures bank { IfSome result (λ bank. name.now ≡ bank_name bank) }
    ensures none { IfNone result ((bank : Bank) → name.now ≡ bank_name bank → ⊥) }
{
    match name {
        "sha1" => Some(Bank::Sha1),
        "sha256" => Some(Bank::Sha256),
        "sha384" => Some(Bank::Sha384),
        "sha512" => Some(Bank::Sha512),
        "sm3_256" => Some(Bank::Sm3),
        _ => None,
    }
}

/// Returns the bank of an algorithm; `None` if its PCRs can't be replayed.
pub fn bank_of(algorithm: AlgorithmId) -> Option<Bank>
    ensures { result ≡ bank_of algorithm.0 }
{
    Bank::of(algorithm)
}
