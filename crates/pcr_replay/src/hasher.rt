ghost use Rattle.std.specs.Prelude.{◌≡◌, ◌++◌, [], ℕ, List};
ghost use Rattle.pcr_replay.specs.Banks.{hash_of};
ghost use Rattle.pcr_replay.specs.private.Hashers.{Holds};
ghost use Rattle.pcr_replay.specs.Views.{value_of};
ghost use Rattle.pcr_replay.specs.declared.bank.Bank.{Bank};

use crate::bank::Bank;
use crate::value::PcrValue;
use sha1::Sha1;
use sha2::{Digest, Sha256, Sha384, Sha512};
use sm3::Sm3;

/// Returns the bank's digest of two parts that follow one another.
pub(crate) fn hash_joined(bank: Bank, first: &[u8], second: &[u8]) -> PcrValue
    ensures { value_of result ≡ hash_of bank (first.now ++ second.now) }
{
    let mut hasher = Hasher::new(bank);
    hasher.update(first);
    hasher.update(second);
    hasher.finalize()
}

/// A bank's hash function, over bytes that it is given in parts.
#[derive(Drop)]
pub(crate) enum Hasher {
    /// That of [`Bank::Sha1`].
    Sha1(Sha1),
    /// That of [`Bank::Sha256`].
    Sha256(Sha256),
    /// That of [`Bank::Sha384`].
    Sha384(Sha384),
    /// That of [`Bank::Sha512`].
    Sha512(Sha512),
    /// That of [`Bank::Sm3`].
    Sm3(Sm3),
}

impl Hasher {
    /// Returns the hash function of a bank, before any bytes.
    pub(crate) fn new(bank: Bank) -> Hasher
        ensures { Holds bank result [] }
    {
        match bank {
            Bank::Sha1 => Hasher::Sha1(Sha1::new()),
            Bank::Sha256 => Hasher::Sha256(Sha256::new()),
            Bank::Sha384 => Hasher::Sha384(Sha384::new()),
            Bank::Sha512 => Hasher::Sha512(Sha512::new()),
            Bank::Sm3 => Hasher::Sm3(Sm3::new()),
        }
    }

    /// Takes the bytes that follow.
    pub(crate) fn update(&mut self, bytes: &[u8])
        ensures { (bank : Bank) (message : List ℕ)
            → Holds bank self.old message → Holds bank self.new (message ++ bytes.now) }
    {
        match self {
            Hasher::Sha1(hasher) => hasher.update(bytes),
            Hasher::Sha256(hasher) => hasher.update(bytes),
            Hasher::Sha384(hasher) => hasher.update(bytes),
            Hasher::Sha512(hasher) => hasher.update(bytes),
            Hasher::Sm3(hasher) => hasher.update(bytes),
        }
    }

    /// Returns the digest of all bytes.
    pub(crate) fn finalize(self) -> PcrValue
        ensures { (bank : Bank) (message : List ℕ)
            → Holds bank self message → value_of result ≡ hash_of bank message }
    {
        match self {
            Hasher::Sha1(hasher) => {
                let digest = hasher.finalize();
                PcrValue::new(digest.as_slice())
            }
            Hasher::Sha256(hasher) => {
                let digest = hasher.finalize();
                PcrValue::new(digest.as_slice())
            }
            Hasher::Sha384(hasher) => {
                let digest = hasher.finalize();
                PcrValue::new(digest.as_slice())
            }
            Hasher::Sha512(hasher) => {
                let digest = hasher.finalize();
                PcrValue::new(digest.as_slice())
            }
            Hasher::Sm3(hasher) => {
                let digest = hasher.finalize();
                PcrValue::new(digest.as_slice())
            }
        }
    }
}
