//! The SM3 hash function (GB/T 32905-2016; ISO/IEC 10118-3:2018), with the interface of the crate
//! `sm3`: a hasher takes a message piece by piece, and gives its digest of 32 bytes.
//!
//! Begin with [`Digest::digest`] if the message is one slice, and with [`Digest::new`],
//! [`Digest::update`] and [`Digest::finalize`] if it has several parts:
//!
//! ```text
//! use sm3::{Digest, Sm3};
//!
//! let mut hasher = Sm3::new();
//! hasher.update(b"a");
//! hasher.update(b"bc");
//! let digest: [u8; 32] = hasher.finalize();
//! assert_eq!(rt; digest, Sm3::digest(b"abc"));
//! ```
//!
//! The contracts say that the digest is `sm3` of the message (`specs/Sm3.antt`), however it was cut
//! into pieces. Nothing here allocates memory.
#![tactic(auto)]

pub use self::hasher::Sm3;
pub use sha2::Digest;

mod compression;
mod hasher;
pub mod laws;
