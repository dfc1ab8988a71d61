ghost use Rattle.std.specs.Prelude.{◌≡◌, ◌≤◌, ℕ, length, nat_eq};
ghost use Rattle.std.specs.Cmp.{partial_equiv_from_equiv, on_per, on_equiv};
ghost use Rattle.std.specs.Cmp.Lexicographic.{pointwise, nat_list_eq_equiv};

/// The most bytes that a PCR has.
pub(crate) const ROOM: usize = 64;

/// What a PCR holds: as many bytes as its bank's digests have.
///
/// Two are equal if all their bytes are.
#[derive(Clone, Copy)]
pub struct PcrValue {
    bytes: [u8; ROOM],
    length: usize,
    pub ghost short: { length ≤ 64 },
}

impl PcrValue {
    ghost use Rattle.pcr_replay.specs.Views.{value_of};

    /// Returns the value with these bytes, of which there are at most 64.
    pub fn new(bytes: &[u8]) -> PcrValue
        requires { length bytes.now ≤ 64 }
        ensures { value_of result ≡ bytes.now }
    {
        let mut room = [0; ROOM];
        room[..bytes.len()].copy_from_slice(bytes);
        PcrValue {
            bytes: room,
            length: bytes.len(),
        }
    }

    /// Returns the bytes.
    pub fn as_bytes(&self) -> &[u8]
        ensures { result.now ≡ value_of self.now }
    {
        &self.bytes[..self.length]
    }
}

/// Equality of all bytes.
impl PartialEq for PcrValue {
    ghost use Rattle.pcr_replay.specs.Views.{value_of};

    ghost eq = { λ x y. pointwise nat_eq (value_of x) (value_of y) };

    ghost laws = { on_per value_of (partial_equiv_from_equiv nat_list_eq_equiv) };

    fn eq(&self, other: &Self) -> bool {
        self.as_bytes() == other.as_bytes()
    }
}

impl Eq for PcrValue {
    ghost use Rattle.pcr_replay.specs.Views.{value_of};

    ghost laws = { on_equiv value_of nat_list_eq_equiv };
}
