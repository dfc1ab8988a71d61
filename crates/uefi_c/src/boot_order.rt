ghost use Rattle.std.specs.Prelude.{◌≡◌, ◌≢◌, [], ◌∷◌};
ghost use Rattle.uefi_c.specs.EventData.{HasNumber, HasNoNumber, IsNoOrder};
ghost use Rattle.uefi_c.specs.Status.{ended, IsOneOf, ok, other_data};

use crate::status::{self, UefiStatus};
use tcg_event::BootOrder;

/// Reads the number at an index of the order of boot options that the bytes are: the value of the
/// variable `BootOrder`. Option 1 is that of the variable `Boot0001`.
#[tactic(auto, using(crate::proofs::BootOrders::has_number, crate::proofs::BootOrders::no_number))]
#[unsafe(no_mangle)]
pub extern "C" fn uefi_boot_order(bytes: &[u8], index: usize, out: &mut u16) -> UefiStatus
    ensures number { result ≡ ok → HasNumber bytes.now index out.new }
    ensures known { IsOneOf result (ok ∷ ended ∷ other_data ∷ []) }
    ensures ended { result ≡ ended → HasNoNumber bytes.now index }
    ensures no_order { result ≡ other_data → IsNoOrder bytes.now }
    ensures unchanged { result ≢ ok → out.new ≡ out.old }
{
    let Some(order) = BootOrder::read(bytes) else {
        return status::OTHER_DATA;
    };
    let Some(number) = order.numbers().get(index) else {
        return status::END;
    };
    *out = number;
    status::OK
}
