ghost use Rattle.std.specs.Prelude.{◌≡◌};
ghost use Rattle.uefi_path.specs.LoadOption.{IsLoadOption, load_option_bytes};
ghost use Rattle.uefi_path.specs.private.Encoding.{EncodesOption};
ghost use Rattle.uefi_path.specs.private.OneLoadOption.{EncodesOption-prop};

use crate::load_option::LoadOption;
use std::alloc::{Allocator, Global};

/// A load option that owns its bytes, as [`LoadOption::new_in_box`] makes it.
#[derive(Drop)]
pub struct BoxedLoadOption<A: Allocator = Global> {
    bytes: Vec<u8, A>,
    pub ghost option: { EncodesOption bytes.items } by { EncodesOption-prop bytes.items },
}

impl<A: Allocator> BoxedLoadOption<A> {
    ghost use Rattle.uefi_path.specs.LoadOptionViews.{load_option_of, boxed_load_option_of};

    /// Returns the load option that `bytes`, which are known to be one, encode.
    pub(crate) fn new_unchecked(bytes: Vec<u8, A>) -> BoxedLoadOption<A>
        requires { EncodesOption bytes.items }
        ensures { load_option_bytes (boxed_load_option_of result) ≡ bytes.items }
    {
        BoxedLoadOption { bytes }
    }

    /// Returns the option, as a view of the bytes that this one owns.
    pub fn as_load_option(&self) -> LoadOption<'_>
        ensures { load_option_of result ≡ boxed_load_option_of self.now }
    {
        LoadOption::new_unchecked(self.bytes.as_slice())
    }

    /// Returns all bytes of the option: the value of a variable such as `Boot0000`.
    pub fn as_bytes(&self) -> &[u8]
        ensures bytes { result.now ≡ load_option_bytes (boxed_load_option_of self.now) }
        ensures option { IsLoadOption (boxed_load_option_of self.now) }
    {
        self.bytes.as_slice()
    }
}
