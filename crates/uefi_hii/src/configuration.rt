ghost use Rattle.std.specs.Prelude.{List};
ghost use Rattle.uefi_hii.specs.Cut.{Part, Cut};
ghost use Rattle.uefi_hii.specs.Reading.{IsFirstResult};

use crate::error::{ConfigHdrSection, ParseError};
use crate::peeked::PeekedPairs;
use crate::reading::read_group;
use std::alloc::{Allocator, Global};
use uefi_base::Guid;
use uefi_path::BoxedDevicePath;

/// An element of a configuration: a part of its block of bytes (UEFI 2.10, 35.2.1 "String Syntax").
///
/// In the text it is the pairs `OFFSET`, `WIDTH` and `VALUE`, in this order, and the pairs that
/// follow them, up to the next `OFFSET` or `GUID`.
#[derive(Drop)]
pub struct ConfigurationStringElement<A: Allocator = Global> {
    /// Where the bytes begin in the block.
    pub offset: u64,
    /// How many bytes the element has, as `WIDTH` states. Whether `value` has as many isn't tested.
    pub width: u64,
    /// The bytes that `VALUE` spells, in the order of memory: those that the text spells last come
    /// first.
    pub value: Vec<u8, A>,
    /// The pairs that follow `VALUE`, up to the next whose key is `OFFSET` or `GUID`, in order. A
    /// key that comes again is kept again.
    pub nvconfig: Vec<NvPair<A>, A>,
}

/// A pair that follows the value of an element (UEFI 2.10, 35.2.1 "String Syntax", `NvConfig`).
///
/// Key and value are kept as the text has them: nothing is read as hex.
#[derive(Drop)]
pub struct NvPair<A: Allocator = Global> {
    /// The text before the first `=`, or the whole piece where it has none. It may be empty.
    pub key: String<A>,
    /// The text after the first `=`, if there is one.
    pub value: Option<String<A>>,
}

/// A configuration (UEFI 2.10, 35.2.1 "String Syntax"): what a driver's form holds, or an
/// alternative of it.
///
/// In the text it is the pairs `GUID`, `NAME` and one with the path, perhaps `ALTCFG`, and then
/// those of the elements. All numbers, names and bytes are spelled in hex, as the functions
/// `parse_.._from_hex` say.
///
/// # Examples
///
/// A setting is the value at an offset and a width:
///
/// ```
/// use std::alloc::Global;
/// use uefi_hii::{ConfigurationString, ParseError};
///
/// /// Returns the bytes of the first element that has this offset and this width, if there is one.
/// pub fn value_of(configuration: &ConfigurationString, offset: u64, width: u64) -> Option<&[u8]> {
///     for element in configuration.elements.as_slice() {
///         if element.offset == offset && element.width == width {
///             return Some(element.value.as_slice());
///         }
///     }
///     None
/// }
///
/// /// Returns the bytes of that element of the first configuration of a text.
/// pub fn first_value(
///     alloc: Global,
///     text: &str,
///     offset: u64,
///     width: u64,
/// ) -> Result<Option<Vec<u8>>, ParseError> {
///     let configuration = ConfigurationString::from_str(alloc, text)?;
///     match value_of(&configuration, offset, width) {
///         Some(bytes) => Ok(Some(Vec::from_slice(alloc, bytes)?)),
///         None => Ok(None),
///     }
/// }
/// ```
///
/// Both functions are proved in `crates/uefi_examples/src/configuration.rt`, which shows their
/// contracts.
#[derive(Drop)]
pub struct ConfigurationString<A: Allocator = Global> {
    /// The GUID by which the driver routes the configuration.
    pub guid: Guid,
    /// The name of the configuration, as UTF-8.
    pub name: String<A>,
    /// The device path that the value of the third pair begins with, whatever its key.
    pub device_path: BoxedDevicePath<A>,
    /// The low 16 bits of `ALTCFG`, which an alternative configuration has.
    pub alt_cfg_id: Option<u16>,
    /// The elements, in order.
    pub elements: Vec<ConfigurationStringElement<A>, A>,
}

impl<A: Allocator + Copy> ConfigurationString<A> {
    /// Returns the first configuration of a text.
    ///
    /// The other configurations are neither read nor tested: [`parse_all`](crate::parse_all) and
    /// [`MultiConfigurationStringIter`](crate::MultiConfigurationStringIter) give all of them.
    ///
    /// # Errors
    ///
    /// Pairs are read in order, and the first that is missing or wrong decides:
    ///
    /// - [`ParseError::ConfigHdr`] with the part of the header that it is; with
    ///   [`ConfigHdrSection::Guid`] also for a text without pairs.
    /// - [`ParseError::BlockName`] if an element doesn't begin with `OFFSET` and `WIDTH`, both with
    ///   a number.
    /// - [`ParseError::BlockConfig`] if `VALUE` doesn't follow them.
    /// - [`ParseError::Memory`] if an allocation fails before an error is found. [`ParseError`] says
    ///   which pairs are judged before memory is asked for.
    #[tactic(auto, using(crate::proofs::Wholes::first_steps))]
    pub fn from_str(alloc: A, text: &str) -> Result<ConfigurationString<A>, ParseError>
        ensures cut { (parts : List Part) × Cut text.now parts × IsFirstResult parts result }
        ensures only { (parts : List Part) → Cut text.now parts → IsFirstResult parts result }
    {
        let mut pairs = PeekedPairs::new(text);
        if pairs.is_empty() {
            return Err(ParseError::ConfigHdr(ConfigHdrSection::Guid));
        }
        read_group(alloc, &mut pairs)
    }
}
