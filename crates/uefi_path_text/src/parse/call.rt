//! A node's text with arguments.

ghost use Rattle.std.specs.Prelude.{◌≡◌, ◌≤◌, ◌<◌, ◌+◌, length, is_some, IfOk, IfErr, OnErr, IfSome, IfNone, IsSomeAnd, IsTrue, Some, None};
ghost use Rattle.uefi_base.specs.Buffer.{put_at};
ghost use Rattle.uefi_path_text.specs.parse.Arguments.{values_in, number_from, texts_of};
ghost use Rattle.uefi_path_text.specs.parse.Nodes.{node_in};
ghost use Rattle.uefi_path_text.specs.private.FormViews.{form_of, arguments_of, source_of};
ghost use Rattle.uefi_path_text.specs.private.FromText.{rest_parts};

use crate::form::{Arguments, NodeForm, Parameter, Source};
use crate::parse::check::check;
use crate::parse::data::{GREATEST_DATA, Listed};
use crate::parse::excess::excess;
use crate::parse::fault::{Fault, FaultKind};
use crate::parse::repeated::{put_repeated, repeated_len};
use uefi_base::buffer::put;
use uefi_path::{DeviceSubType, DeviceType};

/// A node's text with arguments, in a form that they have.
#[derive(Clone, Copy)]
pub(crate) struct Call<'a> {
    /// The form.
    form: &'static NodeForm,
    /// The texts of the arguments, with commas between them; `None` if there are none.
    texts: Option<&'a [u8]>,
    ghost read: { IsTrue (is_some
        (values_in (arguments_of form.now.arguments) (rest_parts 0x2c texts))) },
}

impl<'a> Call<'a> {
    ghost use Rattle.uefi_path_text.specs.private.Calls.{call_values, call_node, is_known_end};

    /// Reads arguments in a form.
    ///
    /// # Errors
    ///
    /// The first fault of the arguments.
    pub(crate) fn new(form: &'static NodeForm, arguments: &'a [u8]) -> Result<Call<'a>, Fault>
        ensures ok { IfOk result (λ call. node_in (form_of form.now) (texts_of arguments.now)
            ≡ Some (call_node call)) }
        ensures err { OnErr result (node_in (form_of form.now) (texts_of arguments.now) ≡ None) }
        ensures offset { IfErr result (λ fault. fault.offset ≤ length arguments.now) }
    {
        let texts = if arguments.is_empty() {
            None
        } else {
            Some(arguments)
        };
        if let Err(fault) = check(&form.arguments, texts, arguments.len()) {
            return Err(fault.or_excess(excess(&form.arguments, texts, arguments.len())));
        }
        let call = Call { form, texts };
        let Some(size) = call.data_len() else {
            return Err(Fault {
                offset: excess(&form.arguments, texts, arguments.len()),
                kind: FaultKind::TooLong,
            });
        };
        if size == 0 && call.is_end() {
            return Err(Fault {
                offset: arguments.len(),
                kind: FaultKind::Argument,
            });
        }
        Ok(call)
    }

    /// Returns the values of arguments that are listed.
    fn listed(&self, parameters: &'static [Parameter]) -> Listed<'a>
        ensures parameters { result.parameters.now ≡ parameters.now }
        ensures texts { result.texts ≡ self.now.texts }
    {
        Listed {
            parameters,
            texts: self.texts,
        }
    }

    /// Returns a type or a subtype.
    fn number(&self, source: &Source) -> u8
        ensures { result ≡ number_from (arguments_of self.now.form.now.arguments)
            (call_values self.now) (source_of source.now) }
    {
        match (source, self.form.arguments) {
            (Source::Known(number), _) => *number,
            (Source::Stated(index), Arguments::Listed(parameters, _)) => self
                .listed(parameters)
                .byte(*index),
            (Source::Stated(_), Arguments::Repeated(_, _)) => 0,
        }
    }

    /// Returns the length of the data, or `None` if no node has so many bytes.
    pub(crate) fn data_len(&self) -> Option<usize>
        ensures some { IfSome result (λ n. n ≡ length (call_node self.now).payload) }
        ensures few { IfSome result (λ n. n ≤ 0xfffb) }
        ensures none { IfNone result (0xfffb < length (call_node self.now).payload) }
    {
        match self.form.arguments {
            Arguments::Listed(parameters, parts) => self.listed(parameters).len(parts),
            Arguments::Repeated(prefix, kind) => with_prefix(
                prefix,
                repeated_len(kind, self.texts),
            ),
        }
    }

    /// Writes the data at an offset.
    pub(crate) fn put_data(&self, buffer: &mut [u8], offset: usize)
        requires { offset + length (call_node self.now).payload ≤ length buffer.old }
        ensures { buffer.new ≡ put_at offset (call_node self.now).payload buffer.old }
    {
        match self.form.arguments {
            Arguments::Listed(parameters, parts) => self
                .listed(parameters)
                .put(buffer, offset, parts),
            Arguments::Repeated(prefix, kind) => {
                put(buffer, offset, prefix);
                put_repeated(buffer, offset + prefix.len(), kind, self.texts);
            }
        }
    }

    /// Returns the type and the subtype.
    pub(crate) fn full_type(&self) -> (DeviceType, DeviceSubType)
        ensures device_type { result.0.0 ≡ (call_node self.now).device_type }
        ensures sub_type { result.1.0 ≡ (call_node self.now).sub_type }
    {
        (
            DeviceType(self.number(&self.form.device_type)),
            DeviceSubType(self.number(&self.form.sub_type)),
        )
    }

    /// Returns whether the node has the type END and a known subtype.
    fn is_end(&self) -> bool
        ensures { result ≡ is_known_end (call_node self.now) }
    {
        let (device_type, sub_type) = self.full_type();
        device_type == DeviceType::END
            && (sub_type == DeviceSubType::END_INSTANCE || sub_type == DeviceSubType::END_ENTIRE)
    }
}

/// Returns the length of bytes and of what follows them, or `None` if no node has so many.
fn with_prefix(prefix: &[u8], others: Option<usize>) -> Option<usize>
    ensures few { IfSome result (λ n. n ≤ 0xfffb) }
    ensures sum { IfSome result (λ n. IsSomeAnd others (λ m. n ≡ length prefix.now + m)) }
    ensures none { IfNone result (IfSome others (λ m. 0xfffb < length prefix.now + m)) }
{
    let size = prefix.len().checked_add(others?)?;
    if size > GREATEST_DATA {
        None
    } else {
        Some(size)
    }
}
