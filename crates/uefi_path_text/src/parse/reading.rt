//! A name and arguments, read by the forms of the name.

ghost use Rattle.std.specs.Prelude.{◌≤◌, [], ◌∷◌, ◌++◌, ℕ, List, map};
ghost use Rattle.uefi_path_text.specs.form.NodeForm as spec;
ghost use Rattle.uefi_path_text.specs.AllForms.{forms};
ghost use Rattle.uefi_path_text.specs.private.FormViews.{form_of};
ghost use Rattle.uefi_path_text.specs.private.Readings.{ReadsBy, IsWithin};

use crate::form::NodeForm;
use crate::forms::sections;
use crate::parse::call::Call;
use crate::parse::fault::Fault;

/// What forms make of a name and arguments.
#[derive(Clone, Copy)]
pub(crate) enum Reading<'a> {
    /// No form has the name.
    Unknown,
    /// The arguments are those of no form of the name.
    Wrong(Fault),
    /// The node by the first form that the arguments fit.
    Node(Call<'a>),
}

impl<'a> Reading<'a> {
    ghost use Rattle.uefi_path_text.specs.private.Readings.{ReadsBy, IsWithin};

    /// Tries the forms of a name too, if none fitted before.
    fn or(self, forms: &'static [NodeForm], name: &[u8], arguments: &'a [u8]) -> Reading<'a>
        ensures { (before : List spec.NodeForm) → ReadsBy before name.now arguments.now self.entry
            → ReadsBy (before ++ map form_of forms.now) name.now arguments.now result }
    {
        let mut reading = self;
        for form in forms {
            reading = reading.or_form(form, name, arguments);
        }
        reading
    }

    /// Tries a form, if none fitted before and it has the name.
    fn or_form(self, form: &'static NodeForm, name: &[u8], arguments: &'a [u8]) -> Reading<'a>
        ensures { (before : List spec.NodeForm) → ReadsBy before name.now arguments.now self.entry
            → ReadsBy (before ++ (form_of form.now ∷ [])) name.now arguments.now result }
    {
        if form.name.as_bytes() != name {
            return self;
        }
        if let Reading::Node(_) = self {
            return self;
        }
        match Call::new(form, arguments) {
            Ok(call) => Reading::Node(call),
            Err(fault) => Reading::Wrong(self.farther(fault)),
        }
    }

    /// Returns the fault, or the one before if that is farther.
    fn farther(&self, fault: Fault) -> Fault
        ensures { (n : ℕ) → IsWithin self.now n → fault.offset ≤ n → result.offset ≤ n }
    {
        match self {
            Reading::Wrong(before) => before.or_farther(fault),
            _ => fault,
        }
    }
}

/// Reads a name and arguments by all forms.
pub(crate) fn read_call<'a>(name: &[u8], arguments: &'a [u8]) -> Reading<'a>
    ensures { ReadsBy forms name.now arguments.now result }
{
    let mut reading = Reading::Unknown;
    for section in sections() {
        reading = reading.or(section.forms(), name, arguments);
    }
    reading
}
