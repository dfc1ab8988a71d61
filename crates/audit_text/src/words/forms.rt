ghost use Rattle.std.specs.Prelude.{◌≡◌};
ghost use Rattle.audit_text.specs.words.Forms.{form_name};

use uefi_audits::check::Form;

/// Returns the name of a form of what an event measures.
pub(crate) fn form_name(form: Form) -> &'static str
    ensures { result.now ≡ form_name form }
{
    match form {
        Form::Data => "data",
        Form::VariableValue => "variable value",
        Form::WithoutNul => "without NUL",
        Form::WithNul => "with NUL",
        Form::Command => "command",
        Form::Narrowed => "narrowed",
    }
}
