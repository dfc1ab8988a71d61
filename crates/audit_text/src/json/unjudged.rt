ghost use Rattle.std.specs.Prelude.{◌≡◌, [], IfOk, OnOk};
ghost use Rattle.uefi_base.specs.Appending.{AppendsText};
ghost use Rattle.audit_text.specs.private.JsonValues.{IsValueOf};
ghost use Rattle.audit_text.specs.json.Unjudged.{reason_text, unjudged_json, unjudged_line};

use crate::json::line::push_line;
use serde_json::{Value, json};
use std::alloc::{AllocError, Global};

/// Why a log isn't judged by PCRs or a quote.
#[derive(Clone, Copy, PartialEq, Eq, Debug)]
pub enum NotJudged {
    /// A file wasn't read, or has no PCRs to compare.
    Unread,
    /// The bytes of the quote are none.
    MalformedQuote,
    /// The nonce isn't stated that the quote was asked for with.
    NoNonce,
    /// The hash function of the quote's digest isn't known.
    UnknownHash,
    /// The log's header has more algorithms than are read.
    TooManyAlgorithms,
    /// Bytes follow the log's last event that are no padding.
    LeftOver,
    /// No event extends a PCR.
    NothingMeasured,
    /// No event has a digest of a bank that the quote covers, or it can't be replayed.
    NoBank,
    /// A PCR that the quote covers is undetermined.
    Undetermined,
    /// The quote covers no PCR.
    NoPcr,
}

impl NotJudged {
    /// Returns the reason in words, such as `trailing bytes`.
    fn text(self) -> &'static str
        ensures { result.now ≡ reason_text self }
    {
        match self {
            NotJudged::Unread => "unread",
            NotJudged::MalformedQuote => "malformed quote",
            NotJudged::NoNonce => "no nonce",
            NotJudged::UnknownHash => "unknown hash",
            NotJudged::TooManyAlgorithms => "many algorithms",
            NotJudged::LeftOver => "trailing bytes",
            NotJudged::NothingMeasured => "nothing measured",
            NotJudged::NoBank => "no bank",
            NotJudged::Undetermined => "undetermined",
            NotJudged::NoPcr => "no PCR",
        }
    }
}

/// Appends why a log isn't judged as one line of JSON: an object, and a line break.
///
/// | key | value |
/// |---|---|
/// | `agrees` | `null` |
/// | `covered` | `null` |
/// | `failed` | the reason alone, such as `trailing bytes` |
/// | `log` | what was given: the log's name |
/// | `not_covered` | `null` |
///
/// # Errors
///
/// [`AllocError`] if an allocation fails. The text may have grown then.
pub fn push_unjudged_json(
    text: &mut String,
    alloc: Global,
    name: &str,
    why: NotJudged,
) -> Result<(), AllocError>
    ensures { OnOk result (AppendsText text.old text.new (unjudged_line name.now why)) }
{
    let value = unjudged_json(alloc, name, why)?;
    push_line(text, alloc, &value)
}

/// Returns the object of a log.
#[tactic(auto, unfolding(crate::specs::json::Unjudged::unjudged_json))]
fn unjudged_json(alloc: Global, name: &str, why: NotJudged) -> Result<Value, AllocError>
    ensures { IfOk result (IsValueOf (unjudged_json name.now why)) }
{
    let mut failed = Vec::new(alloc);
    failed.push(Value::try_from_str(alloc, why.text())?)?;
    let failed = Value::Array(failed);
    json!(in alloc; {
        "agrees": Value::Null,
        "covered": Value::Null,
        "failed": failed,
        "log": name,
        "not_covered": Value::Null
    })
}
