ghost use Rattle.std.specs.Prelude.{◌≡◌, map, IfOk};
ghost use Rattle.serde_json.specs.Data.{no_members};
ghost use Rattle.serde_json.specs.View.{members_view};
ghost use Rattle.audit_text.specs.json.Content.{content_json};
ghost use Rattle.audit_text.specs.json.Json.{with_members};
ghost use Rattle.audit_text.specs.private.JsonValues.{IsValueOf};
ghost use Rattle.audit_text.specs.parts.Part.{members_of};
ghost use Rattle.audit_text.specs.private.PartViews.{part_of, value_of};
ghost use Rattle.uefi_audits.specs.content.Views.{content_of};

use crate::parts::{Part, PartValue, content_parts};
use serde_json::{Map, Value, put};
use std::alloc::{AllocError, Global};
use uefi_audits::content::EventContent;

/// Returns what data say as JSON: an object with one key for the form, or `null`.
#[tactic(auto, unfolding(crate::specs::json::Content::content_json))]
pub(crate) fn content_json(alloc: Global, content: &EventContent<'_>) -> Result<Value, AllocError>
    ensures { IfOk result (IsValueOf (content_json (content_of content.now))) }
{
    let parts = content_parts(alloc, content)?;
    if parts.is_empty() {
        return Ok(Value::Null);
    }
    Ok(Value::Object(members(alloc, &parts)?))
}

/// Returns the members of an object of parts: those that have a key.
#[cycle(json)]
fn members(alloc: Global, parts: &Vec<Part<'_>>) -> Result<Map<String, Value>, AllocError>
    ensures { IfOk result (λ members. members_view members.entries
        ≡ with_members no_members (members_of (map part_of parts.now.items))) }
{
    let mut members = Map::new(alloc);
    for part in parts {
        if let Some(key) = part.key {
            put(&mut members, alloc, key, value_json(alloc, &part.value)?)?;
        }
    }
    Ok(members)
}

/// Returns a value as JSON.
#[cycle(json)]
#[tactic(auto, unfolding(crate::specs::private::PartViews::values))]
fn value_json(alloc: Global, value: &PartValue<'_>) -> Result<Value, AllocError>
    ensures { IfOk result (IsValueOf (value_of value.now).json) }
{
    match value {
        PartValue::Empty => Ok(Value::Null),
        PartValue::Decimal(number) | PartValue::Hexadecimal(number) => Ok(Value::from(*number)),
        PartValue::BootNumber(number) => Ok(Value::from(*number)),
        PartValue::Guid(guid) => Ok(Value::String(guid.to_string(alloc)?)),
        PartValue::Text(text) | PartValue::Plain(text) => Value::try_from_str(alloc, text.as_str()),
        PartValue::Bytes(bytes) => Ok(Value::String(hex::encode(alloc, bytes)?)),
        PartValue::Object(parts) => Ok(Value::Object(members(alloc, parts)?)),
        PartValue::List(values) => {
            let mut items = Vec::new(alloc);
            for value in values {
                items.push(value_json(alloc, value)?)?;
            }
            Ok(Value::Array(items))
        }
    }
}
