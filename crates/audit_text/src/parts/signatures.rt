ghost use Rattle.std.specs.Prelude.{◌≡◌, IfOk};
ghost use Rattle.tcg_event.specs.SignatureViews.{list_of, lists_of, signature_of};
ghost use Rattle.audit_text.specs.parts.Contents.{kind_parts, list_parts, signature_parts};
ghost use Rattle.audit_text.specs.parts.Part.{objects};
ghost use Rattle.audit_text.specs.private.PartViews.{AreParts, value_of};
ghost use Rattle.audit_text.specs.words.Signatures.{signature_type_name};

use crate::parts::part::{Part, PartValue, PartsResult, joined};
use crate::words::signatures::{LONGEST_HASH, signature_type_name};
use sha2::{Digest, Sha256};
use std::alloc::{AllocError, Global};
use tcg_event::{SignatureData, SignatureList, SignatureLists, SignatureType};

/// Returns the lists of a signature database, in order.
pub(crate) fn lists_value<'a>(
    alloc: Global,
    lists: &SignatureLists<'a>,
) -> Result<PartValue<'a>, AllocError>
    ensures { IfOk result (λ value. value_of value ≡ objects list_parts (lists_of lists.now)) }
{
    let mut values = Vec::new(alloc);
    for list in lists.iter() {
        values.push(PartValue::Object(list_parts(alloc, &list)?))?;
    }
    Ok(PartValue::List(values))
}

/// Returns the parts of a list of signatures: what they are, its header, and the signatures.
#[tactic(auto, unfolding(crate::specs::parts::Contents::list_parts))]
fn list_parts<'a>(alloc: Global, list: &SignatureList<'a>) -> PartsResult<'a>
    ensures { AreParts result (list_parts (list_of list.now)) }
{
    let kind = kind_parts(alloc, list.signature_type())?;
    let mut signatures = Vec::new(alloc);
    for signature in list.iter() {
        signatures.push(PartValue::Object(signature_parts(alloc, &signature)?))?;
    }
    let others = vec![in alloc;
        Part::words("\n"),
        Part::bytes("header", "  header", list.header()),
        Part::new("signatures", "", PartValue::List(signatures)),
    ]?;
    joined(kind, others)
}

/// Returns the parts that say what the signatures of a list are.
fn kind_parts<'a>(alloc: Global, kind: SignatureType) -> PartsResult<'a>
    ensures { AreParts result (kind_parts (signature_type_name kind.0.0) kind.0.0) }
{
    let guid = PartValue::Guid(kind.0);
    match signature_type_name(kind) {
        Some(name) => {
            let name = PartValue::Plain(String::from_str(alloc, name)?);
            Ok(vec![in alloc;
                Part::in_json("type", guid),
                Part::in_block("  list of ", name),
            ]?)
        }
        None => Ok(vec![in alloc; Part::new("type", "  list of type ", guid)]?),
    }
}

/// Returns the parts of a signature: its owner, and its data, or their length and SHA-256.
#[tactic(auto, unfolding(crate::specs::parts::Contents::signature_parts))]
pub(crate) fn signature_parts<'a>(alloc: Global, signature: &SignatureData<'_>) -> PartsResult<'a>
    ensures { AreParts result (signature_parts (signature_of signature.now)) }
{
    let owner = Part::new(
        "owner",
        "  signature of owner ",
        PartValue::Guid(signature.owner),
    );
    if signature.data.len() <= LONGEST_HASH {
        let digits = hex::encode(alloc, signature.data)?;
        return Ok(vec![in alloc;
            owner,
            Part::new("data", ": ", PartValue::Plain(digits)),
            Part::words("\n"),
        ]?);
    }
    let length = signature.data.len() as u64;
    let digest = Sha256::digest(signature.data);
    let digits = hex::encode(alloc, digest.as_slice())?;
    Ok(vec![in alloc;
        owner,
        Part::new("length", ": ", PartValue::Decimal(length)),
        Part::new("sha256", " bytes with SHA-256 ", PartValue::Plain(digits)),
        Part::words("\n"),
    ]?)
}
