//! Laws of the definitions. Each function states a law that holds for all values, and does nothing
//! when it runs.

ghost use Rattle.uefi_node.specs.Layout.{Layout};
ghost use Rattle.uefi_node.specs.Laws.{IsFaithful, OneSignature, OneWayToSplit};
ghost use Rattle.uefi_node.specs.rows.Nodes.{RowsHold};
ghost use Rattle.uefi_node.specs.rows.Numbers.{NumbersHold};

/// States for each layout, so for each type of nodes, that a node is that of one value at most, and
/// that reading the node of a value returns the value.
pub fn faithful_types<R>()
    ghost layout: { Layout R }
    ensures { IsFaithful layout }
{}

/// States that a type and 16 bytes are those of one signature of a partition.
#[tactic(auto, using(crate::proofs::Signatures::one_signature))]
pub fn one_signature()
    ensures { OneSignature }
{}

/// States that bytes are three strings, each with a NUL after it, in one way at most.
#[tactic(auto, using(crate::proofs::NulStrings::one_way_to_split))]
pub fn one_way_to_split()
    ensures { OneWayToSplit }
{}

/// States that the layouts hold on worked rows: for each type of fixed length a node and its bytes.
/// Each constant of a field's type, such as [`Parity::ODD`](crate::messaging::Parity::ODD), has the
/// standard's number.
#[tactic(auto, using(crate::proofs::Rows::rows_hold))]
pub fn worked_rows()
    ensures nodes { RowsHold }
    ensures numbers { NumbersHold }
{}
