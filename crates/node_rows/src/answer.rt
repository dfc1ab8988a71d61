use crate::flags::{infiniband_flags, iscsi_flags};
use crate::names::{guid_text, named};
use crate::nodes::node;
use crate::parts::{
    adr_list, dns_addresses, hard_drive, lengths, pci, signature, unknown_signature,
};
use rows::hex_row;
use std::alloc::Global;

/// Answers a row: its call, and its input.
pub(crate) fn answer(alloc: Global, call: &str, input: &str) -> Option<String> {
    match call {
        "name" => named(alloc, input),
        "guid_text" => guid_text(alloc, input),
        "node" => node(alloc, input),
        "pci" => hex_row(alloc, input, pci),
        "hard_drive" => hex_row(alloc, input, hard_drive),
        "lengths" => hex_row(alloc, input, lengths),
        "adr_list" => hex_row(alloc, input, adr_list),
        "dns_addresses" => hex_row(alloc, input, dns_addresses),
        "signature" => hex_row(alloc, input, signature),
        "unknown_signature" => hex_row(alloc, input, unknown_signature),
        "infiniband_flags" => hex_row(alloc, input, infiniband_flags),
        "iscsi_flags" => hex_row(alloc, input, iscsi_flags),
        _ => format!(in alloc; "there is no such call").ok(),
    }
}
