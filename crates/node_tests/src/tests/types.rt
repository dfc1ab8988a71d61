use std::test::Fail;
use test_support::same;
use uefi_node::DevicePathNodeExt;
use uefi_node::NodeConversionError::{self, UnsupportedType};
use uefi_path::DevicePathNode;

/// Returns why the node that the bytes are is no value; or `None` if it is one.
fn refusal(input: &[u8]) -> Option<NodeConversionError> {
    DevicePathNode::try_from(input).ok()?.as_enum().err()
}

/// Returns whether a node of this type and subtype, without data, has a type.
fn is_known(device_type: u8, sub_type: u8) -> bool {
    refusal(&[device_type, sub_type, 4, 0]) != Some(UnsupportedType)
}

#[test]
fn there_are_54_types() -> Result<(), Fail> {
    let mut known = 0u32;
    for device_type in 0..=255u8 {
        for sub_type in 0..=255u8 {
            if is_known(device_type, sub_type) {
                known = known.saturating_add(1);
            }
        }
    }
    same("the types", &known, &54)
}
