//! Device paths that are built node by node (UEFI 2.10, 10.2).
//!
//! What can be put into a path is a [`BuildNode`]: a [`DevicePathNode`](crate::DevicePathNode) that
//! was read, or a value of a type of nodes.

pub use self::builder::DevicePathBuilder;
pub use self::error::BuildError;
pub use self::node::BuildNode;
pub use self::vec_builder::DevicePathVecBuilder;

mod builder;
mod error;
mod node;
mod vec_builder;
