//! What a body sends, and where.
use cocoon_num::{List, Text};

/// A location by the name of its role, and a packet.
#[derive(Drop)]
pub struct Sent {
    /// The name of the role.
    pub role: Text,
    /// The values of its parameters, in their order.
    pub values: List<u64>,
    /// The values of all fields, header by header.
    pub fields: List<u64>,
}
