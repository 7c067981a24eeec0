//! What a control works on: the numbers of the fields and of the meta fields, and what it has decided.

/// The numbers of the fields, header by header, and of the meta fields; what was decided last; and the number of what the
/// control is run for.
#[derive(Drop)]
pub struct Registers {
    pub fields: Vec<u64>,
    pub meta: Vec<u64>,
    pub verdict: u8,
    pub egress_port: u16,
    pub group: u16,
    /// In ingress the port, in egress the member of the group.
    pub own: u64,
}
