//! Where runs begin and lead.
use cocoon_num::List;
use declarations::RoleId;

/// A role with values of its parameters.
#[derive(Drop)]
pub struct Loc {
    pub role: RoleId,
    /// One for each parameter, in order.
    pub values: List<u64>,
}

/// A packet by the numbers of its fields.
#[derive(Drop)]
pub struct Packet {
    /// Header by header, in the order of declaration.
    pub fields: List<u64>,
}

/// Where a body leads, and what its run leaves of the choices.
#[derive(Drop)]
pub struct Led<'c> {
    pub to: Loc,
    pub packet: Packet,
    /// The choices behind those that were taken.
    pub rest: &'c [u64],
}
