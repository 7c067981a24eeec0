//! What departs from a visit.

/// What departs from a visit: the member that it is a copy for, if it is one, the port, and the bytes.
#[derive(Drop)]
pub struct Departed {
    pub member: Option<u64>,
    pub port: u16,
    pub bytes: Vec<u8>,
}

/// What came of a visit.
#[derive(Drop)]
pub struct Visited {
    /// In ascending order of the members.
    pub departed: Vec<Departed>,
    /// How many runs of ingress and of egress it made.
    pub runs: usize,
}
