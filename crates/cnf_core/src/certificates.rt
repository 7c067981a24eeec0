//! Certificates: what shows that an obligation of a design holds. The instances say at which values the assumptions were used,
//! and the log derives the empty clause.
use crate::log::Log;
use cocoon_num::List;

/// An assumption at values of its parameters.
#[derive(Drop)]
pub struct Instance {
    /// The number of the assumption, from 0.
    pub number: u32,
    pub values: List<u64>,
}

/// What shows that one obligation holds.
#[derive(Drop)]
pub struct Cert {
    pub instances: List<Instance>,
    pub log: Log,
}

/// The certificates of a design, one for each obligation in order.
#[derive(Drop)]
pub struct Certs {
    pub certs: List<Cert>,
}
