//! Laws of commands as a whole. Texts, networks and deliveries: each gives one thing at most ([`programs`], [`networks`],
//! [`deliveries`]), and the first example is worked out from the definitions ([`example`]). [`forwarding`] is on `compile`
//! and `forward` together, and [`completeness`] on how calls end that ask for nothing that is to be refused. The functions
//! do nothing; their contracts are the laws.
#![tactic(auto)]

pub mod completeness;
pub mod deliveries;
pub mod example;
pub mod forwarding;
pub mod networks;
pub mod programs;
