//! What is asked of an obligation, as one goal without functions, and what a log that refutes it
//! shows: no run fails along the obligation's leaf ([`laws`]). What terms of a design apply, and what becomes of them with
//! tables in the place of functions ([`applied_laws`], [`over`]); that formulas apply run-time functions of the design alone
//! ([`formula_laws`]); which terms assumptions are taken at, and that what they say of these holds ([`instance_laws`]); and
//! the definitions that a search finds, with the progress that rounds make over them ([`search_laws`]). There is no code here.
#![tactic(auto)]

pub mod applied_laws;
pub mod examples;
pub mod formula_laws;
pub mod instance_laws;
pub mod laws;
pub mod over;
pub mod search_laws;
