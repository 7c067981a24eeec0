//! The laws of lowering: the network of a design delivers exactly what the design's last level delivers. [`types`] says
//! what the rules of designs give lowering, [`rows`] that the rows serve the program that they are made for, and load into
//! it, and [`networks`] what a whole network delivers; [`whole`] puts them together. Each law is the contract of a function
//! that does nothing.
#![tactic(auto)]

pub mod networks;
pub mod rows;
pub mod types;
pub mod whole;
