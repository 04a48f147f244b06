//! Laws of imports and of conversions of images. The functions have empty bodies; their clauses are the laws.
#![tactic(auto)]

pub mod laws;
