//! What a machine offers beside what it is set up to offer (OPC 10000-4, 5.5): a line for each difference of two lists of
//! applications, or of endpoints. The order of a list says nothing.
#![tactic(auto)]

mod application;
mod described;
mod differing;
mod endpoint;
mod field;
mod left;
mod token;
mod value;

pub use application::add_application_differences;
pub use endpoint::add_endpoint_differences;
