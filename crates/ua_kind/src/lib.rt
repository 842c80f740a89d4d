//! The built-in types by number and name (OPC 10000-6, 5.1.2), and how values of them may be nested.
#![tactic(auto)]

mod kind;
mod nesting;

pub use kind::Kind;
pub use nesting::{DEEPEST, allowance};
