//! What a request of discovery asks for: what its filters let through, and the name in the language that is wanted most
//! (OPC 10000-4, 5.5).
#![tactic(auto)]

mod choosing;
mod filter;
mod index;
mod locales;
mod names;
mod places;
mod verdicts;

pub use choosing::asks_for;
pub use filter::Filter;
pub use locales::{KnownLocales, Locales};
pub use names::Names;
pub use verdicts::Verdicts;
