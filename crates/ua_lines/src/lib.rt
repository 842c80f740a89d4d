//! Lines for people: what a server says of its applications and endpoints, whole, and a value of each built-in type.
//!
//! Every call appends to a text of the caller. A text of the wire is printed as [`ua_print::Text`], a node id as
//! [`ua_print::add_node`], a status as [`ua_print::NamedCode`]. What stands under
//! a line is indented by two blanks more.
#![tactic(auto)]

mod application;
mod date;
mod diagnostic;
mod endpoint;
mod float;
mod hex_text;
mod margin;
mod naming;
mod nested;
mod plain;
mod stamps;
mod value;

pub use application::{add_application, add_application_line, add_url_line};
pub use endpoint::{add_endpoint, add_endpoint_line};
pub use value::add_value_of;
