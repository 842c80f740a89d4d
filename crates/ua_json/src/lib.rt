//! Values, applications, endpoints and frames as JSON (RFC 8259): one object a line, under the names of OPC 10000-4 and
//! OPC 10000-6.
//!
//! Texts are JSON strings, bytes are base64 (OPC 10000-6, 5.4.2.8), and what is null is `null`. Int64 and UInt64 are
//! texts, since readers hold numbers as doubles. A Float or Double that is no number is a text. Each call appends one
//! whole line to a text of the caller, or leaves the text as it was and says that a growth was refused.
#![tactic(auto)]

mod answer;
mod application;
mod diagnostic;
mod endpoint;
mod frame;
mod frame_lines;
mod line;
mod moment;
mod node;
mod number;
mod origin;
mod put;
mod status;
mod stream;
mod text;
mod value;
mod variant;

pub use answer::{add_abort, add_broken, add_error, add_service_fault};
pub use application::add_application;
pub use endpoint::add_endpoint;
pub use frame::{add_bad, add_frame, add_message, add_rest};
pub use frame_lines::{FrameLines, frames_json};
pub use moment::Moment;
pub use origin::{Origin, Sender};
pub use stream::{
    add_cut_file, add_file_fault, add_fragments, add_note, add_stream, add_unfollowed,
};
pub use value::{add_refused_value, add_value};
