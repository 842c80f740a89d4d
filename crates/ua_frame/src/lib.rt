//! Frames of the OPC UA connection protocol (OPC 10000-6, 7.1): their headers, and those before a secure channel.
#![tactic(auto)]

mod acknowledge;
mod buffer;
mod error_frame;
mod frame;
mod hello;
mod kind;
pub mod laws;
mod limits;
mod moment;
mod negotiation;
mod policy;
mod reverse_hello;
pub mod status;
mod writing;

pub use acknowledge::Ack;
pub use buffer::FrameBuf;
pub use error_frame::ErrorFrame;
pub use frame::{Frame, HEADER, frame_at};
pub use hello::Hello;
pub use kind::Kind;
pub use limits::{LEAST_BUFFER, Limits, MOST_BUFFER};
pub use moment::{later, moment_at};
pub use negotiation::{VERSION, acceptable, is_long_url, negotiate};
pub use policy::POLICY_NONE;
pub use reverse_hello::{ReverseHello, write_reverse_hello};
