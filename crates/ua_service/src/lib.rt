//! The bodies of the messages of discovery and of a secure channel (OPC 10000-4, 5.5 and 5.6).
#![tactic(auto)]

mod application;
mod body;
mod brief;
mod channel;
mod discovery;
pub mod encoding;
mod endpoint;
mod headers;
mod heads;
pub mod laws;
mod named;
mod other;
mod read;
mod request;
mod response;
mod usual;

pub use application::ApplicationDescription;
pub use body::{Body, body_len, body_of, write_body};
pub use channel::{CloseRequest, OpenRequest, OpenResponse};
pub use discovery::{
    FindServersRequest, FindServersResponse, GetEndpointsRequest, GetEndpointsResponse,
};
pub use endpoint::{EndpointDescription, UserTokenPolicy};
pub use headers::{RequestHeader, ResponseHeader, ServiceFault, request_header, response_header};
pub use heads::{request_head, response_head};
pub use named::{ApplicationType, RequestType, SecurityMode, TokenType};
pub use other::OtherRequest;
pub use read::{read_close, read_open, read_open_response, read_request, read_response};
pub use request::Request;
pub use response::Response;
