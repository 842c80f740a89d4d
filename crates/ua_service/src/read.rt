//! The calls that read a whole body.

ghost use Rattle.std.specs.Prelude.{◌≤◌, length};
ghost use Rattle.ua_value.specs.Format.{Gives, input_limit};
ghost use Rattle.ua_value.specs.Whole.{ReadsAll};
ghost use Rattle.ua_service.specs.Requests.{IsRequestBody, request_of};
ghost use Rattle.ua_service.specs.Responses.{IsResponseBody, response_of};
ghost use Rattle.ua_service.specs.ChannelMessages.{IsOpenBody, open_of, IsOpenResponseBody, open_response_of, IsCloseBody, close_of};

use crate::body::Body;
use crate::channel::{CloseRequest, OpenRequest, OpenResponse};
use crate::request::Request;
use crate::response::Response;
use std::alloc::Global;
use ua_value::ReadFault;

/// The request of which the whole input is a body (OPC 10000-6, 5.2.9). Behind the header of a
/// request of another service whatever is left is kept as its rest.
///
/// # Errors
///
/// `Refused` where the input is the body of no such message, as where bytes are left over;
/// `NoMemory` where a growth was refused, which says nothing of the input.
pub fn read_request(alloc: Global, input: &[u8]) -> Result<Request, ReadFault>
    requires { length input.now ≤ input_limit }
    ensures all { ReadsAll IsRequestBody input.now result }
    ensures gives { Gives (λ v. v) result (request_of input.now) }
{
    Request::read_body(alloc, input)
}

/// The response of which the whole input is a body (OPC 10000-6, 5.2.9).
///
/// # Errors
///
/// `Refused` where the input is the body of no such message, as where bytes are left over;
/// `NoMemory` where a growth was refused, which says nothing of the input.
pub fn read_response(alloc: Global, input: &[u8]) -> Result<Response, ReadFault>
    requires { length input.now ≤ input_limit }
    ensures all { ReadsAll IsResponseBody input.now result }
    ensures gives { Gives (λ v. v) result (response_of input.now) }
{
    Response::read_body(alloc, input)
}

/// The open request (OPC 10000-4, 5.6.2) of which the whole input is a body.
///
/// # Errors
///
/// `Refused` where the input is the body of no such message, as where bytes are left over;
/// `NoMemory` where a growth was refused, which says nothing of the input.
#[tactic(auto, unfolding(crate::specs::Message::message))]
pub fn read_open(alloc: Global, input: &[u8]) -> Result<OpenRequest, ReadFault>
    requires { length input.now ≤ input_limit }
    ensures all { ReadsAll IsOpenBody input.now result }
    ensures gives { Gives (λ v. v) result (open_of input.now) }
{
    OpenRequest::read_body(alloc, input)
}

/// The open response (OPC 10000-4, 5.6.2) of which the whole input is a body.
///
/// # Errors
///
/// `Refused` where the input is the body of no such message, as where bytes are left over;
/// `NoMemory` where a growth was refused, which says nothing of the input.
#[tactic(auto, unfolding(crate::specs::Message::message))]
pub fn read_open_response(alloc: Global, input: &[u8]) -> Result<OpenResponse, ReadFault>
    requires { length input.now ≤ input_limit }
    ensures all { ReadsAll IsOpenResponseBody input.now result }
    ensures gives { Gives (λ v. v) result (open_response_of input.now) }
{
    OpenResponse::read_body(alloc, input)
}

/// The close request (OPC 10000-4, 5.6.3) of which the whole input is a body.
///
/// # Errors
///
/// `Refused` where the input is the body of no such message, as where bytes are left over;
/// `NoMemory` where a growth was refused, which says nothing of the input.
#[tactic(auto, unfolding(crate::specs::Message::message))]
pub fn read_close(alloc: Global, input: &[u8]) -> Result<CloseRequest, ReadFault>
    requires { length input.now ≤ input_limit }
    ensures all { ReadsAll IsCloseBody input.now result }
    ensures gives { Gives (λ v. v) result (close_of input.now) }
{
    CloseRequest::read_body(alloc, input)
}
