//! The lines that `ask` prints.

use std::alloc::Global;
use ua_conn::AskFault;
use ua_print::{Code, Text};
use ua_service::{ApplicationDescription, EndpointDescription, Response};
use ua_value::{NoMemory, UaString};
use ua_words::Form;

/// What came of a question.
#[derive(Drop)]
pub enum Outcome {
    /// The server answered it.
    Answered(Response),
    /// The server gave its answer up, with this status.
    Aborted(u32),
    /// The server said that it failed, with a status and perhaps a reason.
    Said(u32, UaString),
    /// The server sent what it must not, which is refused with this status.
    Broken(u32),
    /// The server takes no such request, for this reason.
    NotAsked(AskFault),
}

impl Outcome {
    /// The status that came in the place of an answer, if one did.
    pub fn status(&self) -> Option<u32> {
        match self {
            Outcome::Answered(Response::Fault(fault)) => Some(fault.header.service_result.0),
            Outcome::Aborted(status) | Outcome::Said(status, _) | Outcome::Broken(status) => {
                Some(*status)
            }
            _ => None,
        }
    }

    /// Whether the server answered that the service failed.
    pub fn is_fault(&self) -> bool {
        match self {
            Outcome::Answered(Response::Fault(_)) => true,
            _ => false,
        }
    }
}

/// Adds the lines of an application in this form: without more its own and one for each of its urls.
fn add_application(
    alloc: Global,
    text: &mut String,
    application: &ApplicationDescription,
    form: Form,
) -> Result<(), NoMemory> {
    match form {
        Form::Lines => {}
        Form::Whole => return ua_lines::add_application(text, application, 0),
        Form::Json => return ua_json::add_application(alloc, text, application),
    }
    ua_lines::add_application_line(text, application)?;
    for url in application.discovery_urls.get().unwrap_or(&[]) {
        ua_lines::add_url_line(text, url)?;
    }
    Ok(())
}

/// Adds the lines of an endpoint in this form: without more its own alone.
fn add_endpoint(
    alloc: Global,
    text: &mut String,
    endpoint: &EndpointDescription,
    form: Form,
) -> Result<(), NoMemory> {
    match form {
        Form::Lines => ua_lines::add_endpoint_line(text, endpoint),
        Form::Whole => ua_lines::add_endpoint(alloc, text, endpoint),
        Form::Json => ua_json::add_endpoint(alloc, text, endpoint),
    }
}

/// Adds the line of a service fault.
fn add_fault(text: &mut String, status: u32, form: Form) -> Result<(), NoMemory> {
    match form {
        Form::Json => ua_json::add_service_fault(text, status),
        _ => writeln!(text, "fault {}", Code(status)),
    }
}

/// Adds the lines of an answer.
fn add_response(
    alloc: Global,
    text: &mut String,
    response: &Response,
    form: Form,
) -> Result<(), NoMemory> {
    match response {
        Response::FindServers(answer) => {
            for application in answer.servers.get().unwrap_or(&[]) {
                add_application(alloc, text, application, form)?;
            }
            Ok(())
        }
        Response::GetEndpoints(answer) => {
            for endpoint in answer.endpoints.get().unwrap_or(&[]) {
                add_endpoint(alloc, text, endpoint, form)?;
            }
            Ok(())
        }
        Response::Fault(fault) => add_fault(text, fault.header.service_result.0, form),
    }
}

/// Adds the line of an answer that the server gave up.
fn add_abort(text: &mut String, status: u32, form: Form) -> Result<(), NoMemory> {
    match form {
        Form::Json => ua_json::add_abort(text, status),
        _ => writeln!(text, "aborted {}", Code(status)),
    }
}

/// Adds the line of what the server said in the place of an answer.
fn add_said(text: &mut String, status: u32, reason: &UaString, form: Form) -> Result<(), NoMemory> {
    match form {
        Form::Json => ua_json::add_error(text, status, reason),
        _ => {
            let reason = Text(reason.get().map(str::as_bytes));
            writeln!(text, "server said {} {}", Code(status), reason)
        }
    }
}

/// Adds the line of bytes that the client refuses.
fn add_broken(text: &mut String, status: u32, form: Form) -> Result<(), NoMemory> {
    match form {
        Form::Json => ua_json::add_broken(text, status),
        _ => writeln!(text, "broken {}", Code(status)),
    }
}

/// The lines of what came of a question, in this form: those of each application or of each endpoint; or one that says
/// what came in the place of an answer. A question that was not asked has none.
pub fn lines_of(alloc: Global, outcome: &Outcome, form: Form) -> Result<String, NoMemory> {
    let mut text = String::new(alloc);
    match outcome {
        Outcome::Answered(response) => add_response(alloc, &mut text, response, form)?,
        Outcome::Aborted(status) => add_abort(&mut text, *status, form)?,
        Outcome::Said(status, reason) => add_said(&mut text, *status, reason, form)?,
        Outcome::Broken(status) => add_broken(&mut text, *status, form)?,
        Outcome::NotAsked(_) => {}
    }
    Ok(text)
}
