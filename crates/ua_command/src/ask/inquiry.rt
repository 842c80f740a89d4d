//! What is asked, as a message of the standard.

ghost use Rattle.std.specs.Prelude.{◌≡◌, Some, IfOk, IfErr};

use std::alloc::{AllocError, Global};
use ua_service::{FindServersRequest, GetEndpointsRequest, Request, request_header};
use ua_value::plumbing::copy_two;
use ua_value::{Array, DateTime, NoMemory, UaString};
use ua_words::{Form, Question};

/// The handle of the request, which is its request id as well.
const HANDLE: u32 = 2;

/// What is asked, and in which form the answer is printed.
#[derive(Debug, Drop)]
pub struct Inquiry {
    pub question: Question,
    /// The LocaleIds of the request.
    pub locales: Array<UaString>,
    /// Its filter: the ServerUris of FindServers, the ProfileUris of GetEndpoints.
    pub filter: Array<UaString>,
    pub form: Form,
}

impl Inquiry {
    /// A question without locales and filter, whose answer is printed in the lines that are always there.
    pub fn plain(question: Question) -> Inquiry {
        Inquiry {
            question,
            locales: Array::null(),
            filter: Array::null(),
            form: Form::Lines,
        }
    }
}

/// The url as a text of a message.
pub fn text_of(alloc: Global, url: &str) -> Result<UaString, NoMemory>
    ensures { IfOk result (λ text. text ≡ Some url.now) }
{
    match UaString::new(alloc, url) {
        Ok(text) => Ok(text),
        Err(_) => Err(AllocError),
    }
}

/// The url that a request names, which is null where there is none.
fn named_url(alloc: Global, url: Option<&str>) -> Result<UaString, NoMemory> {
    match url {
        Some(url) => text_of(alloc, url),
        None => Ok(UaString::null()),
    }
}

/// The request of a question, with these locales and this filter.
fn request_with(
    question: Question,
    now: i64,
    endpoint_url: UaString,
    locale_ids: Array<UaString>,
    filter: Array<UaString>,
) -> Request {
    let header = request_header(DateTime(now), HANDLE);
    match question {
        Question::Find => Request::FindServers(FindServersRequest {
            header,
            endpoint_url,
            locale_ids,
            server_uris: filter,
        }),
        Question::Endpoints => Request::GetEndpoints(GetEndpointsRequest {
            header,
            endpoint_url,
            locale_ids,
            profile_uris: filter,
        }),
    }
}

/// The request at the moment `now`, in ticks of 100 ns since 1601, which names this url. OPC 10000-4, 5.5.2 and 5.5.4.
pub fn request_of(
    alloc: Global,
    now: i64,
    inquiry: &Inquiry,
    url: Option<&str>,
) -> Result<Request, NoMemory> {
    let (locales, filter) = copy_two(&inquiry.locales, &inquiry.filter)?;
    match named_url(alloc, url) {
        Ok(url) => Ok(request_with(inquiry.question, now, url, locales, filter)),
        Err(error) => Err(error),
    }
}
