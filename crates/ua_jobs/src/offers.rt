//! All that settings offer: what is answered to whoever asks, and each name by its language.

use crate::answers::Adding;
use crate::digest::{Digest, Failed, Work, lend};
use crate::documents::put_language;
use crate::frames::put_query;
use crate::servers::FIRST;
use std::alloc::Global;
use ua_disco::{Settings, answer, lent_answer};
use ua_service::{Request, read_request};
use ua_value::Emit;

/// No body of a question is longer.
const LONGEST: usize = 65_536;

/// As many names are all asked for.
const FEW: u32 = 100;

/// Of more names, one of so many is asked for: each question looks for its name from the first one on.
const STEP: u32 = 31;

/// What offers are asked for and put with.
#[derive(Drop)]
pub struct Offers<'a> {
    pub alloc: Global,
    /// The bytes of a question.
    pub body: &'a mut Vec<u8>,
    /// The bytes of an answer.
    pub out: &'a mut Vec<u8>,
    pub digest: &'a mut Digest,
    /// Whether answers are made as well, and names asked for.
    pub whole: bool,
    /// Which of many names are asked for.
    pub place: u32,
}

/// A question to settings, and whether its answer is made as well.
#[derive(Drop)]
struct Question<'a> {
    alloc: Global,
    settings: &'a Settings,
    out: &'a mut Vec<u8>,
    digest: &'a mut Digest,
    made: bool,
}

/// Adds what is put for a request.
fn add_lent(
    settings: &Settings,
    request: &Request,
    out: &mut Vec<u8>,
    digest: &mut Digest,
) -> Result<(), Failed> {
    out.clear();
    let lent = lent_answer(settings, request, FIRST);
    match lent.emit(out) {
        Ok(()) => {
            digest.add_bytes(out);
            Ok(())
        }
        Err(_) => Err(Failed),
    }
}

impl<'a> Work<Request> for Question<'a> {
    fn run(self, request: &mut Request) -> Result<(), Failed> {
        let Question {
            alloc,
            settings,
            out,
            digest,
            made,
        } = self;
        add_lent(settings, request, out, digest)?;
        if !made {
            return Ok(());
        }
        let response = answer(alloc, settings, request, FIRST);
        let bodies = true;
        lend(
            response,
            Adding {
                alloc,
                digest,
                bodies,
            },
        )
    }
}

/// The request of which the whole is a body.
fn asked(alloc: Global, body: &[u8]) -> Result<Request, Failed> {
    if body.len() > LONGEST {
        return Err(Failed);
    }
    read_request(alloc, body).map_err(|_| Failed)
}

/// Asks for all servers, or for all endpoints where that is said, in a language where one is given.
fn ask(
    offers: &mut Offers,
    settings: &Settings,
    endpoints: bool,
    language: &[u8],
) -> Result<(), Failed> {
    offers.body.clear();
    put_query(offers.body, endpoints, language)?;
    lend(
        asked(offers.alloc, offers.body),
        Question {
            alloc: offers.alloc,
            settings,
            out: &mut *offers.out,
            digest: &mut *offers.digest,
            made: offers.whole && language.is_empty(),
        },
    )
}

fn ask_names(
    offers: &mut Offers,
    settings: &Settings,
    names: u32,
    language: &mut String,
) -> Result<(), Failed> {
    for n in 0..names {
        if names <= FEW || n % STEP == offers.place % STEP {
            language.clear();
            put_language(language, n)?;
            ask(offers, settings, false, language.as_bytes())?;
        }
    }
    Ok(())
}

/// Adds all endpoints and the server; where the whole is asked for, as they are made too, and the server under the names
/// of so many languages.
pub fn add_offers(offers: &mut Offers, settings: &Settings, names: u32) -> Result<(), Failed> {
    ask(offers, settings, true, b"")?;
    ask(offers, settings, false, b"")?;
    if !offers.whole {
        return Ok(());
    }
    let mut language = String::new(offers.alloc);
    ask_names(offers, settings, names, &mut language)
}
