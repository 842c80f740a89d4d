//! A commissioning tool asks servers, and reads their answers.

use crate::answers::Adding;
use crate::digest::{Digest, Failed, Work, lend};
use crate::documents::{Shape, drawn_settings};
use crate::draw::{Draw, Pool};
use crate::frames::drawn_url;
use crate::servers::FIRST;
use std::alloc::Global;
use ua_conn::{Client, ClientConfig, Server};
use ua_disco::Settings;
use ua_service::{FindServersRequest, GetEndpointsRequest, Request, request_header};
use ua_value::plumbing::let_go;
use ua_value::{Array, DateTime, UaString};

const CONFIG: ClientConfig = ClientConfig {
    buffer: 65_535,
    max_message: 4_194_304,
    max_chunks: 1_024,
    lifetime: 3_600_000,
};

/// A url with a drawn number.
fn url(alloc: Global, draw: &mut Draw) -> Result<UaString, Failed> {
    let Ok(bytes) = drawn_url(alloc, draw) else {
        return Err(Failed);
    };
    match std::str::from_utf8(&bytes) {
        Ok(text) => UaString::new(alloc, text).map_err(|_| Failed),
        Err(_) => Err(Failed),
    }
}

/// FindServers, or GetEndpoints where that is said.
fn request_at(url: UaString, handle: u32, endpoints: bool) -> Request {
    let header = request_header(DateTime(FIRST), handle);
    if endpoints {
        Request::GetEndpoints(GetEndpointsRequest {
            header,
            endpoint_url: url,
            locale_ids: Array::null(),
            profile_uris: Array::null(),
        })
    } else {
        Request::FindServers(FindServersRequest {
            header,
            endpoint_url: url,
            locale_ids: Array::null(),
            server_uris: Array::null(),
        })
    }
}

/// How both ends go on: the moment, bytes of a piece of what the server says, and whether the whole is added.
#[derive(Clone, Copy)]
struct Pace {
    now: i64,
    piece: usize,
    whole: bool,
}

/// Feeds the client what it is answered, in pieces, and adds the answers.
fn hear(
    alloc: Global,
    client: &mut Client,
    pace: &Pace,
    down: &[u8],
    digest: &mut Digest,
) -> Result<(), Failed> {
    for piece in down.chunks(pace.piece.max(1)) {
        let answers = client.feed(pace.now, piece);
        lend(
            answers,
            Adding {
                alloc,
                digest: &mut *digest,
                bodies: pace.whole,
            },
        )?;
    }
    Ok(())
}

/// Delivers what the client says at once, and what it is answered in pieces.
fn deliver(
    alloc: Global,
    client: &mut Client,
    server: &mut Server,
    pace: &Pace,
    down: &mut Vec<u8>,
    digest: &mut Digest,
) -> Result<(), Failed> {
    down.clear();
    let up = client.output();
    let n = up.len();
    digest.add_bytes(up);
    let fed = server.feed(pace.now, up, down);
    lend(
        fed,
        Adding {
            alloc,
            digest: &mut *digest,
            bodies: pace.whole,
        },
    )?;
    client.sent(n);
    if pace.whole {
        digest.add_bytes(down);
    }
    hear(alloc, client, pace, down, digest)
}

/// That a request was asked.
fn asked<A: Drop, B: Drop>(answer: Result<u32, (A, B)>) -> Result<(), Failed> {
    match answer {
        Ok(_) => Ok(()),
        Err((a, b)) => {
            let_go((a, b));
            Err(Failed)
        }
    }
}

fn ask_once(
    alloc: Global,
    client: &mut Client,
    now: i64,
    draw: &mut Draw,
    endpoints: bool,
) -> Result<(), Failed> {
    let handle = draw.half();
    let url = url(alloc, draw);
    match url {
        Ok(url) => asked(client.ask(now, request_at(url, handle, endpoints), 8_168)),
        Err(Failed) => Err(Failed),
    }
}

/// What a tool does on one connection: how many rounds, each of so many questions, with a renewal before each fourth; bytes
/// of a piece; and whether the whole of what comes of it is added.
#[derive(Clone, Copy)]
struct Talk {
    rounds: u32,
    questions: u32,
    piece: usize,
    endpoints: bool,
    whole: bool,
}

/// A talk over both ends.
#[derive(Drop)]
struct Talking<'a> {
    alloc: Global,
    client: &'a mut Client,
    talk: &'a Talk,
    draw: &'a mut Draw,
    digest: &'a mut Digest,
}

fn talk_on(t: &mut Talking, server: &mut Server, down: &mut Vec<u8>) -> Result<(), Failed> {
    let mut pace = Pace {
        now: FIRST.wrapping_add(i64::from(t.draw.half())),
        piece: t.talk.piece,
        whole: t.talk.whole,
    };
    deliver(t.alloc, t.client, server, &pace, down, t.digest)?;
    deliver(t.alloc, t.client, server, &pace, down, t.digest)?;
    for n in 0..t.talk.rounds {
        pace.now = pace.now.wrapping_add(10_000);
        if n % 4 == 3 && t.client.renew(pace.now).is_ok() {
            deliver(t.alloc, t.client, server, &pace, down, t.digest)?;
        }
        for _ in 0..t.talk.questions {
            ask_once(t.alloc, t.client, pace.now, t.draw, t.talk.endpoints)?;
        }
        deliver(t.alloc, t.client, server, &pace, down, t.digest)?;
    }
    Ok(())
}

impl<'a, 's> Work<Server<'s>> for Talking<'a> {
    fn run(self, server: &mut Server<'s>) -> Result<(), Failed> {
        let mut talking = self;
        let mut down = Vec::new(talking.alloc);
        talk_on(&mut talking, server, &mut down)
    }
}

/// A client with the settings of the server that it talks to.
#[derive(Drop)]
struct Calling<'a> {
    alloc: Global,
    settings: &'a Settings,
    talk: &'a Talk,
    draw: &'a mut Draw,
    digest: &'a mut Digest,
}

fn talk_to(
    alloc: Global,
    client: &mut Client,
    settings: &Settings,
    talk: &Talk,
    draw: &mut Draw,
    digest: &mut Digest,
) -> Result<(), Failed> {
    let server = Server::new(alloc, settings, 1);
    lend(
        server,
        Talking {
            alloc,
            client,
            talk,
            draw,
            digest,
        },
    )
}

impl<'a> Work<Client> for Calling<'a> {
    fn run(self, client: &mut Client) -> Result<(), Failed> {
        let Calling {
            alloc,
            settings,
            talk,
            draw,
            digest,
        } = self;
        talk_to(alloc, client, settings, talk, draw, digest)
    }
}

/// Calls to a server with settings.
#[derive(Drop)]
struct Calls<'a> {
    alloc: Global,
    talks: &'a [Talk],
    rounds: u32,
    draw: &'a mut Draw,
    digest: &'a mut Digest,
}

fn call(
    alloc: Global,
    settings: &Settings,
    talk: &Talk,
    draw: &mut Draw,
    digest: &mut Digest,
) -> Result<(), Failed> {
    let url = UaString::null();
    // The first sequence number is drawn from so many that two openings are hardly the same.
    let first = draw.half() % 4_000_000_000 + 1;
    let client = Client::new(alloc, CONFIG, &url, first);
    lend(
        client,
        Calling {
            alloc,
            settings,
            talk,
            draw,
            digest,
        },
    )
}

fn call_rounds(
    alloc: Global,
    settings: &Settings,
    talks: &[Talk],
    rounds: u32,
    draw: &mut Draw,
    digest: &mut Digest,
) -> Result<(), Failed> {
    for n in 0..rounds {
        for talk in talks {
            let talk = Talk {
                whole: n == 0,
                ..*talk
            };
            call(alloc, settings, &talk, draw, digest)?;
        }
    }
    Ok(())
}

impl<'a> Work<Settings> for Calls<'a> {
    fn run(self, settings: &mut Settings) -> Result<(), Failed> {
        let Calls {
            alloc,
            talks,
            rounds,
            draw,
            digest,
        } = self;
        call_rounds(alloc, settings, talks, rounds, draw, digest)
    }
}

const SMALL: Shape = Shape {
    names: 4,
    endpoints: 20,
    certificate: 1_000,
    last: "[limits]\nmax_chunks = 1024\n",
};

const LARGE: Shape = Shape {
    names: 4,
    endpoints: 300,
    certificate: 1_000,
    last: "[limits]\nmax_chunks = 1024\n",
};

const FEW: [Talk; 4] = [
    Talk {
        rounds: 8,
        questions: 64,
        piece: 1_460,
        endpoints: false,
        whole: false,
    },
    Talk {
        rounds: 1,
        questions: 16,
        piece: 1,
        endpoints: false,
        whole: false,
    },
    Talk {
        rounds: 8,
        questions: 8,
        piece: 1_460,
        endpoints: true,
        whole: false,
    },
    Talk {
        rounds: 1,
        questions: 2,
        piece: 1,
        endpoints: true,
        whole: false,
    },
];

const MANY: [Talk; 1] = [Talk {
    rounds: 4,
    questions: 1,
    piece: 4_096,
    endpoints: true,
    whole: false,
}];

/// So many times conversations of each kind, with servers of 20 and 300 endpoints. Of those of the first round the whole is
/// added.
pub fn ask(
    alloc: Global,
    pool: &Pool,
    draw: &mut Draw,
    rounds: u32,
    digest: &mut Digest,
) -> Result<(), Failed> {
    for (shape, talks) in [(&SMALL, &FEW[..]), (&LARGE, &MANY[..])] {
        let settings = drawn_settings(alloc, draw, pool, shape);
        lend(
            settings,
            Calls {
                alloc,
                talks,
                rounds,
                draw: &mut *draw,
                digest: &mut *digest,
            },
        )?;
    }
    Ok(())
}
