//! Both ends in one program: docs/EMBEDDING.md quotes this page word for word.

use std::alloc::Global;
use ua_conn::{Answer, AnswerResult, Client, ClientConfig, End, Server};
use ua_disco::{DEFAULT, Settings};
use ua_service::{FindServersRequest, Request, request_header};
use ua_value::{Array, DateTime, UaString};

/// 2026-01-01 00:00 UTC in ticks of 100 ns since 1601-01-01 UTC. A program asks its clock.
const NOW: i64 = 134_116_992_000_000_000;

const CONFIG: ClientConfig = ClientConfig {
    buffer: 65_535,
    max_message: 1_048_576,
    max_chunks: 64,
    lifetime: 3_600_000,
};

/// FindServers: every server that the receiver knows of, with names in any language.
fn find_servers() -> Request {
    Request::FindServers(FindServersRequest {
        header: request_header(DateTime(NOW), 1),
        endpoint_url: UaString::null(),
        locale_ids: Array::null(),
        server_uris: Array::null(),
    })
}

fn is_response(answer: &Answer) -> bool {
    match &answer.result {
        AnswerResult::Response(_) => true,
        AnswerResult::Aborted(_) => false,
    }
}

/// What the client has to say goes to the server, which ends so; what the server says to it goes back, and brings so
/// many answers. A program has a socket between the two, and may cut the bytes anywhere.
fn exchange(
    client: &mut Client,
    server: &mut Server<'_>,
    wire: &mut Vec<u8>,
    end: Option<End>,
    count: usize,
) -> bool {
    let Ok(fed) = server.feed(NOW, client.output(), wire) else {
        return false;
    };
    let sent = client.output().len();
    client.sent(sent);
    let Ok(answers) = client.feed(NOW, wire.as_slice()) else {
        return false;
    };
    wire.clear();
    fed.end == end && answers.len() == count && answers.iter().all(is_response)
}

/// Asks the request, in parts of 8168 bytes, which fit into the frames of every server.
fn asks(client: &mut Client, request: Request) -> bool {
    client.ask(NOW, request, 8168).is_ok()
}

/// Opens a channel, finds the servers, and closes the channel.
fn discovers(alloc: Global, client: &mut Client, server: &mut Server<'_>) -> bool {
    let mut wire = Vec::new(alloc);
    exchange(client, server, &mut wire, None, 0) // Hello, Acknowledge
        && exchange(client, server, &mut wire, None, 0) // open request, open response
        && asks(client, find_servers())
        && exchange(client, server, &mut wire, None, 1) // FindServers
        && client.close(NOW).is_ok()
        && exchange(client, server, &mut wire, Some(End::Closed), 0)
}

/// Both ends of one connection; the server has these settings, and gives its channel the id 1.
fn converses(alloc: Global, settings: &Settings) -> bool {
    let url = UaString::null();
    let Ok(mut client) = Client::new(alloc, CONFIG, &url, 1) else {
        return false;
    };
    let Ok(mut server) = Server::new(alloc, settings, 1) else {
        return false;
    };
    discovers(alloc, &mut client, &mut server)
}

#[test]
fn both_ends_in_one_program(rt: HostRuntime) {
    let done = match Settings::from_toml(rt.alloc(), DEFAULT.as_bytes()) {
        Ok(settings) => converses(rt.alloc(), &settings),
        Err(_) => false,
    };
    assert!(rt; done);
}
