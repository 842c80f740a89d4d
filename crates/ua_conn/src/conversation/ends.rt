//! A client and a server between two steps of a schedule.

ghost use Rattle.std.specs.Prelude.{◌≡◌, ◌≤◌, ◌<◌, ◌++◌, ◌∷◌, [], false, take, drop, IfOk, OnOk};
ghost use Rattle.ua_frame.specs.Hello.{is_long};
ghost use Rattle.ua_frame.specs.Streams.{moment_of as counted};
ghost use Rattle.ua_chunk.specs.Numbers.{greatest_number};
ghost use Rattle.ua_conn.specs.client.Asker.{Asker};
ghost use Rattle.ua_conn.specs.client.Held.{client_held};
ghost use Rattle.ua_conn.specs.client.Sending.{client_bytes};
ghost use Rattle.ua_conn.specs.BothEnds.{IsConfig};
ghost use Rattle.ua_conn.specs.Conversing.{setup_of};
ghost use Rattle.ua_conn.specs.Between.{Between, Tells, is_memory, Meets, Served, Heard, run_of};
ghost use Rattle.ua_conn.specs.Story.{Setup as Both, World, begun, happens, run, told};
ghost use Rattle.ua_conn.specs.client.Commands as commands;
ghost use Rattle.ua_conn.specs.server.Greeting.{greeting as said_first};
ghost use Rattle.ua_conn.specs.server.Held.{held};
ghost use Rattle.ua_conn.specs.server.Site.{Site};
ghost use Rattle.ua_conn.specs.declared.schedule.Step.TheVariants as steps;

use crate::client::{Answer, AskFault, Client, ClientFault};
use crate::lists::push;
use crate::outcome::End;
use crate::schedule::Step;
use crate::server::{FeedFault, Server};
use crate::story::{Setup, Story};
use std::alloc::{AllocError, Global};
use ua_service::Request;
use ua_value::NoMemory;
use ua_value::plumbing::let_go;

/// A client, a server, and what came of them so far.
#[derive(Drop)]
pub(crate) struct Ends<'a> {
    pub(crate) clock: i64,
    pub(crate) client: Client,
    pub(crate) server: Server<'a>,
    /// How many bytes of what the client sent were delivered.
    pub(crate) up_to: usize,
    /// How many bytes of what the server sent were delivered.
    pub(crate) down_to: usize,
    pub(crate) story: Story,
}

/// At most `n` bytes behind the first `from`.
fn piece(bytes: &[u8], from: usize, n: usize) -> &[u8]
    ensures { result.now ≡ take n (drop from bytes.now) }
{
    let (_, rest) = bytes.split_at(from.min(bytes.len()));
    let (piece, _) = rest.split_at(n.min(rest.len()));
    piece
}

/// Puts what a client wrote to what it sent.
fn send(client: &mut Client, up: &mut Vec<u8>) -> Result<(), NoMemory>
    ensures up { OnOk result (up.new.items ≡ up.old.items ++ client.old.output) }
    ensures client { OnOk result (client.new ≡ record client.old { output = [] }) }
{
    up.extend_from_slice(client.output())?;
    let n = client.output().len();
    client.sent(n);
    Ok(())
}

/// What a refusal says: that a growth was refused, or else that the command was not accepted.
fn refusal(fault: AskFault) -> Result<bool, NoMemory>
    ensures { IfOk result (λ accepted. (accepted ≡ false) × (is_memory fault ≡ false)) }
{
    match fault {
        AskFault::NoMemory => Err(AllocError),
        _ => Ok(false),
    }
}

/// Asks a copy of a request. The result is whether it was accepted.
fn ask(client: &mut Client, now: i64, request: &Request, part_limit: u32) -> Result<bool, NoMemory>
    ensures { IfOk result (λ accepted. Tells client.old (counted now) (commands.Ask request.now part_limit) client.new accepted) }
{
    let copy = request.copy()?;
    match client.ask(now, copy, part_limit) {
        Ok(_) => Ok(true),
        Err((fault, copy)) => {
            let_go(copy);
            refusal(fault)
        }
    }
}

/// Asks for a new token. The result is whether that was accepted.
fn renew(client: &mut Client, now: i64) -> Result<bool, NoMemory>
    ensures { IfOk result (λ accepted. Tells client.old (counted now) commands.Renew client.new accepted) }
{
    match client.renew(now) {
        Ok(()) => Ok(true),
        Err(fault) => refusal(fault),
    }
}

/// Closes the channel. The result is whether that was accepted.
fn close(client: &mut Client, now: i64) -> Result<bool, NoMemory>
    ensures { IfOk result (λ accepted. Tells client.old (counted now) commands.Close client.new accepted) }
{
    match client.close(now) {
        Ok(()) => Ok(true),
        Err(fault) => refusal(fault),
    }
}

/// Keeps a copy of a request.
fn keep(request: &Request, asked: &mut Vec<Request>) -> Result<(), NoMemory>
    ensures { OnOk result (asked.new.items ≡ asked.old.items ++ request.now ∷ []) }
{
    push(asked, request.copy()?)
}

/// Gives a piece to the server. A server that takes no more drops it.
fn serve(
    server: &mut Server,
    now: i64,
    piece: &[u8],
    down: &mut Vec<u8>,
    handed: &mut Vec<Request>,
    end: &mut Option<End>,
) -> Result<(), NoMemory>
    ensures { OnOk result (Served server.old server.new (record { moment = counted now; bytes = piece.now }) down.old.items down.new.items handed.old.items handed.new.items end.old end.new) }
{
    match server.feed(now, piece, down) {
        Ok(mut fed) => {
            *end = fed.end;
            handed.append(&mut fed.requests)
        }
        Err(FeedFault::NoMemory) => Err(AllocError),
        Err(FeedFault::Ended) => Ok(()),
    }
}

/// The fault, where it is one that a client newly met.
fn met(fault: ClientFault) -> Result<Option<ClientFault>, NoMemory>
    ensures { IfOk result (λ met. Meets fault met) }
{
    match fault {
        ClientFault::NoMemory => Err(AllocError),
        ClientFault::Ended => Ok(None),
        ClientFault::ServerSaid { .. } | ClientFault::Broken { .. } => Ok(Some(fault)),
    }
}

/// Gives a piece to the client. A client that takes no more drops it.
fn hear(
    client: &mut Client,
    now: i64,
    piece: &[u8],
    answers: &mut Vec<Answer>,
    fault: &mut Option<ClientFault>,
) -> Result<(), NoMemory>
    ensures { OnOk result (Heard client.old client.new (record { moment = counted now; bytes = piece.now }) answers.old.items answers.new.items fault.old fault.new) }
{
    match client.feed(now, piece) {
        Ok(mut given) => answers.append(&mut given),
        Err(said) => {
            if let Some(said) = met(said)? {
                *fault = Some(said);
            }
            Ok(())
        }
    }
}

/// A client that has heard nothing yet.
fn client_of(alloc: Global, setup: &Setup) -> Result<Client, NoMemory>
    requires config { IsConfig setup.now.config }
    requires url { setup.now.reverse ≡ false → is_long setup.now.url.now ≡ false }
    requires first_least { 1 ≤ setup.now.first_sequence }
    requires first_most { setup.now.first_sequence ≤ greatest_number }
    ensures { IfOk result (λ client. let a : Asker = (setup_of setup.now).asker in
        client ≡ record { config = a.config; held = client_held a []; output = client_bytes a [] []; failed = false }) }
{
    if setup.reverse {
        Client::new_reverse(alloc, setup.config, setup.first_sequence)
    } else {
        Client::new(alloc, setup.config, setup.url, setup.first_sequence)
    }
}

/// A client that has heard nothing yet, and what it said.
fn greeting(alloc: Global, setup: &Setup) -> Result<(Client, Vec<u8>), NoMemory>
    requires config { IsConfig setup.now.config }
    requires url { setup.now.reverse ≡ false → is_long setup.now.url.now ≡ false }
    requires first_least { 1 ≤ setup.now.first_sequence }
    requires first_most { setup.now.first_sequence ≤ greatest_number }
    ensures client { IfOk result (λ made. let a : Asker = (setup_of setup.now).asker in
        made.0 ≡ record { config = a.config; held = client_held a []; output = []; failed = false }) }
    ensures up { IfOk result (λ made. made.1.items ≡ client_bytes (setup_of setup.now).asker [] []) }
{
    let mut client = client_of(alloc, setup)?;
    let mut up = Vec::new(alloc);
    match send(&mut client, &mut up) {
        Ok(()) => Ok((client, up)),
        Err(e) => {
            let_go((client, up));
            Err(e)
        }
    }
}

/// A server that has heard nothing yet. Where it opens the connection, `down` gains its ReverseHello.
fn server_of<'a>(
    alloc: Global,
    setup: &Setup<'a>,
    down: &mut Vec<u8>,
) -> Result<Server<'a>, NoMemory>
    requires channel { 0 < setup.now.channel_id }
    ensures server { IfOk result (λ server. let site : Site = (setup_of setup.now).site in server ≡ record { site = site; held = held site []; failed = false }) }
    ensures said { OnOk result (down.new.items ≡ down.old.items ++ said_first setup.now.reverse setup.now.settings.now) }
{
    if !setup.reverse {
        return Server::new(alloc, setup.settings, setup.channel_id);
    }
    match Server::new_reverse(alloc, setup.settings, setup.channel_id, down) {
        Ok(server) => Ok(server),
        // (what `converse` asks for rules the other reasons out)
        Err(_) => Err(AllocError),
    }
}

impl<'a> Ends<'a> {
    /// Both ends before the first step.
    pub(crate) fn begin(alloc: Global, setup: &Setup<'a>) -> Result<Ends<'a>, NoMemory>
        requires channel { 0 < setup.now.channel_id }
        requires config { IsConfig setup.now.config }
        requires url { setup.now.reverse ≡ false → is_long setup.now.url.now ≡ false }
        requires first_least { 1 ≤ setup.now.first_sequence }
        requires first_most { setup.now.first_sequence ≤ greatest_number }
        ensures { IfOk result (λ ends. Between (setup_of setup.now) (begun (setup_of setup.now)) (run_of ends)) }
    {
        let start = setup.start;
        let mut down = Vec::new(alloc);
        let server = server_of(alloc, setup, &mut down)?;
        match greeting(alloc, setup) {
            Ok((client, up)) => Ok(Ends {
                clock: start,
                client,
                server,
                up_to: 0,
                down_to: 0,
                story: Story {
                    asked: Vec::new(alloc),
                    handed: Vec::new(alloc),
                    answers: Vec::new(alloc),
                    up,
                    down,
                    server_end: None,
                    client_fault: None,
                },
            }),
            Err(e) => {
                let_go((server, down));
                Err(e)
            }
        }
    }

    /// Tells the client to ask a request.
    fn ask(&mut self, request: &Request, part_limit: u32) -> Result<(), NoMemory>
        ensures { OnOk result ((s : Both) (w : World) → Between s w (run_of self.old) → Between s (told s w (commands.Ask request.now part_limit)) (run_of self.new)) }
    {
        let now = self.clock;
        if ask(&mut self.client, now, request, part_limit)? {
            keep(request, &mut self.story.asked)?;
            send(&mut self.client, &mut self.story.up)?;
        }
        Ok(())
    }

    /// Tells the client to renew its token.
    fn renew(&mut self) -> Result<(), NoMemory>
        ensures { OnOk result ((s : Both) (w : World) → Between s w (run_of self.old) → Between s (told s w commands.Renew) (run_of self.new)) }
    {
        let now = self.clock;
        if renew(&mut self.client, now)? {
            send(&mut self.client, &mut self.story.up)?;
        }
        Ok(())
    }

    /// Tells the client to close the channel.
    fn close(&mut self) -> Result<(), NoMemory>
        ensures { OnOk result ((s : Both) (w : World) → Between s w (run_of self.old) → Between s (told s w commands.Close) (run_of self.new)) }
    {
        let now = self.clock;
        if close(&mut self.client, now)? {
            send(&mut self.client, &mut self.story.up)?;
        }
        Ok(())
    }

    /// Lets time pass. A clock stops at the greatest number that it can show.
    fn tick(&mut self, n: u64)
        ensures { (s : Both) (w : World) → Between s w (run_of self.old) → Between s (happens s w (steps.Tick n)) (run_of self.new) }
    {
        let clock = self.clock;
        self.clock = clock.saturating_add_unsigned(n);
    }

    /// Delivers at most `n` bytes to the server.
    fn up(&mut self, n: usize) -> Result<(), NoMemory>
        ensures { OnOk result ((s : Both) (w : World) → Between s w (run_of self.old) → Between s (happens s w (steps.Up n)) (run_of self.new)) }
    {
        let now = self.clock;
        let piece = piece(&self.story.up, self.up_to, n);
        self.up_to = self.up_to.saturating_add(piece.len());
        serve(
            &mut self.server,
            now,
            piece,
            &mut self.story.down,
            &mut self.story.handed,
            &mut self.story.server_end,
        )
    }

    /// Delivers at most `n` bytes to the client.
    fn down(&mut self, n: usize) -> Result<(), NoMemory>
        ensures { OnOk result ((s : Both) (w : World) → Between s w (run_of self.old) → Between s (happens s w (steps.Down n)) (run_of self.new)) }
    {
        let now = self.clock;
        let piece = piece(&self.story.down, self.down_to, n);
        self.down_to = self.down_to.saturating_add(piece.len());
        hear(
            &mut self.client,
            now,
            piece,
            &mut self.story.answers,
            &mut self.story.client_fault,
        )?;
        send(&mut self.client, &mut self.story.up)
    }

    /// Makes one step.
    pub(crate) fn step(&mut self, step: &Step) -> Result<(), NoMemory>
        ensures { OnOk result ((s : Both) (w : World) → Between s w (run_of self.old) → Between s (happens s w step.now) (run_of self.new)) }
    {
        match step {
            Step::Ask(request, part_limit) => self.ask(request, *part_limit),
            Step::Renew => self.renew(),
            Step::Close => self.close(),
            Step::Tick(n) => {
                self.tick(*n);
                Ok(())
            }
            Step::Up(n) => self.up(*n),
            Step::Down(n) => self.down(*n),
        }
    }

    /// Makes the steps of a schedule, one after another.
    pub(crate) fn run(&mut self, schedule: &[Step]) -> Result<(), NoMemory>
        ensures { OnOk result ((s : Both) (w : World) → Between s w (run_of self.old) → Between s (run s w schedule.now) (run_of self.new)) }
    {
        'steps: for step in schedule {
            self.step(step)?;
        }
        Ok(())
    }

    /// What came of both ends.
    pub(crate) fn into_story(self) -> Story
        ensures { result ≡ self.entry.story }
    {
        let Ends {
            client,
            server,
            story,
            ..
        } = self;
        let_go(client);
        let_go(server);
        story
    }
}
