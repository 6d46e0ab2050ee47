//! The command `serve`: the desk over HTTP at a port of 127.0.0.1, and for batches at a socket of
//! the file system where one is named.

ghost use Rattle.std.specs.Prelude.{◌≡◌, ◌≤◌, is_some};
ghost use Rattle.std.specs.Io.KnownBytes.{Appends};
ghost use Rattle.series_rules.specs.Steps.{Asked};
ghost use Rattle.program_clients.specs.Printing.{WritesWhole};
ghost use Rattle.program_commands.specs.Connections.{ServesNext};
ghost use Rattle.program_commands.specs.Serving.{listening_line};
ghost use Rattle.program_commands.specs.CommandEnds.{ConnectionsServed, ServeEnds};

use crate::connection::{Client, print_line, serve_connection};
use crate::malformed::{renew, tell_untold};
use crate::streams::Streams;
use desk_http::{HttpFault, Routes};
use price_rules::precedence::Precedence;
use program_clients::clients::Clients;
use program_clients::entrances::Entrances;
use program_clients::fault::{CausedFault, Fault, report, report_why};
use program_clients::printing::print_number;
use series_rules::desk::Desk;
use std::alloc::Global;
use std::io::Write;
use std::time::Clock;

/// A port to listen at, a socket for batches where one is named, and how many connections are
/// served.
#[derive(Clone, Copy)]
pub struct Place<'a> {
    pub port: u16,
    pub batches: Option<&'a str>,
    pub requests: u64,
}

// Waits for a client, serves its connection, and writes the line of that. Of a client that was gone
// before nothing was read, and nothing was asked of the desk.
fn serve_next<D: Desk, T: Clock, C: Clients, I, O: Write, E: Write>(
    alloc: Global,
    clock: &T,
    routes: &Routes,
    desk: &mut D,
    precedence: &Precedence,
    clients: &mut C,
    streams: &mut Streams<I, O, E>,
) -> Result<(), Fault>
    ensures served { ServesNext (Asked D.seen precedence.now desk.old desk.new)
        (C.takes_batches clients.old)
        (Appends (O.contents streams.old.output) (O.contents streams.new.output)) result }
    ensures takes { C.takes_batches clients.new ≡ C.takes_batches clients.old }
{
    match clients.accept() {
        Ok(Some((protocol, reader, writer))) => {
            renew(clock, &mut streams.errors);
            let mut client = Client {
                protocol,
                reader,
                writer,
            };
            let ended = serve_connection(alloc, routes, desk, precedence, &mut client, streams);
            let Client {
                protocol: _,
                reader,
                writer,
            } = client;
            clients.disconnect(reader, writer);
            ended
        }
        Ok(None) => print_line(&Err(HttpFault::Read), &mut streams.output),
        Err(fault) => Err(fault),
    }
}

/// Serves so many clients, one after the other, and writes the line of each connection at once.
/// Gives 0, or 3 where no more clients can be had or a line cannot be written, which is reported.
/// Of the malformed requests of batches, of messages that are none, and of bad queries, a line on
/// `errors` says why, of 100 an hour, and then how many more there are.
pub fn serve_clients<D: Desk, T: Clock, C: Clients, I, O: Write, E: Write>(
    alloc: Global,
    clock: &T,
    routes: &Routes,
    desk: &mut D,
    precedence: &Precedence,
    clients: &mut C,
    requests: u64,
    streams: &mut Streams<I, O, E>,
) -> u8
    ensures status { result ≤ 3 }
    // Each client was replied to or answered as the desk makes it, and what was answered is kept,
    // by an exchange or within a batch: behind a fault of the store too. The lines are written,
    // each whole but perhaps the last; with 0 they are all.
    ensures end { ConnectionsServed (Asked D.seen precedence.now desk.old desk.new)
        (Appends (O.contents streams.old.output) (O.contents streams.new.output))
        (C.takes_batches clients.old) requests result }
{
    'serving: for _served in 0..requests {
        match serve_next(alloc, clock, routes, desk, precedence, clients, streams) {
            Ok(()) => {}
            Err(fault) => return report(&fault, &mut streams.errors.writer),
        }
    }
    tell_untold(&mut streams.errors);
    0
}

// Writes the line of the port.
fn print_listening<O: Write>(number: u16, output: &mut O) -> Result<(), Fault>
    ensures { WritesWhole (Appends (O.contents output.old) (O.contents output.new))
        (listening_line number) result }
{
    print_number("listening ", u64::from(number), output)
}

// Reports that the port or the socket cannot be listened at, and in a second line why.
fn report_unopened<E: Write>(refused: &CausedFault, batches: Option<&str>, errors: &mut E) -> u8
    ensures { result ≡ 3 }
{
    let status = report(&refused.fault, errors);
    match (&refused.fault, refused.why) {
        (Fault::Port(number), Some(why)) => {
            let _ = write!(errors, "onixdesk: port {number}: {why}\n");
        }
        (Fault::Socket, Some(why)) => report_why(batches.unwrap_or("socket"), why, errors),
        _ => {}
    }
    status
}

/// Listens at a port, the one that was bound where there is one, and at a socket for batches where
/// one is named, writes `listening` and the number of the port, and serves so many connections: an
/// exchange over HTTP at the port, a batch at the socket. Gives 0, or 3 after a fault of the port,
/// of the socket or of the output, or when out of memory, which is reported. The routes of HTTP are
/// made before.
pub fn serve_desk<D: Desk, T: Clock, N: Entrances, I, O: Write, E: Write>(
    alloc: Global,
    clock: &T,
    desk: &mut D,
    precedence: &Precedence,
    entrances: &mut N,
    place: Place<'_>,
    streams: &mut Streams<I, O, E>,
) -> u8
    ensures status { result ≤ 3 }
    // As `serve_clients`, behind the line of the port; with batches only where a socket is named.
    ensures end { ServeEnds (Asked D.seen precedence.now desk.old desk.new)
        (Appends (O.contents streams.old.output) (O.contents streams.new.output))
        (is_some place.entry.batches) place.entry.port place.entry.requests result }
{
    let routes = match Routes::new(alloc) {
        Ok(routes) => routes,
        Err(_) => return report(&Fault::Memory, &mut streams.errors.writer),
    };
    let mut clients = match entrances.open(place.port, place.batches) {
        Ok(clients) => clients,
        Err(refused) => {
            return report_unopened(&refused, place.batches, &mut streams.errors.writer);
        }
    };
    match print_listening(place.port, &mut streams.output) {
        Ok(()) => {}
        Err(fault) => return report(&fault, &mut streams.errors.writer),
    }
    serve_clients(
        alloc,
        clock,
        &routes,
        desk,
        precedence,
        &mut clients,
        place.requests,
        streams,
    )
}
