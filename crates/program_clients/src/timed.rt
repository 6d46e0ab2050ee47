//! A connection whose reads and writes are limited in time.

ghost use Rattle.std.specs.Io.{ReadsAtMost, WritesAtMost};
ghost use Rattle.std.specs.Prelude.{◌≡◌, IfSome};

use std::io::{Read, Result, Write};
use std::net::TcpStream;
use std::os::unix::net::UnixStream;
use std::time::{Clock, Duration, Instant};

/// A connection that was accepted.
#[derive(Drop)]
pub enum Stream {
    /// At a port.
    Port(TcpStream),
    /// At a socket of the file system.
    Socket(UnixStream),
}

impl Stream {
    /// The same connection once more, for its other way.
    pub fn try_clone(&self) -> Result<Stream> {
        match self {
            Stream::Port(stream) => Ok(Stream::Port(stream.try_clone()?)),
            Stream::Socket(stream) => Ok(Stream::Socket(stream.try_clone()?)),
        }
    }

    // Reads; with nothing to read for so long it fails.
    fn read_within(&self, buffer: &mut [u8], left: Duration) -> Result<usize>
        ensures bound { ReadsAtMost result buffer.new }
    {
        match self {
            Stream::Port(stream) => {
                stream.set_read_timeout(Some(left))?;
                let mut stream = stream;
                stream.read(buffer)
            }
            Stream::Socket(stream) => {
                stream.set_read_timeout(Some(left))?;
                let mut stream = stream;
                stream.read(buffer)
            }
        }
    }

    // Writes; with no room for so long it fails.
    fn write_within(&self, bytes: &[u8], left: Duration) -> Result<usize>
        ensures bound { WritesAtMost result bytes.now }
    {
        match self {
            Stream::Port(stream) => {
                stream.set_write_timeout(Some(left))?;
                let mut stream = stream;
                stream.write(bytes)
            }
            Stream::Socket(stream) => {
                stream.set_write_timeout(Some(left))?;
                let mut stream = stream;
                stream.write(bytes)
            }
        }
    }

    /// Closes it. What a client of a port sent behind its request is taken first, as far as it is
    /// there: where such bytes are left, the close can undo a reply that is still on its way.
    pub fn shut_down(self) {
        let Stream::Port(mut stream) = self else {
            return;
        };
        let mut rest = [0u8; 4096];
        if stream.set_nonblocking(true).is_err() {
            return;
        }
        for _ in 0..1024 {
            match stream.read(&mut rest) {
                Ok(0) => return,
                Ok(_) => {}
                Err(_) => return,
            }
        }
    }
}

/// One way of a connection. All its reads, or all its writes, may wait so long together by a clock;
/// over that each fails. What the desk does between them is not counted.
#[derive(Drop)]
pub struct Timed<'a, C> {
    clock: &'a C,
    stream: Stream,
    left: Duration,
}

impl<'a, C> Timed<'a, C> {
    /// One way of this connection, with so much time for all its reads, or for all its writes.
    pub fn new(clock: &'a C, stream: Stream, limit: Duration) -> Timed<'a, C>
        ensures { result.stream ≡ stream }
    {
        Timed {
            clock,
            stream,
            left: limit,
        }
    }

    /// Both ways of this connection, or `None` where it cannot be had twice.
    pub fn both(
        clock: &'a C,
        stream: Stream,
        limit: Duration,
    ) -> Option<(Timed<'a, C>, Timed<'a, C>)>
        ensures { IfSome result (λ ways. ways.0.stream ≡ stream) }
    {
        let Ok(other) = stream.try_clone() else {
            return None;
        };
        Some((
            Timed::new(clock, stream, limit),
            Timed::new(clock, other, limit),
        ))
    }

    /// The connection.
    pub fn into_stream(self) -> Stream {
        self.stream
    }
}

impl<'a, C: Clock> Timed<'a, C> {
    // Takes what was waited since then from the time that is left. With none left it is zero, which
    // no socket takes as a limit.
    fn count_since(&mut self, began: Instant) -> Result<()> {
        let now = Instant::now(self.clock)?;
        self.left = self.left.saturating_sub(now.duration_since(began));
        Ok(())
    }
}

impl<'a, C: Clock> Read for Timed<'a, C> {
    fn read(&mut self, buffer: &mut [u8]) -> Result<usize> {
        let began = Instant::now(self.clock)?;
        let read = self.stream.read_within(buffer, self.left);
        self.count_since(began)?;
        read
    }
}

impl<'a, C: Clock> Write for Timed<'a, C> {
    fn write(&mut self, bytes: &[u8]) -> Result<usize> {
        let began = Instant::now(self.clock)?;
        let wrote = self.stream.write_within(bytes, self.left);
        self.count_since(began)?;
        wrote
    }

    fn flush(&mut self) -> Result<()> {
        Ok(())
    }
}
