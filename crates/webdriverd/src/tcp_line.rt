//! The connections of a TCP port at the loopback address, as a line.

ghost use Rattle.std.specs.Prelude.{◌≡◌, ◌≤◌, ◌<◌, ◌+◌, [], false, IsTrue, IfOk, length};
ghost use Rattle.wd_http.specs.Calls.{last_number};
ghost use Rattle.wd_http.specs.Causes.{HasCause, HasWriteCause};
ghost use Rattle.wd_http.specs.Talk.{GoesOn, Reads, Writes, HangsUp};
ghost use Rattle.webdriverd.specs.Silent.{silent};

use crate::taken::taken;
use std::io::Read;
use std::net::{Ipv4Addr, Net, OpenListener, OpenStream, Shutdown, TcpListener};
use wd_http::{Failed, Line, WriteFault};

/// The connections of a TCP port at the loopback address, one after another. It tells nothing of them. The port stays open,
/// and its connections wait, while one of them stands. After 2^64 − 1 calls that failed no further one can be counted: then
/// there is no further connection and nothing comes, and there is no memory to write.
#[derive(Drop)]
pub struct TcpLine<'a, R: Net> {
    runtime: &'a R,
    listener: Option<R::Listener>,
    stream: Option<R::Stream>,
    faults: u64,
    refusals: u64,
    ghost few: { refusals ≤ faults },
}

impl<'a, R: Net> TcpLine<'a, R> {
    /// A line that listens at no port yet.
    pub fn new(runtime: &'a R) -> TcpLine<'a, R>
        ensures faults { (result.faults ≡ 0) × (result.refusals ≡ 0) }
    {
        TcpLine {
            runtime,
            listener: None,
            stream: None,
            faults: 0,
            refusals: 0,
        }
    }

    /// Counts a call of `open` or `next` that failed.
    fn refuse(&mut self) -> Failed
        requires { self.old.faults < last_number }
        ensures faults { self.new.faults ≡ self.old.faults + 1 }
        ensures refusals { self.new.refusals ≡ self.old.refusals + 1 }
    {
        self.faults += 1;
        self.refusals += 1;
        Failed
    }

    /// The next client that dials.
    fn accepted(&self) -> Option<R::Stream> {
        let (stream, _) = self.listener.as_ref()?.accept().ok()?;
        // without it a response may be held back; a stream that refuses works as well
        let _ = stream.set_nodelay(true);
        Some(stream)
    }
}

impl<'a, R: Net> Line for TcpLine<'a, R> {
    ghost tells = { false };

    ghost talk = { λ _. silent };

    ghost faults = { λ l. l.faults };

    ghost refusals = { λ l. l.refusals };

    ghost makes = { λ _ _ _. Unit {0} };

    fn open(&mut self, port: u16) -> Result<(), Failed>
        ensures cause { HasCause self.old.faults self.new.faults result }
        ensures refusal { HasCause self.old.refusals self.new.refusals result }
    {
        if self.faults == u64::MAX {
            return Ok(());
        }
        match TcpListener::bind(self.runtime, (Ipv4Addr::LOCALHOST, port)) {
            Ok(listener) => {
                self.listener = Some(listener);
                Ok(())
            }
            Err(_) => Err(self.refuse()),
        }
    }

    // It waits until a client dials.
    fn next(&mut self) -> Result<bool, Failed>
        ensures told { IsTrue false → GoesOn silent silent result }
        ensures cause { HasCause self.old.faults self.new.faults result }
        ensures refusal { HasCause self.old.refusals self.new.refusals result }
    {
        if self.faults == u64::MAX {
            return Ok(false);
        }
        match self.accepted() {
            Some(stream) => {
                self.stream = Some(stream);
                Ok(true)
            }
            None => Err(self.refuse()),
        }
    }

    // What the client sent. Where no connection stands nothing comes.
    fn read(&mut self, into: &mut [u8]) -> Result<usize, Failed>
        ensures bound { IfOk result (λ n. n ≤ length into.new) }
        ensures told { IsTrue false → Reads silent silent into.new result }
        ensures cause { HasCause self.old.faults self.new.faults result }
        ensures refusal { self.new.refusals ≡ self.old.refusals }
    {
        let Some(stream) = &mut self.stream else {
            return Ok(0);
        };
        if self.faults == u64::MAX {
            return Ok(0);
        }
        match stream.read(into) {
            Ok(count) => Ok(count),
            Err(_) => {
                self.faults += 1;
                Err(Failed)
            }
        }
    }

    // What the system takes for the client.
    fn write(&mut self, bytes: &[u8]) -> Result<usize, WriteFault>
        ensures bound { IfOk result (λ n. n ≤ length bytes.now) }
        ensures some { IfOk result (λ n. n ≡ 0 → bytes.now ≡ []) }
        ensures told { IsTrue false → Writes silent silent bytes.now result }
        ensures cause { HasWriteCause self.old.faults self.new.faults result }
        ensures refusal { self.new.refusals ≡ self.old.refusals }
    {
        if bytes.is_empty() {
            return Ok(0);
        }
        if self.faults == u64::MAX {
            return Err(WriteFault::Memory);
        }
        let written = match &mut self.stream {
            Some(stream) => taken(stream, bytes),
            None => Err(WriteFault::Failed),
        };
        if let Err(WriteFault::Failed) = &written {
            self.faults += 1;
        }
        written
    }

    // The client reads the end behind what was sent.
    fn hang_up(&mut self)
        ensures told { IsTrue false → HangsUp silent silent }
        ensures faults { self.new.faults ≡ self.old.faults }
        ensures refusal { self.new.refusals ≡ self.old.refusals }
    {
        if let Some(stream) = &self.stream {
            let _ = stream.shutdown(Shutdown::Write);
        }
        self.stream = None;
    }
}
