//! The identifiers to come of one session, by rising serials.

ghost use Rattle.std.specs.Prelude.{◌≡◌, ◌+◌, ◌-◌, ◌^◌, ◌<◌, ◌↔◌, IfOk, OnOk, OnErr, IsErr};
ghost use Rattle.references.specs.Series.{FitsPlaces, id_at, last_serial};

use crate::id::Id;
use crate::kind::Kind;
use std::error::Error;
use std::fmt;
use std::marker::Model;

/// No serial is left: the next one is 2^32 - 1, which is never given.
#[derive(Clone, Copy, Debug, PartialEq, Eq)]
pub struct Full;

impl fmt::Display for Full {
    fn fmt<W: fmt::Write>(&self, f: &mut fmt::Formatter<W>) -> fmt::Result {
        write!(f, "no serial is left")
    }
}

impl Error for Full {}

/// The identifiers to come of one session of one run: each takes the next serial. The value can't
/// be copied, so no serial is given twice.
#[derive(Debug, Drop)]
pub struct Ids {
    run: u64,
    session: u32,
    next: u32,
}

impl Model for Ids {
    ghost use Rattle.std.specs.Prelude.{◌<◌, ◌^◌};
    ghost use Rattle.references.specs.Series.{Series};

    ghost Value = { Series };

    ghost view = { λ ids. record { run = ids.run; session = ids.session; next = ids.next } };

    ghost invariant = { λ ids. (ids.run < 2 ^ 48) × (ids.session < 2 ^ 30) };
}

impl Ids {
    /// The identifiers of a session, from serial 0 on. The number of the run is below 2^48, and
    /// that of the session below 2^30.
    pub fn new(run: u64, session: u32) -> Ids
        requires run_small { run < 2 ^ 48 }
        requires session_small { session < 2 ^ 30 }
        ensures { result ≡ record { run = run; session = session; next = 0 } }
    {
        Ids::resume_at(run, session, 0)
    }

    /// The same, from that serial on.
    pub fn resume_at(run: u64, session: u32, serial: u32) -> Ids
        requires run_small { run < 2 ^ 48 }
        requires session_small { session < 2 ^ 30 }
        ensures { result ≡ record { run = run; session = session; next = serial } }
    {
        Ids {
            run,
            session,
            next: serial,
        }
    }

    /// The identifier of that kind with the next serial, which is taken. `Full` exactly where the
    /// next serial is 2^32 - 1; then nothing changes. It takes no memory.
    pub fn next(&mut self, kind: Kind) -> Result<Id, Full>
        ensures ok { IfOk result (λ id. id ≡ id_at self.old kind self.old.next) }
        ensures taken { OnOk result (self.new ≡ record self.old { next = self.old.next + 1 }) }
        ensures full { IsErr result ↔ (self.old.next ≡ last_serial) }
        ensures err { OnErr result (self.new ≡ self.old) }
    {
        if self.next == u32::MAX {
            return Err(Full);
        }
        let id = self.at(kind, self.next);
        self.next += 1;
        Ok(id)
    }

    // The identifier of that kind with that serial.
    pub(crate) fn at(&self, kind: Kind, serial: u32) -> Id
        ensures { result ≡ id_at self.now kind serial }
    {
        Id::of(self.run, self.session, kind, serial)
    }

    // The next serial.
    pub(crate) fn serial(&self) -> u32
        ensures next { result ≡ self.now.next }
        ensures fit { FitsPlaces self.now }
    {
        self.next
    }

    // Makes that serial the next one again.
    pub(crate) fn go_back(&mut self, serial: u32)
        ensures { self.new ≡ record self.old { next = serial } }
    {
        self.next = serial;
    }
}
