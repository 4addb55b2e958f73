//! An identifier and its text, a UUID.

ghost use Rattle.std.specs.Prelude.{◌≡◌, ◌≢◌, ◌<◌, ◌^◌, IfOk};
ghost use Rattle.references.specs.Identifier.{Identifier, IsInRange, bytes_of, text_of, is_text_of};

use crate::kind::Kind;
use std::alloc::Global;
use std::marker::Model;
use uuid::Uuid;
use wd_json::{Memory, WdList, WdText};

/// An identifier: a UUID of version 8 (RFC 9562, section 5.8) that holds the number of the run,
/// below 2^48, the kind, the number of the session, below 2^30, and a serial of that session.
#[derive(Clone, Copy, Debug, PartialEq, Eq)]
pub struct Id {
    run: u64,
    session: u32,
    kind: Kind,
    serial: u32,
}

impl Model for Id {
    ghost use Rattle.std.specs.Prelude.{◌<◌, ◌^◌};
    ghost use Rattle.references.specs.Identifier.{Identifier};

    ghost Value = { Identifier };

    ghost view = { λ id. record { run = id.run; session = id.session; kind = id.kind; serial = id.serial } };

    ghost invariant = { λ id. (id.run < 2 ^ 48) × (id.session < 2 ^ 30) };

    ghost inverse = { λ id. record { run = id.run; session = id.session; kind = id.kind; serial = id.serial } };
}

/// Identifiers in order.
pub type IdList = WdList<Id>;

impl Id {
    // The identifier with these numbers.
    pub(crate) fn of(run: u64, session: u32, kind: Kind, serial: u32) -> Id
        requires run_small { run < 2 ^ 48 }
        requires session_small { session < 2 ^ 30 }
        ensures { result ≡ record { run = run; session = session; kind = kind; serial = serial } }
    {
        Id {
            run,
            session,
            kind,
            serial,
        }
    }

    // The identifier as a UUID.
    fn uuid(self) -> Uuid
        ensures { result ≡ bytes_of self }
    {
        let high = self.run * 0x1_0000 + 0x8000 + self.kind.number();
        let low = (1 << 63) + u64::from(self.session) * 0x1_0000_0000 + u64::from(self.serial);
        Uuid::from_u64_pair(high, low)
    }

    /// Whether that is the identifier's text. It takes no memory.
    pub fn has_text(self, text: &str) -> bool
        ensures { result ≡ is_text_of self text.now }
    {
        let mut buffer = [0; 36];
        self.text_in(&mut buffer) == text
    }

    /// The identifier's text, written into the buffer: as `id_text` gives it. It takes no memory.
    pub fn text_in(self, buffer: &mut [u8; 36]) -> &str
        ensures { result.now ≡ text_of self }
    {
        self.uuid().hyphenated().encode_lower(buffer)
    }
}

/// The identifier's text: 32 digits in base 16, in lower case, with hyphens between the groups of
/// 8, 4, 4, 4 and 12 (RFC 9562, section 4). `Memory` where there is no memory for it.
pub fn id_text(alloc: Global, id: Id) -> Result<WdText, Memory>
    ensures { IfOk result (λ text. text ≡ text_of id) }
{
    let mut buffer = [0; 36];
    WdText::of(alloc, id.text_in(&mut buffer))
}

/// A law: no two identifiers have one text.
pub fn one_id_for_text()
    ensures { (a b : Identifier) → IsInRange a → IsInRange b → text_of a ≡ text_of b → a ≡ b }
{}

/// A law: identifiers with different serials have different texts, whatever else they hold.
pub fn serials_tell_apart()
    ensures { (a b : Identifier) → IsInRange a → IsInRange b → a.serial ≢ b.serial → text_of a ≢ text_of b }
{}
