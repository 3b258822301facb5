//! The sessions of a command or of a reply.

ghost use Rattle.std.specs.Prelude.{◌≡◌, ◌++◌, ◌<◌, List, OnOk, flat_map, length, map, slice_get};
ghost use Rattle.std.specs.List.{AllByRecursion};
ghost use Rattle.tpm_output.specs.Named.{row_as};
ghost use Rattle.tpm_show.specs.Bits.{bits_set};
ghost use Rattle.tpm_show.specs.Sessions.{ShownSession, attributes_set, attributes_told, handle_told};
ghost use Rattle.tpm_show.specs.Sessions.{names_from, session_begins, session_ends, session_told, sessions_from};
ghost use Rattle.tpm_show.specs.Sessions.{sessions_told};
ghost use Rattle.tpm_show.specs.declared.piece.How.TheVariants.{Asked};

use crate::bits::is_set;
use crate::handle_names::handle_name;
use crate::piece::{How, LINE_END, LIST_END, Piece, Shape, Value, in_line, says};
use crate::teller::{Teller, tell_pieces, tell_word};
use std::marker::Model;
use tpm_buffer::{AuthRef, ReplyAreas};
use tpm_output::named::Row;
use tpm_output::names;
use tpm_output::text::Pushed;
use tpm_types::AuthReply;

// The bits of TPMA_SESSION (Part 2, 8.4) by their numbers.
const ATTRIBUTES: [Row; 6] = names![
    0 "continueSession",
    1 "auditExclusive",
    2 "auditReset",
    5 "decrypt",
    6 "encrypt",
    7 "audit",
];

/// What a command has of a session, or a reply, where it has no handle.
#[derive(Drop)]
pub(crate) struct SessionParts<'a> {
    handle: Option<u32>,
    nonce: &'a [u8],
    attributes: u8,
    hmac: &'a [u8],
}

impl<'a> Model for SessionParts<'a> {
    ghost use Rattle.tpm_show.specs.Sessions.{ShownSession};

    ghost Value = { ShownSession };

    ghost view = { λ s. record {
      handle = s.handle;
      nonce = s.nonce.now;
      attributes = s.attributes;
      hmac = s.hmac.now;
    } };
}

impl<'a> SessionParts<'a> {
    ghost use Rattle.std.specs.Prelude.{◌≡◌};
    ghost use Rattle.tpm_show.specs.Sessions.{of_command, of_reply};

    /// A session of a command.
    pub(crate) fn of_command(auth: &AuthRef<'a>) -> Self
        ensures { result ≡ of_command auth.now }
    {
        SessionParts {
            handle: Some(auth.session().number()),
            nonce: auth.nonce(),
            attributes: auth.attrs().number(),
            hmac: auth.hmac(),
        }
    }

    /// A session of a reply.
    pub(crate) fn of_reply(auth: &'a AuthReply) -> Self
        ensures { result ≡ of_reply auth.now }
    {
        SessionParts {
            handle: None,
            nonce: auth.nonce.as_slice(),
            attributes: auth.attrs.number(),
            hmac: auth.hmac.as_slice(),
        }
    }
}

/// What has sessions: the areas of a reply, or those of a command.
pub(crate) trait HasSessions {
    /// The sessions, in their order.
    ghost sessions: { Self → List ShownSession };

    /// How many there are.
    fn session_count(&self) -> usize
        ensures { result ≡ length (sessions self.now) };

    /// The session of this index, counted from 0, where there is one.
    fn session(&self, index: usize) -> Option<SessionParts<'_>>
        ensures { result ≡ slice_get (sessions self.now) index };
}

impl HasSessions for &[AuthRef<'_>] {
    ghost use Rattle.std.specs.Prelude.{map};
    ghost use Rattle.tpm_show.specs.Sessions.{of_command};

    ghost sessions = { λ auths. map of_command auths.now };

    fn session_count(&self) -> usize {
        self.len()
    }

    fn session(&self, index: usize) -> Option<SessionParts<'_>> {
        let Some(auth) = self.get(index) else {
            return None;
        };
        Some(SessionParts::of_command(auth))
    }
}

impl HasSessions for ReplyAreas<'_> {
    ghost use Rattle.std.specs.Prelude.{map};
    ghost use Rattle.tpm_show.specs.Sessions.{of_reply};

    ghost sessions = { λ areas. map of_reply areas.auths };

    fn session_count(&self) -> usize {
        self.auth_count()
    }

    fn session(&self, index: usize) -> Option<SessionParts<'_>> {
        let Some(auth) = self.auth(index) else {
            return None;
        };
        let attributes = auth.attrs().number();
        Some(SessionParts {
            handle: None,
            nonce: auth.nonce(),
            attributes,
            hmac: auth.hmac(),
        })
    }
}

// ---- a session

#[tactic(auto, using(crate::proofs::Pieces::pieces))]
fn tell_handle<T: Teller>(teller: &mut T, handle: Option<u32>) -> Pushed
    ensures { OnOk result
        (T.told teller.new ≡ T.told teller.old ++ flat_map T.marks (handle_told handle)) }
{
    let Some(handle) = handle else {
        return Ok(());
    };
    let bytes = handle.to_be_bytes();
    teller.tell(&says!(Behind "session" Bytes &bytes))?;
    tell_word(teller, How::Asked, "session_name", handle_name(handle))
}

// Tells the names of the bits of the table that are set.
#[tactic(auto, using(crate::proofs::Pieces::pieces))]
fn tell_set_names<T: Teller>(teller: &mut T, table: &'static [Row], attributes: u8) -> Pushed
    requires { AllByRecursion (λ bit. bit.0 < 32) table.now }
    ensures { OnOk result (T.told teller.new ≡ T.told teller.old ++ flat_map T.marks
        (names_from Asked (bits_set (map row_as table.now) attributes))) }
{
    let mut how = How::Asked;
    for bit in table {
        let (number, name) = *bit;
        if is_set(u32::from(attributes), number) {
            teller.tell(&Piece::Says(how, None, Value::Word(name)))?;
            how = How::FurtherAsked;
        }
    }
    Ok(())
}

#[tactic(auto, unfolding(crate::specs::Sessions::attributes_set))]
fn tell_attribute_names<T: Teller>(teller: &mut T, attributes: u8) -> Pushed
    ensures { OnOk result (T.told teller.new
        ≡ T.told teller.old ++ flat_map T.marks (names_from Asked (attributes_set attributes))) }
{
    tell_set_names(teller, &ATTRIBUTES, attributes)
}

static ATTRIBUTE_NAMES: Piece<'static> = Piece::Opens(Some("attribute_names"), Shape::List);

// Tells attributes, and the names of those that are set.
fn tell_attributes<T: Teller>(teller: &mut T, attributes: u8) -> Pushed
    ensures { OnOk result
        (T.told teller.new ≡ T.told teller.old ++ flat_map T.marks (attributes_told attributes)) }
{
    let bytes = [attributes];
    teller.tell(&says!(Under "attributes" Bytes &bytes))?;
    teller.tell(&ATTRIBUTE_NAMES)?;
    tell_attribute_names(teller, attributes)?;
    teller.tell(&LIST_END)
}

#[tactic(auto, unfolding(crate::specs::Sessions::session_begins))]
fn begin_session<T: Teller>(teller: &mut T, number: usize) -> Pushed
    ensures { OnOk result
        (T.told teller.new ≡ T.told teller.old ++ flat_map T.marks (session_begins number)) }
{
    tell_pieces!(teller; Piece::Opens(None, Shape::Object), in_line!(Alone Word "session"),
        in_line!(Behind Number number as u64))
}

#[tactic(auto, unfolding(crate::specs::Sessions::session_ends))]
fn end_session<T: Teller>(teller: &mut T, hmac: &[u8]) -> Pushed
    ensures { OnOk result
        (T.told teller.new ≡ T.told teller.old ++ flat_map T.marks (session_ends hmac.now)) }
{
    tell_pieces!(teller; says!(Under "hmac" Bytes hmac), LINE_END, Piece::Closes(Shape::Object))
}

// Tells a session by its number.
#[tactic(auto, using(crate::proofs::Pieces::pieces), unfolding(crate::specs::Sessions::session_told))]
fn tell_session<T: Teller>(teller: &mut T, number: usize, session: &SessionParts<'_>) -> Pushed
    ensures { OnOk result (T.told teller.new
        ≡ T.told teller.old ++ flat_map T.marks (session_told number session.now)) }
{
    begin_session(teller, number)?;
    tell_handle(teller, session.handle)?;
    teller.tell(&says!(Under "nonce" Bytes session.nonce))?;
    tell_attributes(teller, session.attributes)?;
    end_session(teller, session.hmac)
}

// ---- all of them

// Tells each session, by its number from 1.
fn tell_each<A: HasSessions, T: Teller>(teller: &mut T, areas: &A) -> Pushed
    ensures { OnOk result (T.told teller.new ≡ T.told teller.old
        ++ flat_map T.marks (sessions_from 1 (A.sessions areas.now))) }
{
    for before in 0..areas.session_count() {
        if let Some(session) = areas.session(before) {
            tell_session(teller, before + 1, &session)?;
        }
    }
    Ok(())
}

static SESSIONS: Piece<'static> = Piece::Opens(Some("sessions"), Shape::List);

/// Tells the sessions.
#[tactic(auto, using(crate::proofs::Pieces::pieces))]
pub(crate) fn tell_sessions<A: HasSessions, T: Teller>(teller: &mut T, areas: &A) -> Pushed
    ensures { OnOk result (T.told teller.new ≡ T.told teller.old
        ++ flat_map T.marks (sessions_told (A.sessions areas.now))) }
{
    teller.tell(&SESSIONS)?;
    tell_each(teller, areas)?;
    teller.tell(&LIST_END)
}
