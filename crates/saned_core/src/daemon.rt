ghost use Rattle.std.specs.Prelude.{◌≡◌, ◌==◌, ◌++◌, ◌⊎◌, ◌≤◌, ◌+◌, List, Option, Some, None, [], ◌∷◌, option_map, option_and_then, position, length, take, drop, not, true, false, OnOk, OnErr, IfOk, IfErr, IsTrue};
ghost use Rattle.device_api.specs.State.{DeviceState};
ghost use Rattle.md5_auth.specs.Challenges.{HasGiven};
ghost use Rattle.page_picture.specs.Source.{SourceState};
ghost use Rattle.dispatch.specs.Table.{without_return, table, seen_unplug, unplug_answer, after_unplug};
ghost use Rattle.saned_requests.specs.Holding.{seen_session};
ghost use Rattle.saned_core.specs.DaemonStates.{after_open_session, is_closed, replies_of, after_taken, after_end_session, core, is_slot_number, session_slot_of, session_of, on_session_slot, on_session, kept_if_open, frame_in, is_waiting, after_connected, after_lost, seen_session_slot, session_in};
ghost use Rattle.saned_core.specs.Feeding.{HasNoSession, AnswersWhole, EndsWithin, FailsOutOfMemory, KeepsOtherSessions};
ghost use Rattle.saned_core.specs.Loading.{daemon_load_answer, core_after_load};
ghost use Rattle.saned_core.specs.Turns.{Turns};

use crate::daemon_loading::{holder, load_at};
use crate::session_giving_back::drop_slots;
use crate::session_slot::{DataStep, Fed, FrameState, OpenFault, SessionId, SessionSlot};
use crate::session_slots::{
    connect_at, end_at, feed_at, frame_at, lose_at, put_in_first_slot, replies_wait, take_at,
    turn_at,
};
use device_api::Device;
use dispatch::Registry;
use md5_auth::{Challenger, Users};
use page_picture::PageSource;
use page_sources::Source;
use sane_fixed::Status;
use saned_requests::StringSize;
use std::alloc::Global;
use std::marker::Model;

/// The devices, and the sessions that hold leases of them.
pub struct SessionTable<D> {
    registry: Registry<D>,
    slots: [Option<SessionSlot<D>>; 8],
}

/// The table is retired, and all leases of it go with it.
impl<D: Drop> Drop for SessionTable<D> {
    fn drop(self) {
        let SessionTable { registry, slots } = self;
        drop_slots(&registry.retire(), slots);
    }
}

/// Sessions over one table of devices. Contracts see it as a `DaemonState`, and its devices by `core`.
#[derive(Drop)]
pub struct Daemon<D = Box<dyn Device>> {
    sessions: SessionTable<D>,
    users: Users,
    strings: StringSize,
    challenger: Challenger,
    opened: u64,
}

impl<D> Model for Daemon<D> {
    ghost use Rattle.saned_core.specs.DaemonStates.{DaemonState};

    ghost Value = { DaemonState D };

    ghost view = { λ d. record { slots = d.sessions.slots; registry = d.sessions.registry; users = d.users; strings = d.strings; stream = d.challenger; opened = d.opened } };
}

impl<D: Device> Daemon<D> {
    /// A daemon of these devices and users, whose challenges come from the seed. No session stands. It sends a string
    /// value as its text and a NUL.
    pub fn new(registry: Registry<D>, users: Users, seed: [u8; 32]) -> Daemon<D>
        /// String values are sent as their text and a NUL, or as the daemon was made to send them, in each of its
        /// sessions and in every state.
        /// Carried by: `Daemon::new`, `Daemon::with_strings`; `one_string_size_is_kept`
        ensures registry { (core D.state result).registry ≡ table D.state registry }
        ensures users { result.users ≡ users }
        ensures strings { result.strings ≡ StringSize.OfText }
        ensures seed { HasGiven seed 0 result.stream }
        ensures none { result.slots ≡ None ∷ None ∷ None ∷ None ∷ None ∷ None ∷ None ∷ None ∷ [] }
        ensures opened { result.opened ≡ 0 }
    {
        Daemon::with_strings(registry, users, StringSize::OfText, seed)
    }

    /// The same, which sends its string values so.
    pub fn with_strings(
        registry: Registry<D>,
        users: Users,
        strings: StringSize,
        seed: [u8; 32],
    ) -> Daemon<D>
        ensures registry { (core D.state result).registry ≡ table D.state registry }
        ensures users { result.users ≡ users }
        ensures strings { result.strings ≡ strings }
        ensures seed { HasGiven seed 0 result.stream }
        ensures none { result.slots ≡ None ∷ None ∷ None ∷ None ∷ None ∷ None ∷ None ∷ None ∷ [] }
        ensures opened { result.opened ≡ 0 }
    {
        Daemon {
            sessions: SessionTable {
                registry,
                slots: [None, None, None, None, None, None, None, None],
            },
            users,
            strings,
            challenger: Challenger::new(seed),
            opened: 0,
        }
    }
}

impl<D: Device> Daemon<D> {
    /// Where the session's frame is.
    pub fn frame(&self, id: SessionId) -> FrameState
        /// A frame waits for its data connection, which changes nothing else; one that is lost cancels what streams.
        /// Carried by: `Daemon::frame`, `data_connected`, `data_lost`
        ensures { result ≡ frame_in (session_of (core D.state self.now) id.number) }
    {
        frame_at(&self.sessions.slots, id.number)
    }

    /// A data connection is made, where a frame waits for one; answers whether one does.
    pub fn data_connected(&mut self, id: SessionId) -> bool
        ensures answer { result
            ≡ is_waiting (frame_in (session_of (core D.state self.old) id.number)) }
        ensures after { core D.state self.new
            ≡ record (core D.state self.old) {
              slots = on_session_slot (on_session after_connected)
                  id.number (core D.state self.old).slots;
            } }
    {
        connect_at(&mut self.sessions.slots, id.number)
    }

    /// The data connection is lost: a frame that streams or is to be ended is at its end, and a device that
    /// still streams it is cancelled.
    pub fn data_lost(&mut self, id: SessionId)
        ensures { core D.state self.new ≡ record (core D.state self.old) {
          slots = on_session_slot
              (on_session after_lost) id.number (core D.state self.old).slots;
        } }
    {
        lose_at(&mut self.sessions.slots, id.number)
    }

    /// One turn of the data connection. One read of the device, of at most 65,536 bytes and what the buffer has room for, is one
    /// record. A refused read is the end record.
    pub fn data_turn(&mut self, id: SessionId, buf: &mut [u8]) -> DataStep
        requires { 8 ≤ length buf.old }
        /// A turn of the data connection is one read of the device, or the end record. It reads straight into the caller's buffer
        /// behind the record's head, all of it but at most 65,536 bytes.
        /// Carried by: `Daemon::data_turn`: `Turns`
        ensures { Turns id.number (core D.state self.old) result (core D.state self.new) buf.new }
    {
        turn_at(&mut self.sessions.slots, id.number, buf)
    }

    /// Opens a session, whose data connections are accepted at that port. `Full` where eight stand, or 2^64-1 were
    /// opened. Its place is there from the start, so memory cannot run out.
    pub fn open_session(&mut self, alloc: Global, port: u16) -> Result<SessionId, OpenFault>
        ensures ok { IfOk result (λ id. (id.number ≡ self.old.opened)
            × (core D.state self.new ≡ after_open_session (core D.state self.old) port)) }
        ensures room { OnOk result (is_closed (core D.state self.old) ≡ false) }
        ensures full { OnErr result ((is_closed (core D.state self.old) ≡ true)
            × (core D.state self.new ≡ core D.state self.old)) }
        ensures err { IfErr result (λ e. e ≡ OpenFault.Full) }
    {
        if self.opened == u64::MAX {
            return Err(OpenFault::Full);
        }
        let number = self.opened;
        if !put_in_first_slot(
            &mut self.sessions.registry,
            &mut self.sessions.slots,
            alloc,
            self.strings,
            number,
            port,
        ) {
            return Err(OpenFault::Full);
        }
        self.opened = number + 1;
        Ok(SessionId { number })
    }

    /// Takes the next piece of what the session's connection brings, at most 4,096 bytes, and answers each request
    /// that is whole with it. `Starved` where out of memory ended the session in this call; else `Over` where it is
    /// over. Its replies can still be taken, but not where it ran out of memory.
    pub fn feed(&mut self, alloc: Global, id: SessionId, piece: &[u8]) -> Fed
        requires { length piece.now ≤ 4096 }
        /// A session that is over does nothing, and one that is ended gives its leases back.
        /// Carried by: `idle` of `Daemon::feed`; `end_session`
        ensures idle { HasNoSession (core D.state self.old) id.number
            → (result ≡ Fed.Over) × (core D.state self.new ≡ core D.state self.old) }
        /// `feed` answers the requests that a piece completes, in order, each as the request context does on what
        /// stands then, and puts the replies, spelled, behind those that wait.
        /// Carried by: `standing` of `Daemon::feed`: `AnswersWhole`; `requests_are_answered_in_order`,
        /// `a_request_uses_bytes`
        ensures standing { result ≡ Fed.Standing
            → AnswersWhole id.number (core D.state self.old) piece.now (core D.state self.new) }
        /// A rest that spells nothing, a reply past the wire's limits, a request that ends the session, and out of
        /// memory end it, with all its leases given back.
        /// Carried by: `over`, `out_of_memory` of `Daemon::feed`: `EndsWithin`, `FailsOutOfMemory`
        ensures over { result ≡ Fed.Over → HasNoSession (core D.state self.old) id.number
            ⊎ EndsWithin id.number (core D.state self.old) piece.now (core D.state self.new) }
        ensures out_of_memory { result ≡ Fed.Starved
            → FailsOutOfMemory id.number (core D.state self.old) piece.now (core D.state self.new) }
        /// No other session changes, and no device that it does not hold, but by the table.
        /// Carried by: `others` of `Daemon::feed`: `KeepsOtherSessions`; `sessions_are_independent`
        ensures others { KeepsOtherSessions
            id.number (core D.state self.old) (core D.state self.new) }
    {
        feed_at(
            alloc,
            &mut self.sessions.registry,
            &mut self.sessions.slots,
            &self.users,
            &mut self.challenger,
            id.number,
            piece,
        )
    }

    /// Whether bytes of replies wait to be taken.
    pub fn has_replies(&self, id: SessionId) -> bool
        ensures { result ≡ not (length (replies_of (core D.state self.now) id.number) == 0) }
    {
        replies_wait(&self.sessions.slots, id.number)
    }

    /// Takes as many bytes of the replies as the buffer has room for, and says how many.
    pub fn take_reply(&mut self, id: SessionId, buf: &mut [u8]) -> usize
        /// Replies are taken in order, as many as the buffer holds.
        ensures within { result ≤ length buf.old }
        ensures all { result ≤ length (replies_of (core D.state self.old) id.number) }
        ensures most { (result ≡ length buf.old)
            ⊎ (result ≡ length (replies_of (core D.state self.old) id.number)) }
        ensures bytes { buf.new
            ≡ take result (replies_of (core D.state self.old) id.number) ++ drop result buf.old }
        ensures after { core D.state self.new ≡ record (core D.state self.old) {
          slots
              = on_session_slot (after_taken result) id.number (core D.state self.old).slots;
        } }
    {
        take_at(
            &mut self.sessions.registry,
            &mut self.sessions.slots,
            id.number,
            buf,
        )
    }

    /// Ends the session: its leases go back, and its replies are dropped.
    pub fn end_session(&mut self, id: SessionId)
        ensures { core D.state self.new ≡ after_end_session (core D.state self.old) id.number }
    {
        end_at(
            &mut self.sessions.registry,
            &mut self.sessions.slots,
            id.number,
        )
    }

    /// Puts another page into the device of that name, also while it is leased; a feeder's tray gets it behind its others.
    /// `Inval` where none is listed under it, `DeviceBusy` where it is not at rest or has a full tray; then the page comes
    /// back.
    pub fn load(&mut self, name: &[u8], page: Source) -> Result<(), (Status, Source)>
        /// A page is loaded where the device is, in the table or in a session's hands.
        ensures answer { without_return result
            ≡ daemon_load_answer (core D.state self.old) name.now }
        ensures after { core D.state self.new ≡ core_after_load (core D.state self.old) name.now
            (⟦<Source as PageSource>⟧.source page) }
        ensures given_back { IfErr result (λ e. e.1 ≡ page) }
    {
        match holder(&self.sessions.slots, name) {
            Some(k) => load_at(&mut self.sessions.slots, k, name, page),
            None => self.sessions.registry.load(name, page),
        }
    }

    /// The device of that name comes out, and is listed no more. `Inval` where none is listed under the name,
    /// `DeviceBusy` while it is leased.
    pub fn unplug(&mut self, name: &[u8]) -> Result<D, Status>
        ensures answer { seen_unplug D.state result
            ≡ unplug_answer (core D.state self.old).registry name.now }
        ensures after { core D.state self.new ≡ record (core D.state
            self.old) { registry = after_unplug (core D.state self.old).registry name.now } }
    {
        self.sessions.registry.unplug(name)
    }
}
