//! Messages out of bytes that come in pieces.

ghost use Rattle.std.specs.Prelude.{◌≡◌, ◌≢◌, ◌==◌, ◌++◌, ◌∷◌, ◌≤◌, List, [], ℕ, IfOk, IfErr, IfSome, OnErr, OnOk, IsTrue, drop, length};
ghost use Rattle.wire_format.specs.Format.{Gives, IsBytes};
ghost use Rattle.wire_format.specs.Lawful.{SpellsFront};
ghost use Rattle.wire_format.specs.Limit.{limited_format, NeedsMore, IsNoStart};
ghost use Rattle.wire_format.specs.declared.fault.MissingBytes.{MissingBytes as AnyWanted};
ghost use Rattle.wire_format.specs.declared.fault.ReadStop.TheVariants.{More};
ghost use Rattle.wire_codec.specs.PendingMessages.{IsPending, StopsForMore};
ghost use Rattle.wire_codec.specs.Arrays.{ArraysAreReadSoFar};
ghost use Rattle.wire_message.specs.Message.{message_limit, request as request_format, reply as reply_format};

use crate::begun::{ArraysSoFar, none_begun};
use crate::message_reading::{reply, request};
use std::alloc::Global;
use std::marker::Model;
use wire_format::{MissingBytes, ReadError, ReadStop, all_from, front, past_limit, used_bytes};
use wire_message::{MESSAGE_LIMIT, Procedure, Reply, Request, WireFault};

/// The first request of the bytes, and how many of them spell it.
fn first_request(alloc: Global, bytes: &[u8]) -> Result<(Request, usize), ReadError>
    ensures read { Gives (λ x. (x.0, drop x.1 bytes.now)) result
        ((limited_format message_limit request_format).read bytes.now) }
    ensures used { IfOk result (λ x. x.1 ≤ length bytes.now) }
    ensures bytes { IsBytes bytes.now }
{
    let window = front(bytes, MESSAGE_LIMIT);
    match request(alloc, window) {
        Ok((request, rest)) => Ok((request, used_bytes(window, rest))),
        Err(e) => Err(past_limit(e, bytes.len() > MESSAGE_LIMIT)),
    }
}

/// The first reply to a procedure of the bytes, and how many of them spell it.
fn first_reply(
    alloc: Global,
    procedure: Procedure,
    begun: &mut ArraysSoFar,
    bytes: &[u8],
) -> Result<(Reply, usize), ReadError>
    requires { ArraysAreReadSoFar bytes.now begun.old }
    ensures kept { ArraysAreReadSoFar bytes.now begun.new }
    ensures read { Gives (λ x. (x.0, drop x.1 bytes.now)) result
        ((limited_format message_limit (reply_format procedure)).read bytes.now) }
    ensures used { IfOk result (λ x. x.1 ≤ length bytes.now) }
    ensures bytes { IsBytes bytes.now }
{
    let window = front(bytes, MESSAGE_LIMIT);
    match reply(alloc, procedure, begun, window) {
        Ok((reply, rest)) => Ok((reply, used_bytes(window, rest))),
        Err(e) => Err(past_limit(e, bytes.len() > MESSAGE_LIMIT)),
    }
}

/// Moves what stands behind the first bytes to the front.
fn drop_front(bytes: &mut Vec<u8>, count: usize)
    requires { count ≤ length bytes.old.items }
    ensures { bytes.new.items ≡ drop count bytes.old.items }
{
    if count > 0 {
        let left = bytes.len() - count;
        bytes.copy_within(count.., 0);
        bytes.truncate(left);
    }
}

/// What was wanted when the rest was last read.
#[derive(Clone, Copy)]
struct Pending {
    /// The procedure of the reply that was asked for, or none for a request.
    procedure: Option<Procedure>,
    wanted: MissingBytes,
    /// How many bytes the rest had.
    seen: usize,
}

/// Bytes as they came, and the messages not yet taken from them. Contracts see the bytes that no message
/// was taken from, and the fault.
///
/// A call reads the rest from its start, unless it read it before for the same message, fewer bytes came since than it wanted
/// then, and none of them is a fault. Then it looks at the new bytes alone. Only the replies to `GetDevices` and
/// `GetOptionDescriptors` can be long: it keeps their devices or descriptors that came whole, and the next call reads on behind
/// them. So when a message comes byte by byte, it reads a request, another reply, or the one device or descriptor that has not
/// come whole again for each byte of a word and of a NUL, and once for all the bytes of a string. It passes over a list of
/// strings before it takes memory for it.
#[derive(Drop)]
pub struct Decoder {
    bytes: Vec<u8>,
    start: usize,
    fault: Option<WireFault>,
    pending: Option<Pending>,
    begun: ArraysSoFar,
}

impl Model for Decoder {
    ghost use Rattle.std.specs.Prelude.{◌≤◌, length, drop, IfSome};
    ghost use Rattle.wire_codec.specs.Decoders.{DecoderState};
    ghost use Rattle.wire_codec.specs.PendingMessages.{IsPending};
    ghost use Rattle.wire_codec.specs.Arrays.{ArraysAreReadSoFar};

    ghost Value = { DecoderState };

    ghost view = { λ d. record { rest = drop d.start d.bytes.items; fault = d.fault } };

    ghost invariant = { λ d. (d.start ≤ length d.bytes.items) × IfSome d.pending (IsPending (drop d.start d.bytes.items)) × ArraysAreReadSoFar (drop d.start d.bytes.items) d.begun };
}

/// Whether both are the same message.
fn is_same(one: Option<Procedure>, other: Option<Procedure>) -> bool
    ensures { IsTrue result → one ≡ other }
{
    match (one, other) {
        (None, None) => true,
        (Some(one), Some(other)) => one == other,
        _ => false,
    }
}

/// What is still wanted of the rest, where nothing else is to be told yet.
fn waits_on(pending: Pending, rest: &[u8]) -> Option<Pending>
    requires { IsPending rest.now pending }
    ensures waits { IfSome result (λ p. IsPending rest.now p
        × (p.procedure ≡ pending.procedure) × (p.seen ≡ length rest.now)) }
    ensures stops { IfSome result (λ p. StopsForMore pending.procedure rest.now p.wanted) }
    ensures bytes { IsBytes rest.now }
{
    let more = &rest[pending.seen..];
    if rest.len() > MESSAGE_LIMIT
        || more.len() >= pending.wanted.count
        || !all_from(more, pending.wanted.least)
    {
        return None;
    }
    let wanted = MissingBytes {
        count: pending.wanted.count - more.len(),
        least: pending.wanted.least,
    };
    Some(Pending {
        procedure: pending.procedure,
        wanted,
        seen: rest.len(),
    })
}

impl Decoder {
    ghost use Rattle.wire_codec.specs.Decoders.{DecodesTo, Stops, IsFaultOf, with_decoder_fault, TakenMessage, TakenRequest, TakenReply, HasDecoded};

    /// A decoder that was fed nothing.
    pub fn new(alloc: Global) -> Decoder
        ensures empty { result ≡ record { rest = []; fault = None } }
        ensures history { HasDecoded [] [] result }
    {
        Decoder {
            bytes: Vec::new(alloc),
            start: 0,
            fault: None,
            pending: None,
            begun: none_begun(),
        }
    }

    /// Whether all that was fed was taken.
    pub fn is_empty(&self) -> bool
        ensures { result ≡ (length self.now.rest == 0) }
    {
        self.bytes[self.start..].is_empty()
    }

    /// Takes the next piece of the stream. A fault that was answered is answered again.
    pub fn feed(&mut self, piece: &[u8]) -> Result<(), WireFault>
        // A piece is laid behind the rest. A fault that was answered is answered again, and a first one is for want of memory.
        ensures ok { OnOk result (self.new
            ≡ record { rest = self.old.rest ++ piece.now; fault = None }) }
        ensures kept { IfSome self.old.fault (λ f. (result ≡ Err f) × (self.new ≡ self.old)) }
        ensures err { IfErr result (λ f. self.new.fault ≡ Some f) }
        ensures first { self.old.fault ≡ None → IfErr result (λ f. f ≡ WireFault.NoMem) }
        /// The bytes fed to a decoder are the spellings of the messages taken from it, then a rest, over any cut into
        /// pieces, requests and replies alike.
        /// Carried by: `history` of `Decoder::feed`, `next_request`, `next_reply`
        ensures history { (fed : List ℕ) (taken : List TakenMessage) → HasDecoded fed taken self.old
            → OnOk result (HasDecoded (fed ++ piece.now) taken self.new) }
        // A piece that is refused was not fed.
        ensures refused { (fed : List ℕ) (taken : List TakenMessage)
            → HasDecoded fed taken self.old → OnErr result (HasDecoded fed taken self.new) }
    {
        if let Some(fault) = self.fault {
            return Err(fault);
        }
        drop_front(&mut self.bytes, self.start);
        self.start = 0;
        match self.bytes.extend_from_slice(piece) {
            Ok(()) => Ok(()),
            Err(_) => {
                self.fault = Some(WireFault::NoMem);
                Err(WireFault::NoMem)
            }
        }
    }

    /// Whether the rest was read before for the same message, and nothing else is to be told yet.
    fn still_waits(&mut self, procedure: Option<Procedure>) -> bool
        ensures same { self.new ≡ self.old }
        ensures waits { IsTrue result
            → (wanted : AnyWanted) × StopsForMore procedure self.old.rest wanted }
        ensures bytes { IsTrue result → IsBytes self.old.rest }
    {
        let Some(pending) = self.pending else {
            return false;
        };
        if !is_same(pending.procedure, procedure) {
            return false;
        }
        match waits_on(pending, &self.bytes[self.start..]) {
            Some(pending) => {
                self.pending = Some(pending);
                true
            }
            None => false,
        }
    }

    /// What an error of reading makes of the decoder.
    fn stop<T>(
        &mut self,
        procedure: Option<Procedure>,
        error: ReadError,
    ) -> Result<Option<T>, WireFault>
        requires free { self.old.fault ≡ None }
        requires waits { (wanted : AnyWanted)
            → error ≡ ReadError.Stop (More wanted) → StopsForMore procedure self.old.rest wanted }
        ensures { Stops result self.old self.new error }
    {
        match error {
            ReadError::Stop(ReadStop::More(wanted)) => {
                let seen = self.bytes.len() - self.start;
                self.pending = Some(Pending {
                    procedure,
                    wanted,
                    seen,
                });
                Ok(None)
            }
            ReadError::Stop(ReadStop::Bad(fault)) => {
                let fault = WireFault::from(fault);
                self.fault = Some(fault);
                Err(fault)
            }
            ReadError::Memory => {
                self.fault = Some(WireFault::NoMem);
                Err(WireFault::NoMem)
            }
        }
    }

    /// What reading a request gives.
    fn read_request(&mut self, alloc: Global) -> Result<Option<Request>, WireFault>
        ensures kept { IfSome self.old.fault (λ f. (result ≡ Err f) × (self.new ≡ self.old)) }
        ensures bytes { self.old.fault ≡ None → IsBytes self.old.rest }
        ensures exact { self.old.fault ≡ None → DecodesTo result self.old self.new
            ((limited_format message_limit request_format).read self.old.rest) }
    {
        if let Some(fault) = self.fault {
            return Err(fault);
        }
        if self.still_waits(None) {
            return Ok(None);
        }
        match first_request(alloc, &self.bytes[self.start..]) {
            Ok((request, used_bytes)) => {
                self.pending = None;
                self.begun = none_begun();
                self.start += used_bytes;
                Ok(Some(request))
            }
            Err(error) => self.stop(None, error),
        }
    }

    /// What reading a reply gives.
    fn read_reply(
        &mut self,
        alloc: Global,
        procedure: Procedure,
    ) -> Result<Option<Reply>, WireFault>
        ensures kept { IfSome self.old.fault (λ f. (result ≡ Err f) × (self.new ≡ self.old)) }
        ensures bytes { self.old.fault ≡ None → IsBytes self.old.rest }
        ensures exact { self.old.fault ≡ None → DecodesTo result self.old self.new
            ((limited_format message_limit (reply_format procedure)).read self.old.rest) }
    {
        if let Some(fault) = self.fault {
            return Err(fault);
        }
        if self.still_waits(Some(procedure)) {
            return Ok(None);
        }
        match first_reply(alloc, procedure, &mut self.begun, &self.bytes[self.start..]) {
            Ok((reply, used_bytes)) => {
                self.pending = None;
                self.begun = none_begun();
                self.start += used_bytes;
                Ok(Some(reply))
            }
            Err(error) => self.stop(Some(procedure), error),
        }
    }

    /// The next request; `None` where more bytes are wanted. The first fault is answered from then on.
    pub fn next_request(&mut self, alloc: Global) -> Result<Option<Request>, WireFault>
        // The bytes are a spelling of what is taken, and then the rest.
        ensures taken { IfOk result (λ m. IfSome m (λ r. (self.new.fault ≡ None) × SpellsFront
            (limited_format message_limit request_format) self.old.rest self.new.rest r)) }
        // More bytes are wanted where a spelling has begun, within the limit.
        /// There is no message only where the rest is at most 1,048,576 bytes and a proper prefix of a spelling.
        /// Carried by: `none` of `next_request`, `next_reply`
        ensures none { result ≡ Ok None
            → (self.new ≡ self.old) × NeedsMore message_limit request_format self.old.rest }
        // A first fault comes where no spelling stands and none has begun, or memory ran out.
        /// The first fault is that of the first word or byte at which no spelling stands, and is answered from then
        /// on.
        /// Carried by: `first`, `which` of `next_request`, `next_reply`
        ensures first { self.old.fault ≡ None → IfErr result (λ f. f ≢ WireFault.NoMem
            → IsNoStart message_limit request_format self.old.rest) }
        // It is that of the first word or byte at which no spelling stands.
        ensures which { self.old.fault ≡ None → IfErr result (λ f. f ≢ WireFault.NoMem
            → IsFaultOf message_limit request_format self.old.rest f) }
        // A fault that is answered stands, and is answered again.
        ensures err { IfErr result (λ f. self.new ≡ with_decoder_fault self.old f) }
        ensures kept { IfSome self.old.fault (λ f. result ≡ Err f) }
        // What was fed are the spellings of what was taken, and then the rest.
        ensures history { (fed : List ℕ) (taken : List TakenMessage)
            → HasDecoded fed taken self.old → IfOk result
            (λ m. IfSome m (λ r. HasDecoded fed (taken ++ TakenRequest r ∷ []) self.new)) }
    {
        self.read_request(alloc)
    }

    /// The next reply, to a procedure; `None` where more bytes are wanted. The first fault is answered from
    /// then on. There is no reply to `Exit`: `BadCode`.
    pub fn next_reply(
        &mut self,
        alloc: Global,
        procedure: Procedure,
    ) -> Result<Option<Reply>, WireFault>
        // The bytes are a spelling of what is taken, and then the rest.
        ensures taken { IfOk result
            (λ m. IfSome m (λ r. (self.new.fault ≡ None) × SpellsFront (limited_format message_limit
            (reply_format procedure)) self.old.rest self.new.rest r)) }
        // More bytes are wanted where a spelling has begun, within the limit.
        ensures none { result ≡ Ok None → (self.new ≡ self.old)
            × NeedsMore message_limit (reply_format procedure) self.old.rest }
        // A first fault comes where no spelling stands and none has begun, or memory ran out.
        ensures first { self.old.fault ≡ None → IfErr result (λ f. f ≢ WireFault.NoMem
            → IsNoStart message_limit (reply_format procedure) self.old.rest) }
        // It is that of the first word or byte at which no spelling stands.
        ensures which { self.old.fault ≡ None → IfErr result (λ f. f ≢ WireFault.NoMem
            → IsFaultOf message_limit (reply_format procedure) self.old.rest f) }
        ensures err { IfErr result (λ f. self.new ≡ with_decoder_fault self.old f) }
        ensures kept { IfSome self.old.fault (λ f. result ≡ Err f) }
        // What was fed are the spellings of what was taken, and then the rest.
        ensures history { (fed : List ℕ) (taken : List TakenMessage)
            → HasDecoded fed taken self.old → IfOk result
            (λ m. IfSome m (λ r. HasDecoded fed (taken ++ TakenReply procedure r ∷ []) self.new)) }
    {
        self.read_reply(alloc, procedure)
    }
}
