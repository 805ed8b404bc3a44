//! Strangers at a daemon, act by act.

ghost use Rattle.std.specs.Prelude.{◌≡◌, IfSome, Some, None, false, true, [], ◌∷◌};
ghost use Rattle.device_api.specs.ScannerLimits.{HasLimits};
ghost use Rattle.saned_core.specs.declared.session_slot.Fed.TheVariants.{Over, Standing};
ghost use Rattle.saned_core.specs.declared.session_slot.FrameState.TheVariants as frames;
ghost use Rattle.saned_core.specs.DaemonStates.{core, frame_in, session_of};
ghost use Rattle.saned_serve.specs.SessionActions.{ActsOn};
ghost use Rattle.saned_serve.specs.SessionActions.SessionAction.{Feed, Leaves, Opens};
ghost use Rattle.virtual_scanner.specs.Scanners.{scanner_state};
ghost use Rattle.wire_message.specs.declared.message.Request.TheVariants as requests;
ghost use Rattle.wire_writing.specs.RequestWriting.{write_request};
ghost use Rattle.world_refines.specs.NewWorlds.{IsNewDaemon};
ghost use Rattle.worked_worlds.specs.Worked.{flatbed_with};
ghost use Rattle.worked_strangers.specs.Inside.{HasGarbled, HasGone, CameGreeting, HasOpened, HasLeased, IsLeft};

use device_api::Device;
use dispatch::Registry;
use md5_auth::Users;
use page_picture::{DeviceKind, Page};
use page_sources::{MemoryPage, Source};
use sane_fixed::{ByteOrder, Status, Text};
use saned_core::{Daemon, Fed, FrameState, SessionId};
use std::alloc::Global;
use virtual_scanner::{Scanner, VirtualScanner};
use wire_message::Request;
use wire_writing::encode_request;

/// A word that no request begins with.
const GARBAGE: [u8; 4] = [0, 0, 0, 99];

/// The version that clients say: 1.0.3.
const VERSION: u32 = 0x0100_0003;

/// What a session with no user's name is greeted with.
pub(crate) fn greeting(alloc: Global) -> Option<Vec<u8>>
    ensures { IfSome result
        (λ v. write_request.text (requests.Init 16777219 []) ≡ Some v.items) }
{
    let user = Text::new(alloc, b"").ok()?;
    encode_request(
        alloc,
        &Request::Init {
            version: VERSION,
            user,
        },
    )
    .ok()
}

/// What a device of that name is opened with.
fn opening(alloc: Global, name: &Text) -> Option<Vec<u8>>
    ensures { IfSome result (λ v. write_request.text (requests.Open name.now) ≡ Some v.items) }
{
    let name = name.try_clone(alloc).ok()?;
    encode_request(alloc, &Request::Open { name }).ok()
}

/// A stranger comes.
fn come<D: Device>(alloc: Global, daemon: &mut Daemon<D>) -> Option<SessionId>
    ensures { IfSome result
        (λ id. ActsOn id.number (core D.state daemon.old) (Opens 1) (core D.state daemon.new)) }
{
    daemon.open_session(alloc, 1).ok()
}

/// Whether a session has no frame.
fn is_quiet<D: Device>(daemon: &Daemon<D>, id: SessionId) -> bool
    ensures { result ≡ true
        → frame_in (session_of (core D.state daemon.now) id.number) ≡ frames.Quiet }
{
    match daemon.frame(id) {
        FrameState::Quiet => true,
        FrameState::Waiting | FrameState::Streaming | FrameState::Ending => false,
    }
}

/// He is fed a piece, with which no frame begins. Whether his session goes on.
fn say<D: Device>(alloc: Global, daemon: &mut Daemon<D>, id: SessionId, piece: &[u8]) -> bool
    ensures { result ≡ true → ActsOn id.number
        (core D.state daemon.old) (Feed piece.now Standing false) (core D.state daemon.new) }
{
    if piece.len() > 4096 {
        return false;
    }
    match daemon.feed(alloc, id, piece) {
        Fed::Standing => is_quiet(daemon, id),
        Fed::Over | Fed::Starved => false,
    }
}

/// The same of a piece that ends his session.
fn say_last<D: Device>(alloc: Global, daemon: &mut Daemon<D>, id: SessionId, piece: &[u8]) -> bool
    ensures { result ≡ true → ActsOn id.number
        (core D.state daemon.old) (Feed piece.now Over false) (core D.state daemon.new) }
{
    if piece.len() > 4096 {
        return false;
    }
    match daemon.feed(alloc, id, piece) {
        Fed::Over => is_quiet(daemon, id),
        Fed::Standing | Fed::Starved => false,
    }
}

/// He is lost.
fn lose<D: Device>(daemon: &mut Daemon<D>, id: SessionId)
    ensures { ActsOn id.number
        (core D.state daemon.old) (Leaves 1 None) (core D.state daemon.new) }
{
    daemon.end_session(id)
}

fn is_busy(status: Status) -> bool
    ensures { result ≡ true → status ≡ Status.DeviceBusy }
{
    status == Status::DeviceBusy
}

/// Whether the device of that name is leased: then it does not come out.
fn is_out<D: Device + Drop>(daemon: &mut Daemon<D>, name: &[u8]) -> bool
    ensures { result ≡ true → IsLeft name.now (core D.state daemon.old) (core D.state daemon.new) }
{
    let Err(status) = daemon.unplug(name) else {
        return false;
    };
    is_busy(status)
}

/// One comes and says garbage, which ends his session, and is lost.
fn come_garbled<D: Device>(alloc: Global, daemon: &mut Daemon<D>) -> bool
    ensures { result ≡ true → HasGarbled (core D.state daemon.old) (core D.state daemon.new) }
{
    let Some(first) = come(alloc, daemon) else {
        return false;
    };
    if !say_last(alloc, daemon, first, &GARBAGE) {
        return false;
    }
    lose(daemon, first);
    true
}

/// One comes and greets.
fn come_greeting<D: Device>(alloc: Global, daemon: &mut Daemon<D>) -> Option<SessionId>
    ensures { IfSome result
        (λ id. CameGreeting id.number (core D.state daemon.old) (core D.state daemon.new)) }
{
    let id = come(alloc, daemon)?;
    let said = greeting(alloc)?;
    if !say(alloc, daemon, id, said.as_slice()) {
        return None;
    }
    Some(id)
}

/// He opens the device of that name. Whether it is out then.
fn open<D: Device + Drop>(alloc: Global, daemon: &mut Daemon<D>, id: SessionId, name: &Text) -> bool
    ensures { result ≡ true
        → HasOpened id.number name.now (core D.state daemon.old) (core D.state daemon.new) }
{
    let Some(said) = opening(alloc, name) else {
        return false;
    };
    if !say(alloc, daemon, id, said.as_slice()) {
        return false;
    }
    is_out(daemon, name.as_bytes())
}

/// One says garbage, which ends his session, and is lost; another greets, and opens the device of that name.
pub(crate) fn take_among_strangers<D: Device + Drop>(
    alloc: Global,
    daemon: &mut Daemon<D>,
    name: &Text,
) -> Option<SessionId>
    ensures { IfSome result (λ id. daemon.old.opened ≡ 0 → (id.number ≡ 1)
        × HasLeased name.now (core D.state daemon.old) (core D.state daemon.new)) }
{
    if !come_garbled(alloc, daemon) {
        return None;
    }
    let second = come_greeting(alloc, daemon)?;
    if !open(alloc, daemon, second, name) {
        return None;
    }
    Some(second)
}

/// The one who has the device is lost, and a third one greets, and stays.
pub(crate) fn lose_and_stay<D: Device>(
    alloc: Global,
    daemon: &mut Daemon<D>,
    second: SessionId,
) -> bool
    ensures { result ≡ true → daemon.old.opened ≡ 2 → second.number ≡ 1
        → HasGone (core D.state daemon.old) (core D.state daemon.new) }
{
    lose(daemon, second);
    let Some(_third) = come_greeting(alloc, daemon) else {
        return false;
    };
    true
}

/// A flatbed of that name with this page in memory, behind a pointer.
fn flatbed_on(alloc: Global, name: Text, page: Page) -> Option<Scanner>
    ensures { IfSome result (λ flatbed. scanner_state flatbed ≡ flatbed_with name page) }
{
    let source = Source::Memory(MemoryPage::new(page));
    let order = ByteOrder::Little;
    let flatbed = VirtualScanner::new(alloc, DeviceKind::Flatbed, name, source, order).ok()?;
    Scanner::new(alloc, flatbed).ok()
}

/// That flatbed alone.
fn alone(alloc: Global, flatbed: Scanner) -> Option<Vec<Scanner>>
    ensures { IfSome result (λ devices. devices.items ≡ flatbed ∷ []) }
{
    let mut devices = Vec::new(alloc);
    if devices.push(flatbed).is_err() {
        return None;
    }
    Some(devices)
}

/// A daemon of one flatbed, with this page in memory.
pub(crate) fn daemon_on(
    alloc: Global,
    name: Text,
    page: Page,
    users: Users,
) -> Option<Daemon<Scanner>>
    ensures { IfSome result (λ d. IsNewDaemon (flatbed_with name page ∷ [])
        (core scanner_state d) × (d.users ≡ users)
        × HasLimits (flatbed_with name page)) }
{
    let flatbed = flatbed_on(alloc, name, page)?;
    let _params = flatbed.params();
    let devices = alone(alloc, flatbed)?;
    let Ok(registry) = Registry::new(alloc, devices) else {
        return None;
    };
    Some(Daemon::new(registry, users, [0; 32]))
}
