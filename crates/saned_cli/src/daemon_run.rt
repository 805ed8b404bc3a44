//! What the program does, from the words of its command line to its exit status.

ghost use Rattle.std.specs.Prelude.{◌≡◌, ◌≢◌, All, IfErr, IfSome, None, OnErr, OnOk, map, string_bytes};
ghost use Rattle.std.specs.Io.KnownBytes.{Appends};
ghost use Rattle.std.specs.Process.{exit_status as code_of};
ghost use Rattle.device_api.specs.ScannerLimits.{HasLimits};
ghost use Rattle.saned_core.specs.DaemonStates.{core};
ghost use Rattle.virtual_scanner.specs.Scanners.{scanner_state};
ghost use Rattle.saned_cli.specs.Binding.{ListensFor, ListensForWords, TellsLine, seen_by, told_by};
ghost use Rattle.saned_cli.specs.DaemonCauses.{HasEndedSo, HasNotServed, IsDaemonCause, daemon_at};
ghost use Rattle.saned_cli.specs.DaemonEndings.{IsDaemonFailure, IsServeFailure, daemon_exit_status};
ghost use Rattle.saned_cli.specs.DaemonLines.{daemon_ending_line};
ghost use Rattle.saned_cli.specs.OwnTexts.{own_text, text_asked};
ghost use Rattle.saned_cli.specs.WholeDaemon.{CarriesFor, IsServedBy, ServesFor, binds};

use crate::daemon_ending::DaemonEnding;
use crate::daemon_inputs::{config_lines, users_of};
use crate::daemon_plan::{DaemonPlan, plan_of};
use crate::own_texts::text_asked;
use crate::port_line::{DaemonOutput, DaemonStreams, tell_port};
use crate::ports::{BoundNet, Ports};
use crate::recorded_ports::RecordedPorts;
use config_pages::{Inputs, scanners};
use device_api::Device;
use dispatch::Registry;
use recorded_net::what_sockets_carry;
use saned_core::Daemon;
use saned_serve::{ServeEnd, serve};
use std::alloc::Global;
use std::fs::File;
use std::io::Write;
use std::process::ExitCode;
use virtual_scanner::Scanner;

/// Listens, says where, and serves.
fn serve_at<P: Ports, O: Write>(
    alloc: Global,
    ports: &mut P,
    out: &mut DaemonOutput<O>,
    plan: &DaemonPlan,
    daemon: &mut Daemon<Scanner>,
) -> Result<(), DaemonEnding>
    ensures served { OnOk result (IsServedBy plan.now (core scanner_state daemon.old)
        (P.back ports.old) (P.back ports.new)) }
    ensures listens { OnOk result (ListensFor plan.now
        (told_by P.asked O.contents ports.old out.old)
        (told_by P.asked O.contents ports.new out.new)) }
    ensures otherwise { IfErr result (HasNotServed plan.now
        (told_by P.asked O.contents ports.old out.old)
        (told_by P.asked O.contents ports.new out.new)) }
    ensures failed { IfErr result IsServeFailure }
{
    let options = &plan.options;
    let BoundNet { mut net, port } = match ports.bind(options.port, options.data_ports) {
        Ok(bound) => bound,
        Err(fault) => return Err(DaemonEnding::of_bind(&fault)),
    };
    // Nobody need read it: the daemon serves all the same.
    tell_port(out, port);
    let end = serve(
        alloc,
        daemon,
        &mut net,
        options.sessions,
        options.idle_turns,
    );
    ports.close(net);
    match end {
        ServeEnd::NoMem => Err(DaemonEnding::NoMemory),
        ServeEnd::Sessions | ServeEnd::Idle | ServeEnd::Turns => Ok(()),
    }
}

/// Asks each scanner for its parameters: it tells them, and so that it is within its limits.
fn ask_limits<D: Device>(scanners: &[D])
    ensures { All (λ scanner. HasLimits (D.state scanner)) scanners.now }
{
    for scanner in scanners {
        let _ = scanner.params();
    }
}

/// Reads the config and the users, makes the devices, and serves as the words say.
fn run<I: Inputs<Page = File>, P: Ports, O: Write, E: Write>(
    alloc: Global,
    streams: &mut DaemonStreams<I, P, O, E>,
    words: &[String],
) -> Result<(), DaemonEnding>
    ensures done { OnOk result
        (ServesFor I.seen P.back streams.old streams.new (map string_bytes words.now)) }
    ensures listens { OnOk result (ListensForWords (map string_bytes words.now)
        (seen_by I.seen P.asked O.contents streams.old)
        (seen_by I.seen P.asked O.contents streams.new)) }
    ensures cause { IfErr result (IsDaemonCause (map string_bytes words.now)
        (seen_by I.seen P.asked O.contents streams.old)
        (seen_by I.seen P.asked O.contents streams.new)) }
    ensures failed { IfErr result IsDaemonFailure }
    // Nothing is said on standard error yet.
    ensures silent { OnErr result (streams.new.err ≡ streams.old.err) }
{
    let plan = plan_of(alloc, words)?;
    let lines = config_lines(alloc, &mut streams.inputs, &plan.options)?;
    let order = plan.options.byte_order;
    let devices = match scanners(alloc, &mut streams.inputs, lines.as_slice(), order) {
        Ok(devices) => devices,
        Err(why) => return Err(DaemonEnding::of_device(why.line, why.fault)),
    };
    let users = users_of(alloc, &mut streams.inputs, &plan.options)?;
    ask_limits(devices.as_slice());
    let Ok(registry) = Registry::new(alloc, devices) else {
        return Err(DaemonEnding::NoMemory);
    };
    let mut daemon = Daemon::with_strings(registry, users, plan.options.strings, plan.seed);
    serve_at(
        alloc,
        &mut streams.ports,
        &mut streams.out,
        &plan,
        &mut daemon,
    )
}

/// Says on standard error how the program ends, and gives the exit status of that.
pub fn tell_daemon_ending<E: Write>(err: &mut DaemonOutput<E>, ending: &DaemonEnding) -> ExitCode
    /// The exit status is that of the ending, and its line is told, or a front of it if the output fails, which is noted.
    /// Carried by: `status`, `line` of `tell_daemon_ending`
    ensures status { code_of result ≡ daemon_exit_status ending.now }
    ensures line { TellsLine (daemon_ending_line ending.now) err.new.tally.failed
        (E.contents err.old.to) (E.contents err.new.to) }
{
    ending.tell(err);
    ExitCode::from(ending.daemon_exit_status())
}

/// Does what the words of the command line say, and gives the exit status.
pub fn daemon_exit_code<I: Inputs<Page = File>, P: Ports, O: Write, E: Write>(
    alloc: Global,
    streams: &mut DaemonStreams<I, P, O, E>,
    words: &[String],
) -> ExitCode
    /// If the exit status is 0 and the words ask for no text, a daemon of the config's scanners has served as `serve` says, with
    /// the users of the file that the words name, their seed, size of strings and limits, and there was memory to begin. The
    /// config and the users are those that were read, and nothing else was but the page files of the config's lines.
    /// Carried by: `well` of `daemon_exit_code`: `ServesFor`, `HasServedFor`
    ensures well { code_of result ≡ 0 → text_asked (map string_bytes words.now) ≡ None
        → ServesFor I.seen P.back streams.old streams.new (map string_bytes words.now) }
    /// Then one port was asked for, the one that the words name, with the data ports that they name, and it was had. Standard
    /// output took the line `port N` with the port that is had, or a front of it if that output failed.
    /// Carried by: `listens` of `daemon_exit_code`: `ListensFor`
    ensures listens { let all = map string_bytes words.now in
        code_of result ≡ 0 → text_asked all ≡ None → ListensForWords all
        (seen_by I.seen P.asked O.contents streams.old)
        (seen_by I.seen P.asked O.contents streams.new) }
    /// Where it is 0 and the words ask for a text, just that text was written to standard output.
    ensures text { code_of result ≡ 0 → IfSome (text_asked (map string_bytes words.now))
        (λ text. Appends (O.contents streams.old.out.to) (O.contents streams.new.out.to)
        (own_text text)) }
    /// Any other exit status is that of an ending. Its line is told on standard error, and the ending has its cause: the words
    /// have no plan; the config, a page or the users are refused, by what was read; the port was not had; or there was no memory.
    /// Carried by: `otherwise` of `daemon_exit_code`: `HasEndedSo`, `IsDaemonCause`
    ensures otherwise { code_of result ≢ 0 → HasEndedSo (map string_bytes words.now)
        (daemon_at I.seen P.asked O.contents E.contents streams.old)
        (daemon_at I.seen P.asked O.contents E.contents streams.new) (code_of result) }
{
    match text_asked(words) {
        Some(text) => match text.tell(&mut streams.out.to) {
            Ok(()) => ExitCode::from(0),
            Err(_) => tell_daemon_ending(&mut streams.err, &DaemonEnding::CannotWrite),
        },
        None => match run(alloc, streams, words) {
            Ok(()) => ExitCode::from(0),
            Err(ending) => tell_daemon_ending(&mut streams.err, &ending),
        },
    }
}

/// Does what the words of the command line say, over recorded ports.
pub fn daemon_program<I: Inputs<Page = File>, P: Ports, O: Write, E: Write>(
    alloc: Global,
    streams: &mut DaemonStreams<I, RecordedPorts<P>, O, E>,
    words: &[String],
) -> ExitCode
    /// If the exit status is 0 and the words ask for no text, a daemon has served for them, and its connections carried this. What
    /// was read of each was fed to its session, and to no other. What each took is a front of the replies of its session, or of
    /// the records of its frame, and all of them unless it was lost or the daemon ended before.
    /// Carried by: `carried` of `daemon_program`: `CarriesFor`, `HasCarriedFor`, `CarryTheirOwn`
    ensures carried { code_of result ≡ 0 → text_asked (map string_bytes words.now) ≡ None
        → CarriesFor I.seen streams.old streams.new (map string_bytes words.now) }
    /// What `daemon_exit_code` promises of the port, of a text and of any other exit status holds as well.
    /// Carried by: `listens`, `text`, `otherwise` of `daemon_program`
    ensures listens { let all = map string_bytes words.now in
        code_of result ≡ 0 → text_asked all ≡ None → ListensForWords all
        (seen_by I.seen binds O.contents streams.old)
        (seen_by I.seen binds O.contents streams.new) }
    ensures text { code_of result ≡ 0 → IfSome (text_asked (map string_bytes words.now))
        (λ text. Appends (O.contents streams.old.out.to) (O.contents streams.new.out.to)
        (own_text text)) }
    ensures otherwise { code_of result ≢ 0 → HasEndedSo (map string_bytes words.now)
        (daemon_at I.seen binds O.contents E.contents streams.old)
        (daemon_at I.seen binds O.contents E.contents streams.new) (code_of result) }
{
    what_sockets_carry();
    daemon_exit_code(alloc, streams, words)
}
