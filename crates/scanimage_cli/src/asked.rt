ghost use Rattle.std.specs.Prelude.{◌≡◌, ◌↔◌, IsTrue, IfSome, IfNone};
ghost use Rattle.scanimage_cli.specs.Asked.{task_asked, IsNetName, IsNetNameOf, IsLocal, HasConfig, IsAskedOf, port_asked, IsRightBatch};

use crate::options::Options;
use scan_job::{MOST_PAGES, Task};
use text_lines::split_once;

/// The port of SANE's daemon.
const SANE_PORT: u16 = 6566;

/// What the options ask for: a list goes before a table of options, that before the settings alone, and that before
/// a batch, which is one of 16 pages where no count is said.
pub fn task_of(options: &Options) -> Task
    /// Which task the options ask for, of this machine or of which host and port, for which device there, and where a
    /// config is needed.
    /// Carried by: `task_of`, `is_local`, `is_net_name`, `net_parts`, `asked_of_net`, `port_of`, `has_config`
    ensures { result ≡ task_asked options.now }
{
    if options.list_devices {
        Task::List
    } else if options.all_options {
        Task::Show
    } else if options.dont_scan {
        Task::SetOnly
    } else if options.batch {
        Task::Batch(options.batch_count.unwrap_or(MOST_PAGES))
    } else {
        Task::Scan
    }
}

/// Whether a device's name is `net:HOST:NAME`, that of a device of another host.
pub fn is_net_name(name: &[u8]) -> bool
    ensures { IsTrue result ↔ IsNetName name.now }
{
    match name {
        [b'n', b'e', b't', b':', rest @ ..] => rest.contains(&b':'),
        _ => false,
    }
}

/// The host and the device's own name in a name `net:HOST:NAME`; the host ends at its first colon. `None` where the
/// name is none of the net.
pub fn net_parts(name: &[u8]) -> Option<(&[u8], &[u8])>
    ensures parts { IfSome result (λ parts. IsNetNameOf name.now parts.0.now parts.1.now) }
    ensures none { IfNone result (¬ IsNetName name.now) }
{
    match name {
        [b'n', b'e', b't', b':', rest @ ..] => split_once(rest, b':'),
        _ => None,
    }
}

/// Whether the options ask for a device of this machine, or for the list of those: a config names them.
pub fn is_local(options: &Options) -> bool
    ensures { IsTrue result ↔ IsLocal options.now }
{
    if options.list_devices {
        return options.net.is_none();
    }
    match &options.device_name {
        Some(name) => !is_net_name(name.as_bytes()),
        None => true,
    }
}

/// Whether there is a config where the options ask for a device of this machine.
pub fn has_config(options: &Options) -> bool
    ensures { IsTrue result ↔ HasConfig options.now }
{
    options.config.is_some() || !is_local(options)
}

/// The host that the options ask, and the device's own name there; a list asks for none. `None` where they ask for
/// this machine.
pub fn asked_of_net(options: &Options) -> Option<(&[u8], &[u8])>
    ensures asked { IfSome result (λ asked. IsAskedOf options.now asked.0.now asked.1.now) }
    ensures none { IfNone result (IsLocal options.now) }
{
    if options.list_devices {
        return match &options.net {
            Some(host) => Some((host.as_bytes(), &[])),
            None => None,
        };
    }
    match &options.device_name {
        Some(name) => match net_parts(name.as_bytes()) {
            Some(parts) => Some(parts),
            None => None,
        },
        None => None,
    }
}

/// The port of the daemon that is asked.
pub fn port_of(options: &Options) -> u16
    ensures { result ≡ port_asked options.now }
{
    options.port.unwrap_or(SANE_PORT)
}

/// Whether the files of a batch are no output file's, and a count is that of a batch.
pub fn is_right_batch(options: &Options) -> bool
    ensures { IsTrue result ↔ IsRightBatch options.now }
{
    if options.batch {
        options.output_file.is_none()
    } else {
        options.batch_count.is_none()
    }
}
