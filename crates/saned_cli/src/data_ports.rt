//! The ports at which data connections come.

ghost use Rattle.std.specs.Prelude.{◌≡◌, ◌≢◌, ◌≤◌, ℕ, IfNone, IfSome, decimal};
ghost use Rattle.saned_cli.specs.DataPorts.{IsPortRange};
ghost use Rattle.saned_cli.specs.declared.data_ports.PortRange.{PortRange as APortRange};

use crate::daemon_words::plain_number_of;
use text_lines::split_once;

/// The ports from one to another, which both are among them.
#[derive(Clone, Copy, Debug, PartialEq, Eq)]
pub struct PortRange {
    pub first: u16,
    pub last: u16,
}

/// The port, 1 to 65535, that a text writes.
fn port_number(text: &[u8]) -> Option<u16>
    ensures some { IfSome result (λ n. (text.now ≡ decimal n) × (1 ≤ n)) }
    ensures none { IfNone result ((n : ℕ) → 1 ≤ n → n ≤ 65535 → text.now ≢ decimal n) }
{
    match plain_number_of(text) {
        Some(n) if 1 <= n && n <= 65_535 => Some(n as u16),
        _ => None,
    }
}

/// The ports that a text names as `FROM-TO`.
pub fn port_range(text: &[u8]) -> Option<PortRange>
    /// Data ports are named as `FROM-TO`, two numbers of 1 to 65535 in plain digits, the first at most the second, and by no
    /// other text.
    ensures some { IfSome result (IsPortRange text.now) }
    ensures none { IfNone result ((ports : APortRange) → ¬ IsPortRange text.now ports) }
{
    let (first, last) = split_once(text, b'-')?;
    let first = port_number(first)?;
    let last = port_number(last)?;
    if first <= last {
        Some(PortRange { first, last })
    } else {
        None
    }
}
