use std::io::Read;
use thiserror::Error;

/// A connection that cannot be made.
#[derive(Clone, Copy, Debug, PartialEq, Eq, Error)]
#[error("the connection cannot be made")]
pub struct DialFault;

/// Makes the data connections of a job.
pub trait Dial {
    ghost use Rattle.std.specs.Prelude.{◌≡◌, ℕ, List, Option, None, IfOk, OnErr};
    ghost use Rattle.net_jobs.specs.Links.{DialBrings, IsPrepared, with_port};

    type Conn: Read + Drop;

    // The bytes of each connection to come, in their order, where they are known.
    ghost coming: { Self → Option (List (List ℕ)) } = { λ _. None };

    // The ports that it was asked for so far, the newest first, where it tells them.
    ghost ports: { Self → Option (List ℕ) } = { λ _. None };

    // The ports that it was told of before, the newest first, where it tells them.
    ghost prepared: { Self → Option (List ℕ) } = { λ _. None };

    /// A connection to that port will be asked for, unless the job ends before: it may be made now. SANE's own daemon
    /// answers nothing between START's reply and that connection. What makes connections only as they are asked for does
    /// nothing.
    fn prepare(&mut self, port: u16)
        ensures told { IsPrepared port (prepared self.old) (prepared self.new) }
        ensures ports { ports self.new ≡ ports self.old }
        ensures coming { coming self.new ≡ coming self.old }
    {
        let _ = port;
    }

    /// A connection to that port of the host of the control connection.
    fn dial(&mut self, port: u16) -> Result<Self::Conn, DialFault>
        ensures asked { ports self.new ≡ with_port port (ports self.old) }
        ensures brings { IfOk result
            (λ conn. DialBrings (coming self.old) (coming self.new) (Self.Conn.remaining conn)) }
        ensures none { OnErr result (coming self.new ≡ coming self.old) }
        ensures kept { prepared self.new ≡ prepared self.old };
}
