//! The calls of the system's sockets that a server of local connections makes, and what is told of them. `system_sockets` alone
//! reaches the system.
#![tactic(auto)]

mod calls;
mod system_sockets;
mod table_text;

pub use calls::{Arrival, ListeningAt, Peeked, SocketCalls};
pub use system_sockets::{SOCKET_TABLE, SystemSockets};
