//! Sockets and listeners with a record of their calls. Clauses alone read the record, and no memory holds it.
#![tactic(auto)]

mod asked_calls;
mod laws;
mod made_calls;
mod nets_back;
mod recorded_net;
mod recorded_socket;

pub use asked_calls::Occurrence;
pub use laws::what_sockets_carry;
pub use nets_back::NetsBack;
pub use recorded_net::RecordedNet;
pub use recorded_socket::RecordedSocket;
