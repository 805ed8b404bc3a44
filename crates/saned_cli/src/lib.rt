//! What the program `saned` does: the words of its command line, the files that they name, its endings, and its
//! connections on 127.0.0.1.
#![tactic(auto)]

mod bind_notes;
mod daemon_ending;
mod daemon_inputs;
mod daemon_options;
mod daemon_plan;
mod daemon_run;
mod daemon_words;
mod data_port;
mod data_ports;
mod ending_lines;
mod kept_ports;
mod local;
mod own_texts;
mod pace;
mod port_line;
mod ports;
mod recorded_ports;
mod seed;
mod socket_table;
mod table_fields;
mod table_reading;

pub use daemon_ending::DaemonEnding;
pub use daemon_inputs::{config_from, config_lines, users_from, users_of};
pub use daemon_options::{DaemonOptions, DaemonOptionsFault, read_options};
pub use daemon_plan::{DaemonPlan, plan_of};
pub use daemon_run::{daemon_exit_code, daemon_program, tell_daemon_ending};
pub use data_ports::{PortRange, port_range};
pub use local::{LocalNet, LocalSocket};
pub use own_texts::{OwnText, text_asked};
pub use port_line::{DaemonOutput, DaemonStreams};
pub use ports::{BoundNet, Ports, SystemPorts};
pub use recorded_ports::RecordedPorts;
pub use saned_serve::{Got, Listeners, ServeEnd, Socket, serve};
pub use seed::read_seed;
pub use socket_calls::{SOCKET_TABLE, SystemSockets};
pub use socket_table::{is_among, owner_of, sockets_of};
