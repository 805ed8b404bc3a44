//! What the program `scanimage` does: the words of its command line, its job, its lists and tables, and its endings.
#![tactic(auto)]

mod asked;
mod device_listing;
mod doing;
mod ending;
mod folder;
mod geometry;
mod host;
mod host_notes;
mod hosts;
mod inputs;
mod laws;
mod net_doing;
mod option_table;
mod options;
mod outputs;
mod outside;
mod password;
mod pieces;
mod planning;
mod printed;
mod printing;
mod program_option;
mod program_output;
mod program_run;
mod recorded_hosts;
mod rounding;
mod split;
mod task_here;
mod task_there;
mod word_cut;
mod words;

pub use asked::{
    asked_of_net, has_config, is_local, is_net_name, is_right_batch, net_parts, port_of, task_of,
};
pub use device_listing::{device_list, net_prefix};
pub use doing::{do_batch, do_job};
pub use ending::Ending;
pub use folder::Folder;
pub use geometry::Geometry;
pub use host::{HostDial, address_of};
pub use hosts::{HostPoint, Hosts};
pub use inputs::{config_from, config_lines, password_from, password_of};
pub use laws::{a_plan_asks_a_port, options_are_those_of_the_cut, what_is_carried_out_is_written};
pub use local_job::{OutputTally, run_local, run_local_batch};
pub use net_doing::{do_net_batch, do_net_job};
pub use option_table::options_table;
pub use options::{Options, OptionsFault, read_options};
pub use outputs::{JobFiles, Outputs};
pub use outside::Outside;
pub use password::password_line;
pub use planning::{Destination, Input, JobPlan, Location, Plan, Remote, plan_by_options, plan_of};
pub use printed::Printout;
pub use printing::{print, print_all};
pub use program_option::ProgramOption;
pub use program_output::OutputFile;
pub use program_run::{exit_code, program, run, tell_ending};
pub use recorded_hosts::RecordedHosts;
pub use rounding::rounded_lines;
pub use split::{Measures, Split, split_words};
pub use task_here::run_task;
pub use task_there::run_net_task;
pub use word_cut::{AwaitedValue, Item, SplitFault, WordPart};
pub use words::{HostWords, WordSource, words_of};
