//! What a world stands for by the model: whatever happens to one of its jobs is by their steps.
#![tactic(auto)]

mod beginning;
mod device_events;
mod events;
mod histories;
mod promises;

pub use beginning::a_new_world_refines;
pub use device_events::{a_load_refines, an_unplug_refines};
pub use events::{
    a_cancel_refines, a_connection_refines, a_data_connection_refines, a_data_delivery_refines,
    a_data_loss_refines, a_delivery_to_the_client_refines, a_delivery_to_the_daemon_refines,
    a_loss_refines, a_turn_refines,
};
pub use histories::{a_run_refines, all_is_kept};
pub use promises::{
    a_batch_is_counted, a_scan_is_meant, losses_are_explained, nobody_is_stuck, outcomes_are_right,
    pages_are_meant, values_are_read_alike,
};
