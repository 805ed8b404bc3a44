//! What the daemon answers to a request, and what its data connection does, is what the model says.
#![tactic(auto)]

mod daemon_calls;
mod data_connections;
mod device_words;
mod requests;
mod table_steps;
mod whole_sessions;

pub use daemon_calls::{
    a_core_connection_refines, a_core_end_refines, a_core_loss_refines, a_core_turn_refines,
};
pub use data_connections::{
    a_connection_follows_the_model, a_loss_follows_the_model, a_release_follows_the_model,
    a_stream_follows_the_model, a_turn_follows_the_model,
};
pub use device_words::{
    a_cancel_follows_the_model, a_close_follows_the_model, a_get_follows_the_model,
    a_set_follows_the_model, a_start_follows_the_model, descriptors_follow_the_model,
    parameters_follow_the_model,
};
pub use requests::{
    a_fed_daemon_follows_the_model, a_feed_follows_the_model, any_request_follows_the_model,
    other_sessions_are_kept, others_are_left_alone, the_beginning_is_shown,
};
pub use table_steps::{a_load_follows_the_model, an_unplug_follows_the_model};
pub use whole_sessions::{
    a_greeting_follows_the_model, a_list_follows_the_model, an_authorization_follows_the_model,
    an_end_follows_the_model, an_open_follows_the_model, another_request_follows_the_model,
};
