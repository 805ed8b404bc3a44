//! What one request does to a session of the scanner daemon: to its device words, to the table of devices, and to the
//! challenges (SANE Standard 1.06, "Network Protocol"). Bytes and other sessions are for the crate above.
#![tactic(auto)]

mod answering;
mod cancelling;
mod giving_back;
mod laws;
mod request_answer;
mod session;

pub use answering::request::answer;
pub use cancelling::cancel_word;
pub use giving_back::{drop_session, let_go};
pub use laws::{a_request_keeps_leases, an_end_gives_all_back};
pub use request_answer::RequestAnswer;
pub use session::{AwaitedAuthorization, DataPhase, Session, StringSize};
