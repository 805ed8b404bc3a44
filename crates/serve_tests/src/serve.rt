//! Clients in memory, and what they are served.

mod memory;
mod serving;
