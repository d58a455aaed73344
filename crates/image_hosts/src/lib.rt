//! What a run asks its host for: devices by name, and a place for its report. Here are that interface,
//! `Host`, and the two hosts that have it, one over files, for the program, and one in memory, for tests;
//! and what a person is told on standard error.
#![tactic(auto)]

mod advice;
mod asked;
mod file_host;
mod host;
mod mem_host;
mod progress;
mod script_host;

pub use crate::advice::{NamedFile, explain, tell_failure, tell_status};
pub use crate::asked::DeviceAsked;
pub use crate::file_host::FileHost;
pub use crate::host::{Host, OpenFault, Purpose, Watched};
pub use crate::mem_host::{MemHost, MemImage, MemRedo};
pub use crate::progress::Progress;
pub use crate::script_host::ScriptHost;
