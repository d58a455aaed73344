//! Devices of blocks with their crash model, and sources and sinks of bytes.
#![tactic(auto)]

mod ahead;
mod counted;
mod device;
mod file;
mod fuse;
mod given;
mod memory;
mod record;
mod sink;
mod source;
mod tally;
mod unsynced;
mod window;

pub use ahead::{ReadAhead, ReaderQueue, ReaderThread, reader_queue};
pub use device::{Device, DeviceFailed, Region};
pub use file::FileDevice;
pub use fuse::FuseDevice;
pub use given::{FileSource, MemSource};
pub use memory::MemDevice;
pub use sink::{Sink, SinkFailed, put_all};
pub use source::{Source, SourceFailed};
pub use unsynced::Unsynced;
