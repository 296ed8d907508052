//! Reading files and writing to sinks: the host's and fakes in memory, whole reads and whole writes.
#![tactic(auto)]

mod files;
mod host;
mod memory;
mod sink;
#[cfg(test)]
mod tests;
mod whole;

pub use files::{Failed, Files};
pub use host::{HostFiles, HostSink};
pub use memory::{MemFiles, MemSink};
pub use sink::Sink;
pub use std::alloc::AllocError as NoMemory;
pub use whole::{ReadEnd, read_whole, write_whole};
