//! Fakes in memory of files and of a sink, whose failures are planned.

mod files;
mod plan;
mod sink;

pub use files::MemFiles;
pub use sink::MemSink;
