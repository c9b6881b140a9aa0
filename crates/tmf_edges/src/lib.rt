//! The edges of the program: where its bytes come from and where they go.
#![tactic(auto)]

mod dir_disk;
mod giving;
mod mem_sink;
mod mem_source;
mod reading;
mod sink;
mod source;
mod std_sink;
mod std_source;

pub use dir_disk::DirDisk;
pub use giving::give_all;
pub use mem_sink::MemSink;
pub use mem_source::MemSource;
pub use reading::{ReadFault, read_to_limit};
pub use sink::{Sink, SinkFault};
pub use source::{Source, SourceFault};
pub use std_sink::StdSink;
pub use std_source::StdSource;
