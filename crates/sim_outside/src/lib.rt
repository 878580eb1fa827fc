//! The outside world: sources of bytes, sinks for bytes, and reading and writing all of them.
//!
//! A source or a sink may tell contracts its bytes. Those in memory do; those of the operating
//! system do not.
#![tactic(auto)]

mod bytes;
mod decimal;
mod mem_sink;
mod mem_source;
mod reading;
mod sink;
mod source;
mod std_sink;
mod std_source;
mod ticks;
mod writing;

pub use bytes::Bytes;
pub use decimal::push_decimal;
pub use mem_sink::MemSink;
pub use mem_source::MemSource;
pub use reading::{ReadEnd, read_all};
pub use sink::Sink;
pub use source::{Failed, Source};
pub use std_sink::StdSink;
pub use std_source::StdSource;
pub use ticks::push_ticks;
pub use writing::write_all;
