//! Sources and sinks of bytes with counted faults, and the two calls that read a source to its end
//! and write bytes whole. A fault is answered only where the object's own count rose.
//! The words of the clauses are in specs/Port.antt, and what a source and a sink in memory hold in
//! specs/Memory.antt.
#![tactic(auto)]

mod calls;
mod law;
mod memory;
mod ports;
mod reading;
mod std_ports;
mod steady;
mod unread;
mod writing;

pub use law::port_limits;
pub use memory::{MemorySink, MemorySource};
pub use ports::{Failed, Sink, Source};
pub use reading::{LARGEST_LIMIT, ReadEnd, read_all};
pub use std_ports::{StdSink, StdSource};
pub use steady::{SteadySink, SteadySource};
pub use writing::{WriteEnd, write_all_of};
