//! What lies outside a program: the words that it is called with and, as traits whose calls may fail, a store
//! of named files, a sink for bytes and a clock.
//!
//! Each object has one ghost member, its state: what it holds and what it was asked, each where the object
//! tells it, and a count of its faults. The contract of a call is one relation between the states before and
//! after it and what it answers. There are forms in memory, which tell all, and forms over the system, which
//! tell nothing and count.
#![tactic(auto)]

mod arguments;
mod clock;
mod error;
mod memory_clock;
mod memory_sink;
mod memory_store;
mod real;
mod sink;
mod status;
mod store;

pub use arguments::words;
pub use clock::Clock;
pub use error::{Failed, NoMemory, StoreError};
pub use memory_clock::MemoryClock;
pub use memory_sink::MemorySink;
pub use memory_store::{FileRead, MemoryStore};
pub use real::{FileStore, OutSink, SystemClock, cause_of, read_within};
pub use sink::{Sink, put_all};
pub use status::Status;
pub use store::Store;
