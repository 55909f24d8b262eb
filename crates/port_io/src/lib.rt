//! Where bytes come from and go to: the traits `Source` and `Sink`, which count the faults of the outside, with those of memory and
//! of std behind them, and `read_all`, which reads to the end or says why not. It knows nothing of scripts.
#![tactic(auto)]

mod input;
mod memory;
mod roles;
mod std_io;

pub use input::{ReadNo, read_all};
use item_list::Items;
pub use memory::{MemSink, MemSource};
pub use roles::{Failed, Sink, Source};
pub use std_io::{StdSink, StdSource};

/// A list of bytes.
pub type Bytes = Items<u8>;

/// A list of numbers of calls.
pub type Calls = Items<u64>;
