//! Devices: what gives bytes, what takes bytes, and what holds files by name.
//!
//! A device is a trait with counts of its calls and of its faults, and where it can tell them its bytes. A call answers that the
//! device failed only where the count of faults rose in the call, so code over a device cannot make up a failure, and what it says
//! of the count of calls bounds how often it asks. The devices in memory tell their bytes and fail at stated calls;
//! those over standard input, standard output and real files tell nothing of content and are the edge that is trusted.
#![tactic(auto)]

mod failures;
mod fault;
mod laws;
mod line_reader;
mod memory_shelf;
mod memory_sink;
mod memory_source;
mod reading;
mod real;
mod shelf;
mod sink;
mod source;
mod writing;

pub use fault::Failed;
pub use laws::lines_add_up;
pub use line_reader::{Line, LineReader, ReadError};
pub use memory_shelf::{MemoryFile, MemoryShelf};
pub use memory_sink::MemorySink;
pub use memory_source::MemorySource;
pub use reading::{ReadAllError, read_all};
pub use real::{RealShelf, RealSink, RealSource};
pub use shelf::{LoadError, Shelf};
pub use sink::Sink;
pub use source::Source;
pub use writing::write_text;

/// The most bytes that the input of a command, or a file, may have.
pub const MAX_INPUT_BYTES: usize = 16_777_216;

/// The byte that ends a line.
pub const LINE_FEED: u8 = b'\n';

/// The most bytes that a line may have before its line feed.
pub const MAX_LINE_BYTES: usize = 4_096;

/// The most bytes that may be taken of an input that is read line by line.
pub const MAX_SESSION_BYTES: usize = 67_108_864;

/// The most bytes that a text is cut into for one write.
pub const MAX_PIECE_BYTES: usize = 4_096;
