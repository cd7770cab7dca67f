//! What the program asks of the world: files that are read, sinks that are written, and
//! the counts of their faults. Everything above is generic in these traits, so that a
//! test stands in for the system.
#![tactic(auto)]

pub mod files;
pub mod gate;
pub mod host;
pub mod memory_files;
pub mod memory_sink;
pub mod reading;
pub mod sink;
pub mod steps;
pub mod system;
pub mod texts;
pub mod writing;

pub use files::{ChooseErr, Failed, Files, NoMemory};
pub use gate::{Gate, NoGate};
pub use host::{HostFiles, HostStream, Open, Stream};
pub use memory_files::MemFiles;
pub use memory_sink::MemSink;
pub use reading::{ReadErr, read_all};
pub use sink::{Messages, Output, Sink};
pub use steps::{Steps, tick};
pub use system::{Disk, HostErr, HostOut, Source, WithInput};
pub use texts::{append, append_labelled};
pub use writing::{WriteErr, write_all};
