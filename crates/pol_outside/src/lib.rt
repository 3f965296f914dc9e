//! What the program reads and writes: a folder of files and a sink for bytes, as traits whose
//! objects count their faults. There are ones over a disk and a writer, as the system's; ones in memory with planned
//! faults; and ones that never fail.
#![tactic(auto)]

mod disk;
mod disk_folder;
mod folder;
mod give;
mod memory_folder;
mod memory_sink;
mod opener;
mod output;
mod safe_folder;
mod safe_sink;
mod sink;
mod std_sink;
mod system_disk;

pub use disk::Disk;
pub use disk_folder::DiskFolder;
pub use folder::{Folder, MOST_TAKEN, TakeFault, folder_limits};
pub use memory_folder::MemoryFolder;
pub use memory_sink::MemorySink;
pub use opener::Opener;
pub use output::Output;
pub use plain_lists::NoMemory;
pub use safe_folder::SafeFolder;
pub use safe_sink::SafeSink;
pub use sink::{Sink, SinkFault, put_all};
pub use std_sink::StdSink;
pub use system_disk::{NamedFile, SystemDisk};
