// Files as a program reads and writes them: read into a buffer, written whole or not at all, locked by one run alone. What fails is
// answered, in the system's words, and told by who asked.
#![tactic(auto)]

mod locking; // who alone may change a file
mod paths; // paths put together, and what they name
mod reading; // what a file holds
mod runs; // what names a run, and whether it is gone
mod writing; // a file, whole or not at all

pub use locking::{lock, lock_name};
pub use paths::{append, file_at, path_of};
pub use reading::{front, read_all, read_path};
pub use runs::{is_gone, process_of};
pub use writing::{Content, write};
