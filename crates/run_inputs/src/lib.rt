//! What a run is given: the bytes of the files that a command names, and the schema and the one or two sets of
//! policies that they stand for, or what is printed of the first fault. What is printed, how a run ends, and the
//! lines that several commands print have their names here.
#![tactic(auto)]

mod certificate_lines;
mod codes;
mod file_lines;
mod files;
mod lines;
mod one_set;
mod pair;
mod printed;
mod reading;
mod refusal;
mod role;
mod shortage;
mod status;

pub use certificate_lines::{accepted_line, bad_line, not_closing_line, proof_fault_text};
pub use file_lines::role_word;
pub use files::{MOST_BYTES, bytes_of, file_limits, limit_of, read_file, read_if_named};
pub use lines::{element_text, number_text, refused_line, slot_end, slot_word};
pub use one_set::{OneSet, read_one, run_one};
pub use pair::{Pair, read_pair, run_pair};
pub use printed::{EarlyEnd, Printed, printed_of};
pub use reading::{named_schema, set_of};
pub use refusal::{Refusal, refused};
pub use role::Role;
pub use shortage::{Shortage, shortage_text};
pub use status::{Status, exit_number};
