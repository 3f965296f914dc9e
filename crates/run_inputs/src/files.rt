//! Reads the files that the arguments name.
ghost use Rattle.std.specs.Prelude.{◌≡◌, ◌≤◌, ◌∷◌, [], option_map, string_bytes};
ghost use Rattle.run_inputs.specs.Files.{limit_of};
ghost use Rattle.run_inputs.specs.Limits.{FileLimits};
ghost use Rattle.run_inputs.specs.Readings.{AreFilesRead, content_if_given, file, if_named, one_content, reading_of};

use crate::file_lines::{read_fault, too_long};
use crate::printed::EarlyEnd;
use crate::role::Role;
use pol_outside::{Folder, TakeFault};
use proof_text::MOST_PROOF_BYTES;
use std::alloc::Global;

/// The most bytes that the file of a set, of a schema, of a request or of a zone has.
pub const MOST_BYTES: u64 = 1_048_576;

/// The most bytes of a file, as a number.
pub fn file_limits()
    ensures { FileLimits }
{}

/// The most bytes that a file of the role has.
pub fn limit_of(role: Role) -> u64
    ensures { result ≡ limit_of role }
{
    match role {
        Role::First => MOST_BYTES,
        Role::Second => MOST_BYTES,
        Role::Set => MOST_BYTES,
        Role::Schema => MOST_BYTES,
        Role::Request => MOST_BYTES,
        Role::Proof => MOST_PROOF_BYTES,
        Role::Zone => MOST_BYTES,
    }
}

/// The bytes of a file that has at most as many as its role may have, or what is printed where the folder
/// fails at it or it has more. The line on a fault is made before the file is asked for, so that want of
/// memory stands for no fault.
pub fn read_file<F: Folder>(
    alloc: Global,
    folder: &mut F,
    role: Role,
    name: &str,
) -> Result<Vec<u8>, EarlyEnd>
    ensures reads { AreFilesRead (file role name.now ∷ []) one_content
        (reading_of F.held F.faults F.last_fault F.asked folder.old folder.new) result }
    ensures held { F.held folder.new ≡ F.held folder.old }
    ensures later { F.faults folder.old ≤ F.faults folder.new }
{
    let fault = read_fault(alloc, role)?;
    let mut bytes = Vec::new(alloc);
    match folder.take(alloc, name, limit_of(role), &mut bytes) {
        Ok(()) => Ok(bytes),
        Err(TakeFault::Failed) => Err(EarlyEnd::Answered(fault)),
        Err(TakeFault::TooLong) => Err(too_long(alloc, role)),
        Err(TakeFault::NoMemory) => Err(EarlyEnd::NoMemory),
    }
}

/// As `read_file` where a name is given; otherwise none, and the folder isn't asked.
pub fn read_if_named<F: Folder>(
    alloc: Global,
    folder: &mut F,
    role: Role,
    name: &Option<String>,
) -> Result<Option<Vec<u8>>, EarlyEnd>
    ensures reads { AreFilesRead (if_named role (option_map (λ n. string_bytes n) name.now))
        content_if_given
        (reading_of F.held F.faults F.last_fault F.asked folder.old folder.new) result }
    ensures held { F.held folder.new ≡ F.held folder.old }
    ensures later { F.faults folder.old ≤ F.faults folder.new }
{
    match name {
        Some(name) => Ok(Some(read_file(alloc, folder, role, name.as_str())?)),
        None => Ok(None),
    }
}

/// The bytes of a file that may be named.
pub fn bytes_of(bytes: &Option<Vec<u8>>) -> Option<&[u8]>
    ensures { option_map (λ b. b.now) result ≡ option_map (λ b. b.items) bytes.now }
{
    match bytes {
        Some(bytes) => Some(bytes.as_slice()),
        None => None,
    }
}
