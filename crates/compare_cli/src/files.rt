//! Reads the files of a command, in the order of its line.
ghost use Rattle.std.specs.Prelude.{◌≡◌, ◌≤◌, ◌∷◌, [], option_map, string_bytes};
ghost use Rattle.run_inputs.specs.Readings.{AreFilesRead, file, one_content, reading_of};
ghost use Rattle.compare_cli.specs.LastFiles.{last_bytes, last_names};

use pol_outside::Folder;
use run_inputs::{EarlyEnd, Role, read_file, read_if_named};
use std::alloc::Global;

/// The bytes of the last file that a command's line has to name, and of a schema where one is named.
#[derive(Drop)]
pub(crate) struct LastFiles {
    pub file: Vec<u8>,
    pub schema: Option<Vec<u8>>,
}

/// The bytes of a file, or what is printed where it fails.
pub(crate) fn read_named<F: Folder>(
    alloc: Global,
    folder: &mut F,
    role: Role,
    name: &String,
) -> Result<Vec<u8>, EarlyEnd>
    ensures reads { AreFilesRead (file role (string_bytes name.now) ∷ []) one_content
        (reading_of F.held F.faults F.last_fault F.asked folder.old folder.new) result }
    ensures held { F.held folder.new ≡ F.held folder.old }
    ensures later { F.faults folder.old ≤ F.faults folder.new }
{
    read_file(alloc, folder, role, name.as_str())
}

/// The bytes of the last file of a command's line, and then of a schema where one is named, or what is printed
/// of the first that fails.
pub(crate) fn read_last<F: Folder>(
    alloc: Global,
    folder: &mut F,
    role: Role,
    name: &String,
    schema: &Option<String>,
) -> Result<LastFiles, EarlyEnd>
    ensures reads { AreFilesRead
        (last_names role (string_bytes name.now) (option_map (λ n. string_bytes n) schema.now))
        last_bytes
        (reading_of F.held F.faults F.last_fault F.asked folder.old folder.new) result }
    ensures held { F.held folder.new ≡ F.held folder.old }
    ensures later { F.faults folder.old ≤ F.faults folder.new }
{
    let file = read_named(alloc, folder, role, name)?;
    let schema = read_if_named(alloc, folder, Role::Schema, schema)?;
    Ok(LastFiles { file, schema })
}
