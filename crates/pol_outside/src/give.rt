// Bytes in memory, given up to a limit.
ghost use Rattle.std.specs.Prelude.{◌≢◌, ◌≤◌, [], Some, Err};
ghost use Rattle.pol_outside.specs.declared.folder.TheConstants.{MOST_TAKEN};
ghost use Rattle.pol_outside.specs.Folder.{Takes, one_file};

use crate::TakeFault;

/// Adds the bytes of a file to `into`, up to the limit. A file in memory never fails.
pub(crate) fn give(bytes: &[u8], limit: u64, into: &mut Vec<u8>) -> Result<(), TakeFault>
    requires { limit ≤ MOST_TAKEN }
    ensures given { Takes (one_file (Some bytes.now)) [] limit result into.old.items
        into.new.items }
    ensures not_failed { result ≢ Err TakeFault.Failed }
{
    let most = limit as usize;
    let given = if bytes.len() > most {
        &bytes[..most + 1]
    } else {
        bytes
    };
    if into.extend_from_slice(given).is_err() {
        return Err(TakeFault::NoMemory);
    }
    if bytes.len() > most {
        return Err(TakeFault::TooLong);
    }
    Ok(())
}
