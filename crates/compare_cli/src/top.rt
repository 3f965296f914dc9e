//! One run, from the arguments to the bytes that are written.
ghost use Rattle.std.specs.Prelude.{◌≡◌, ◌≤◌, None};
ghost use Rattle.pol_outside.specs.Faults.{Rose};
ghost use Rattle.command_words.specs.Asked.{asked_by};
ghost use Rattle.run_inputs.specs.Printing.{IsOfText};
ghost use Rattle.run_inputs.specs.Readings.{reading_of};
ghost use Rattle.compare_cli.specs.Commands.{IsCommandEnd, NameNoFile};
ghost use Rattle.compare_cli.specs.Complete.{IsAccepted, IsDecided};
ghost use Rattle.compare_cli.specs.Promises.{IsUsageOrFault, IsWritten, Promises};

use crate::commands::print_command;
use command_words::read_words;
use pol_outside::{Folder, Sink, put_all};
use run_inputs::{EarlyEnd, Printed, Status, printed_of};
use std::alloc::Global;

/// The line that says how the program is called: the form of each of the first nine commands, without options.
pub const USAGE: &str = "usage: compare FIRST SECOND | summary SET DIMENSION.. | \
    check FIRST SECOND PROOF | eval SET REQUEST | load N | idle SET | \
    reach SET ZONE DIMENSION.. | emit SET DIMENSION.. | check-summary SET PROOF DIMENSION..\n";

// What is printed to the arguments.
fn print<F: Folder>(
    alloc: Global,
    arguments: &[String],
    folder: &mut F,
) -> Result<Printed, EarlyEnd>
    ensures prints { IsCommandEnd (asked_by arguments.now)
        (reading_of F.held F.faults F.last_fault F.asked folder.old folder.new) result }
    ensures untouched { NameNoFile (asked_by arguments.now) → folder.new ≡ folder.old }
    ensures held { F.held folder.new ≡ F.held folder.old }
    ensures later { F.faults folder.old ≤ F.faults folder.new }
{
    match read_words(alloc, arguments)? {
        Some(command) => print_command(alloc, folder, &command),
        None => Ok(Printed {
            text: String::from_str(alloc, USAGE)?,
            status: Status::Usage,
        }),
    }
}

// Writes what is printed, and says how the run ends.
fn write<S: Sink>(printed: &Printed, out: &mut S) -> Status
    requires { IsOfText printed.now.status }
    ensures written { IsWritten printed.now
        (record {
          faults_before = S.faults out.old;
          faults = S.faults out.new;
          before = S.written out.old;
          now = S.written out.new;
        })
        result }
    ensures writes { S.faults out.old ≤ S.faults out.new }
{
    match put_all(out, printed.text.as_bytes()) {
        Ok(()) => printed.status,
        Err(_) => Status::WriteFault,
    }
}

/// Reads the files that the arguments name, answers, and writes the answer. The arguments are those
/// after the program's name.
///
/// - `promises`: what each status says, of what the arguments ask, the bytes that the folder holds and
///   the bytes that were written. With `Holds`
///   - `compare` and `check`: the second set allows each valid request that the first allows; what `compare`
///     printed with `--proof` is a certificate that `check` accepts, up to 67,108,864 bytes;
///   - `summary`: what was written are exactly the maximal irreducible findings of the set, each with a valid
///     request that the set allows and that lies in no finer finding; with `--proof` a certificate behind them;
///   - `new-access`: there is no finding, and the second set allows each valid request that the first allows; with
///     `--proof` a certificate behind it;
///   - `check-new-access`: each newly allowed request lies in a finding of the file that was checked, each of whose
///     requests is its finding's own, and none of whose findings is finer than another;
///   - `check-summary`: each valid request that the set allows lies in a finding of the file that was checked, each
///     of whose requests is its finding's own, and none of whose findings is finer than another;
///   - `reach`: the set allows no valid request from outside of the zone;
///   - `emit`: what was written is a policy that allows a valid request exactly where it lies in a finding;
///   - `idle`: each statement of the set is used, with a valid request that the set answers otherwise without it;
///   - `eval`: the set allows the request; `load`: each line is the first of an answer that the command would give
///     to the two sets.
///
///   With `Fails` a valid request was written that the first set allows and the second doesn't, whose line is read
///   again as that request; or exactly the maximal irreducible findings of what the first set allows and the second
///   doesn't were written, each with such a request that lies in no finer finding; or requests from outside of the
///   zone, one for each finding; or some statement is idle, with `--proof` a certificate of it; or `eval`'s set
///   doesn't allow the request. With `BadProof` the line is that
///   of the certificate's or the summary's first fault, or of the first node or finding that fails. A refusal, a
///   budget, a fault of reading and the usage line come only by their cause, with their line. With `ReadFault` the
///   folder's count of faults rose in this call, with `WriteFault` the sink's. With every answer but `ReadFault`, or
///   a `WriteFault` of its line, the name of the folder's last fault is as it was. The folder is asked for the
///   files in their order, once each, up to the first that fails, and for nothing else.
/// - `usage`: where the arguments ask for nothing, nothing else than `Usage` comes but for want of memory
///   or a fault of the sink.
/// - `untouched`: where they ask for nothing, or for a load, the folder is as before.
/// - `held`, `reads`, `writes`: what the folder holds stays as it is, and no count of faults falls.
/// - `complete`: an answer of the command comes under these conditions: files are accepted, the sets have a schema, it
///   has the dimensions, there is no fault, and memory isn't wanting. Budgets aren't below the need of the plain runs,
///   of the predicates and of the findings that must be looked at. With a certificate of findings the query of their
///   cover is within them too; with `emit` there are no more findings than statements of a set.
pub fn run<F: Folder, S: Sink>(
    alloc: Global,
    arguments: &[String],
    folder: &mut F,
    out: &mut S,
) -> Status
    ensures promises { Promises (asked_by arguments.now)
        (reading_of F.held F.faults F.last_fault F.asked folder.old folder.new)
        (record {
          faults_before = S.faults out.old;
          faults = S.faults out.new;
          before = S.written out.old;
          now = S.written out.new;
        })
        result }
    ensures usage { asked_by arguments.now ≡ None → IsUsageOrFault result }
    ensures untouched { NameNoFile (asked_by arguments.now) → folder.new ≡ folder.old }
    ensures held { F.held folder.new ≡ F.held folder.old }
    ensures reads { F.faults folder.old ≤ F.faults folder.new }
    ensures writes { S.faults out.old ≤ S.faults out.new }
    ensures complete { IsAccepted (F.held folder.old) (asked_by arguments.now)
        → ¬ Rose (F.faults folder.old) (F.faults folder.new)
        → ¬ Rose (S.faults out.old) (S.faults out.new)
        → IsDecided (asked_by arguments.now) result }
{
    match printed_of(print(alloc, arguments, folder)) {
        Ok(printed) => write(&printed, out),
        Err(_) => Status::NoMemory,
    }
}
