//! What accepted cores come to. Each law is a function that does nothing, and whose contract states it.

ghost use Rattle.slot_theory.specs.Acceptance.{AcceptedCoresAreImpossible, AcceptsByTheCoreAlone};

/// Where a core and its proof are accepted under a path, no valid request answers the core's tests as
/// the path does, whatever it answers elsewhere.
pub fn accepted_cores_are_impossible()
    ensures { AcceptedCoresAreImpossible }
{}

/// Whether a core and its proof are accepted depends on the answers to the core's tests alone: what is
/// accepted under a path is accepted under each path that answers these tests alike.
pub fn accepts_by_the_core_alone()
    ensures { AcceptsByTheCoreAlone }
{}
