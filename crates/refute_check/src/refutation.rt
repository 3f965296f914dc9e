//! Refutations.
use cnf_clauses::Hints;
use plain_lists::List;
use slot_theory::{Core, SlotProof};
use std::rc::Rc;

/// Answered tests with their answers, as a label names them.
pub type AnswerList = List<(u32, bool)>;

/// Why no valid request makes a query yes under a path of answered tests.
#[derive(Drop)]
pub enum Refutation {
    /// Neither answer to a test that the path leaves open leads to one.
    Split {
        test: u32,
        yes: Rc<Refutation>,
        no: Rc<Refutation>,
    },
    /// The tree's value under the path is no.
    ByValue,
    /// No value of one slot answers the tests of a core as the path does.
    BySlot {
        core: Core,
        /// It may stand in other refutations too.
        proof: Rc<SlotProof>,
    },
    /// Unit propagation from the path meets a conflict: the hints replay.
    ByClauses {
        hints: Hints,
    },
    /// A refutation that closes under answers of its own. The path has all of them, and their tests rise. Labels
    /// are numbered from 0 in reading order.
    Label {
        number: u32,
        answers: AnswerList,
        inner: Rc<Refutation>,
    },
    /// The refutation of a label that ended before, whose answers the path has.
    Reuse {
        number: u32,
    },
}
