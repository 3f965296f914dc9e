//! The commands, with their names and numbers.

/// The names of the files of two sets, and that of a schema where one is named.
#[derive(Drop)]
pub struct FileNames {
    pub first: String,
    pub second: String,
    pub schema: Option<String>,
}

/// What `compare` is asked: the names, the splits and the product states that the search may need, and
/// whether a certificate is wanted.
#[derive(Drop)]
pub struct CompareArguments {
    pub names: FileNames,
    pub splits: u32,
    pub states: u32,
    pub certified: bool,
}

/// What `check` is asked: the names, and that of the certificate.
#[derive(Drop)]
pub struct CheckArguments {
    pub names: FileNames,
    pub proof: String,
}

/// What `eval` is asked: the names of the files of a set and of a request, and that of a schema where
/// one is named.
#[derive(Drop)]
pub struct EvalArguments {
    pub set: String,
    pub request: String,
    pub schema: Option<String>,
}

/// What findings are asked for, as of `emit`: the names of the files of a set, and of a schema where one is named;
/// the dimensions, at most four, different when ASCII letters are lowered; and the splits, product states and
/// findings that they may need.
#[derive(Drop)]
pub struct FindingArguments {
    pub set: String,
    pub dimensions: Vec<String>,
    pub schema: Option<String>,
    pub splits: u32,
    pub states: u32,
    pub findings: u32,
}

/// What `summary` is asked: the findings of the set, and whether a certificate is wanted.
#[derive(Drop)]
pub struct SummaryArguments {
    pub summary: FindingArguments,
    pub certified: bool,
}

/// What `reach` is asked: the findings of the set outside a zone, and the name of the zone's file.
#[derive(Drop)]
pub struct ReachArguments {
    pub summary: FindingArguments,
    pub zone: String,
}

/// What `idle` is asked: the names of the files of a set, and of a schema where one is named; the splits
/// and the product states that each statement may need, and whether certificates are wanted.
#[derive(Drop)]
pub struct IdleArguments {
    pub set: String,
    pub schema: Option<String>,
    pub splits: u32,
    pub states: u32,
    pub certified: bool,
}

/// What `check-summary` is asked: the names of the files of a set and of a certified summary, and of a schema
/// where one is named; the dimensions, as those of findings; and the product states for their predicates.
#[derive(Drop)]
pub struct CheckSummaryArguments {
    pub set: String,
    pub proof: String,
    pub dimensions: Vec<String>,
    pub schema: Option<String>,
    pub states: u32,
}

/// What `new-access` is asked: the findings of what the set allows and a second set doesn't, the name of the
/// second's file, and whether a certificate is wanted.
#[derive(Drop)]
pub struct NewAccessArguments {
    pub summary: FindingArguments,
    pub second: String,
    pub certified: bool,
}

/// What `check-new-access` is asked: the check of the findings of what the set allows and a second set doesn't, and
/// the name of the second's file.
#[derive(Drop)]
pub struct CheckNewAccessArguments {
    pub check: CheckSummaryArguments,
    pub second: String,
}

/// One of the commands.
#[derive(Drop)]
pub enum Command {
    Compare(CompareArguments),
    Check(CheckArguments),
    Summary(SummaryArguments),
    Eval(EvalArguments),
    /// The number of keys.
    Load(u32),
    Idle(IdleArguments),
    Reach(ReachArguments),
    /// The findings that a policy is written from.
    Emit(FindingArguments),
    CheckSummary(CheckSummaryArguments),
    NewAccess(NewAccessArguments),
    CheckNewAccess(CheckNewAccessArguments),
    /// The line that says how `new-access` and `check-new-access` are called, one of which is named with words that it
    /// doesn't take.
    MisusedNewAccess,
}
