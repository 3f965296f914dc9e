//! What a clausal proof says of all requests, by a function that does nothing and whose contract is the law.
ghost use Rattle.clause_proofs.specs.Laws.{ClausalProofsRefute};

/// Where lines refute a query, no valid request makes it yes, whoever wrote them.
pub fn clausal_proofs_refute()
    ensures { ClausalProofsRefute }
{}
