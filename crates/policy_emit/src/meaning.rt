//! What written policies say. Each law is a function that does nothing, and whose contract states it.
ghost use Rattle.policy_emit.specs.Laws.{EmittedPoliciesAreRead, EmittedSetsAllowFindings, EmittedSetsAllowTheSet};

use cidr_bits::{block_of_is_the_form, written_block_spells};
use findings::summaries_cover;
use policy_compile::tests_of_set_queries_suit;
use policy_json::operators_are_named;
use read_predicates::predicates_are_of_written_forms;

/// The text of findings is read as the set of their statements, where the strata are those of a set that a
/// file stands for, and there are at most 2,000 findings.
pub fn emitted_policies_are_read()
    ensures { EmittedPoliciesAreRead }
{
    operators_are_named();
    block_of_is_the_form();
    written_block_spells();
    predicates_are_of_written_forms();
}

/// The set of findings allows exactly the valid requests that lie in some of the findings.
pub fn emitted_sets_allow_findings()
    ensures { EmittedSetsAllowFindings }
{
    tests_of_set_queries_suit();
}

/// The set of a summary's findings allows each valid request that the summarised set allows.
pub fn emitted_sets_allow_the_set()
    ensures { EmittedSetsAllowTheSet }
{
    emitted_sets_allow_findings();
    summaries_cover();
}
