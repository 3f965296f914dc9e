//! What is read of ids, of operators' names and of whole files. Each law is a function that does nothing,
//! and whose contract states it.
ghost use Rattle.policy_json.specs.Laws.{AccountsAreRead};
ghost use Rattle.policy_json.specs.OperatorNames.{OperatorsAreNamed};
ghost use Rattle.policy_json.specs.ReadForms.{ReadSetsAreOfForms, SetLimits};

/// An id is read as an account exactly where it is the account's twelve digits or the ARN of its root.
pub fn accounts_are_read()
    ensures { AccountsAreRead }
{}

/// A name is read as an operator exactly where it is how that operator is written, and `Null` is written
/// without a prefix and a suffix. So no two operators have one name.
pub fn operators_are_named()
    ensures { OperatorsAreNamed }
{}

/// Sets that files stand for have forms that not every sound set has. Under `AWS` no kind of principals stands
/// alone. Exact ids have no wildcards and spell no accounts. Some text stands for each pattern and each value.
/// Documents, statements and guards are within the limits.
pub fn read_sets_are_of_forms()
    ensures { ReadSetsAreOfForms }
{}

/// A set has at most 32 documents, 16 guards and 2,000 statements, and an id at most 2,048 characters.
pub fn set_limits()
    ensures { SetLimits }
{}
