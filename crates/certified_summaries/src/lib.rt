//! What is printed of a summary with a certificate that it leaves out nobody, and of a check of one, whoever
//! wrote it.
#![tactic(auto)]

mod accepting;
mod certify;
mod check;
mod cover;
mod fault;
mod head;
mod made;
mod printing;
mod text;
mod wording;

pub use accepting::{
    certified_subjects_are_accepted, certified_summaries_decide, summary_checks_decide,
};
pub use fault::{HeadCode, HeadFault};
pub use printing::{
    print_certified_summary, print_findings_certified, print_subject_certified,
    print_subject_checked, print_summary_check,
};
