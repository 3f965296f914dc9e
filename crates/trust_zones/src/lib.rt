//! Trust zones: reads the accounts, organisations, VPCs and blocks of addresses that a file lists, and
//! makes of a set of policies the one that allows what it allows from outside of them.
#![tactic(auto)]

mod denials;
mod fault;
mod file;
mod keys;
mod laws;
mod list;
mod outside_set;
mod requirement;
mod zone;

pub use fault::{ZoneAnswer, ZoneCode, ZoneFault};
pub use file::read_zone;
pub use laws::{zone_limits, zones_keep_schemas, zones_leave_the_outside};
pub use list::MOST_LISTED;
pub use outside_set::outside;
pub use zone::{BlockList, Zone};
