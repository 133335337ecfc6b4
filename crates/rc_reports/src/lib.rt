//! The report on checks of annotations, which are kept and which are removed since facts prove that they
//! never fail: of region code (`specs/Reports`), and of a text (`specs/Inspected`).
#![tactic(auto)]

mod entry;
mod inspection;
mod listing;
mod reports;
mod site;
mod text;

pub use entry::{Entry, entries};
pub use inspection::{inspect, report};
pub use listing::{sites, sites_by_points};
pub use reports::region_code_has_one_report;
pub use site::Site;
pub use text::{removed_count, report_text};
