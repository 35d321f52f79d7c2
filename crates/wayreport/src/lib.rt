//! Reports of a search: the text of one, its reading, and the sum of the reports of all parts. No machine is known
//! here.
#![tactic(auto)]

mod events;
pub mod laws;
mod reading;
mod report;
mod right;
mod sum;
mod text;
mod total;

pub use events::{first_text, lines_of};
pub use reading::{REPORT_LIMIT, ReportFault, read_report};
pub use report::{Found, Part, Report, found_of};
pub use sum::{SumFault, sum_reports};
pub use text::{VERSION, digest, report_text, ways_text};
