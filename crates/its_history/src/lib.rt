//! Traces of runs: the lines of calls and replies by their places in the history, and the report
//! that they are printed as.
#![tactic(auto)]

mod calls;
mod faults;
mod left;
mod lines;
mod numbers;
mod read_back;
mod reading;
mod replies;
mod report;
mod text;
mod threads;
mod trace;

pub use faults::{restore_fault_text, save_fault_text};
pub use read_back::{printed_reports_are_read, read_reports_print};
pub use reading::{TraceError, parse_trace};
pub use report::{
    answered_text, end_text, entry_text, leg_text, pending_text, reply_text, report_text,
    told_text, vcpu_text,
};
pub use text::{Text, its_mark};
pub use threads::{ThreadList, merge, merge_gives, merge_lines, thread_gives};
pub use trace::{End, EntryLine, Leg, Trace};
