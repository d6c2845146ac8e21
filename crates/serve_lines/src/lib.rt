//! The lines of a rack that is served: which lines can be served, listening at their ports, opening them for threads, the
//! workers of their masters with the sessions that they keep, and closing the lines and writing their audit texts when serving
//! has ended; it accepts no connection, which serve_rack does.
#![tactic(auto)]

mod audits;
mod listening;
mod master_pool;
mod opened_lines;
mod served_line;

pub use audits::write_audits;
pub use listening::{Listeners, check_descriptors, listen_at_lines, ports_of};
pub use master_pool::{MasterPool, ServedMasters, serve_masters};
pub use opened_lines::{OpenedLines, SeatedWorkers, ServedLines, open_lines};
pub use served_line::{ServedLine, lines_to_serve};
