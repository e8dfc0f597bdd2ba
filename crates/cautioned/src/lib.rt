// The cautions of a cleaning: a tape in; out, for each finished line, the set of the reasons why it may mean something else than the raw
// lines that it came from (crate cautions has the reasons).
#![tactic(auto)]

mod call; // the questions, then the sets
mod telling; // the cleaning with its sets, and their bytes

pub use call::cautions;
