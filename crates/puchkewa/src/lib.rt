// The library: every entry, for Rattle by `use`. The entries for C and Rust (include/puchkewa.h) stand here with their contracts, as
// functions on numbers; crate puchkewa_c exports them in the archive. The work is done in the crates below.
#![tactic(auto)]

mod export; // the cleaning, for C and Rust
mod export_cautions; // which finished line may mean something else, for C and Rust
mod export_editions; // between the two C editions, for C and Rust
mod export_laborious; // the most laborious listing, for C and Rust
mod export_offsets; // tapes by offset from the load address, for C and Rust
mod export_start; // which start value gives this output, for C and Rust
mod export_states; // named states, for C and Rust

pub use answers::{Answer, Reason, Refusal};
pub use cautioned::cautions;
pub use clean::{Finished, clean};
pub use editions::{to_2018, to_2024};
pub use export::{Report, Settings, puchkewa_clean};
pub use export_cautions::puchkewa_cautions;
pub use export_editions::{puchkewa_to_2018, puchkewa_to_2024};
pub use export_laborious::puchkewa_laborious;
pub use export_offsets::{puchkewa_from_offsets, puchkewa_to_offsets};
pub use export_start::puchkewa_start_value;
pub use export_states::{puchkewa_delete, puchkewa_restore, puchkewa_save};
pub use ground::rules::Rules;
pub use laborious::laborious;
pub use offsets::{from_offsets, to_offsets};
pub use start::start_value;
pub use states::{delete, restore, save};
