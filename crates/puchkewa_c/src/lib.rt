// The archive for C and Rust (include/puchkewa.h): each entry of crate puchkewa, exported under its name with the same clauses.
// Kept: each entry here and in puchkewa: a crate is built as a library or as an archive, no crate can use an archive, and `no_mangle` on a
// function of a library exports nothing. So the library has the entries for Rattle, and the archive one export for each.
#![tactic(auto)]

mod export; // the cleaning, for C and Rust
mod export_cautions; // which finished line may mean something else, for C and Rust
mod export_editions; // between the two C editions, for C and Rust
mod export_laborious; // the most laborious listing, for C and Rust
mod export_offsets; // tapes by offset from the load address, for C and Rust
mod export_start; // which start value gives this output, for C and Rust
mod export_states; // named states, for C and Rust
