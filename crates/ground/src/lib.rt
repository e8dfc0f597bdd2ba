// What calls, tapes and tables share: the settings of a call, and the kinds of a token.
#![tactic(auto)]

pub mod kinds; // the kinds of a token, by number
pub mod rules; // the settings of a call
