// The kinds of a token that the cleaner asks about, by number. (Address is 5 and Prefix is 7.)
//
// Kept: numbers, as the C interface's tapes and the definitions have them. A kind that is read from a word or a tape is compared with one
// of these, put into another word or written to a tape; an enum would be made of the number only to be turned back, which is no plainer.
// The number costs `kind < 8` in four contracts: in lines words.rt, build append.rt and merge.rt, and tables writing.rt.
pub const PLAIN: u64 = 0;

pub const REGISTER: u64 = 1;

pub const NUMBER: u64 = 2;

pub const KEYWORD: u64 = 3;

pub const SYMBOL: u64 = 4;

pub const PUNCT: u64 = 6;
