// What the cautions ask of one use of a joined expression, as functions over token words: what tokens read and how wide they are, what
// stands beside the use, and the cautions of a rewritten line, in two parts. The first is told by the line before the join, the second by
// the new line alone, since the old line's words may be gone when the new line stands.
//
// A run of tokens is a slice of words: a line, a part of one, or the words of a right side, copied out of its line by `copy_expr`.
#![tactic(auto)]

mod acts; // calls beside a use
mod constants; // numbers that C may read otherwise
mod copies; // the words of a right side, copied
mod kept; // whether the width and the sign stay
mod moves; // whether a call or a read moves
mod oldline; // a line's cautions before the join, over all its uses
mod parts; // a line's cautions in two parts
mod reads; // what tokens read
mod rest; // what a line reads beside a use
mod sides; // what stands beside a use
mod usekinds; // the kinds of one use
mod uses; // an expression that is put into a line, and the widths of its use
mod widths; // how wide tokens are

pub use acts::acts_beside;
pub use constants::{count_numbers, has_wild, is_tame};
pub use copies::copy_expr;
pub use oldline::before_line;
pub use parts::{After, Before, after_line, finish, given};
pub use reads::{is_changeable, is_volatile_token, is_world};
pub use sides::{compares, is_apart, is_whole};
pub use usekinds::{use_kinds, use_sums};
pub use uses::Joining;
pub use widths::{cast_width, full};
