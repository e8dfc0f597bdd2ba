// What a new listing is built in.
use lines::texts::Size;

// A set that a listing is built in: its texts, its token words, and how much of it is in use.
#[derive(Drop)]
pub struct Builder<'a> {
    pub area: &'a mut [u8],
    pub tokens: &'a mut [u64],
    pub size: Size,
}
