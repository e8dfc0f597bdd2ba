// The numbers of the store.

pub const CELL_BYTES: usize = 65536;

// Eight cells.
pub const STORE_BYTES: usize = 524288;

// What a cell has for its tape, behind its first byte, the name and the length.
pub const ROOM_BYTES: usize = 65523;
