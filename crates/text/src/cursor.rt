// Bytes put into a lent slice one after the other.
ghost use Rattle.std.specs.Prelude.{◌≡◌, [], ◌∷◌, length};
ghost use Rattle.reference.specs.Tape.{to_le_bytes};
ghost use Rattle.text.specs.Cursor.{Fits, Puts};

use crate::copying::copy;

// A lent slice, and where the next byte goes.
#[derive(Drop)]
pub struct Cursor<'a> {
    pub out: &'a mut [u8],
    pub at: usize,
}

impl<'a> Cursor<'a> {
    // From a place in the slice on.
    pub fn new(out: &'a mut [u8], at: usize) -> Cursor<'a>
        ensures same_reference { result.out.ghost_name ≡ out.entry.ghost_name }
        ensures same_bytes { result.out.now ≡ out.old }
        ensures from { result.at ≡ at }
    {
        Cursor { out, at }
    }

    pub fn put_byte(&mut self, b: u8)
        requires { Fits self.old 1 }
        ensures { Puts self.old (b ∷ []) self.new }
    {
        self.put(&[b]);
    }

    // Puts a text.
    pub fn put(&mut self, s: &[u8])
        requires { Fits self.old (length s.now) }
        ensures { Puts self.old s.now self.new }
    {
        let end = self.at + s.len();
        copy(s, &mut self.out[self.at..end]);
        self.at = end;
    }

    // Puts the lowest n bytes of a number, the lowest first.
    // Kept: a loop: the promise is of any n, and `v.to_le_bytes()[..n]` has no more than eight bytes; a promise is not given up.
    pub fn put_le(&mut self, v: u64, n: usize)
        requires { Fits self.old n }
        ensures { Puts self.old (to_le_bytes n v) self.new }
    {
        let mut rest = v;
        for _ in 0..n {
            self.put(&rest.to_le_bytes()[..1]);
            rest /= 256;
        }
    }
}
