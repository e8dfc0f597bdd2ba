// Bytes put into a lent slice one after the other, as far as they fit: no function needs to know how long what it puts may be.
// Kept: beside text's `Cursor`: each of its clauses asks for room for all that is put. What is put here has no length known before, so a
// byte that does not fit is left out, and that it was is noted; with `Cursor` every call would stand behind a test of its own for room.
ghost use Rattle.std.specs.Prelude.{◌≡◌, [], ◌∷◌};
ghost use Rattle.reference.specs.Tape.{to_le_bytes};
ghost use Rattle.listing_text.specs.Room.{Puts, page, empty};

// A lent slice, how far it is filled, and whether a byte did not fit.
#[derive(Drop)]
pub struct Clipped<'a> {
    pub out: &'a mut [u8],
    pub at: usize,
    pub cut: bool,
}

impl<'a> Clipped<'a> {
    pub fn new(out: &'a mut [u8]) -> Clipped<'a>
        ensures same_reference { result.out.ghost_name ≡ out.entry.ghost_name }
        ensures empty { page result ≡ empty out.old }
    {
        Clipped {
            out,
            at: 0,
            cut: false,
        }
    }

    pub fn put_byte(&mut self, b: u8)
        ensures { Puts self.old (b ∷ []) self.new }
    {
        let at = self.at;
        if at < self.out.len() {
            self.out[at] = b;
            self.at = at + 1;
        } else {
            self.cut = true;
        }
    }

    // Puts a text.
    // Kept: byte by byte: `copy_from_slice` is no plainer, since the part that fits would have to be counted and cut off first.
    pub fn put(&mut self, s: &[u8])
        ensures { Puts self.old s.now self.new }
    {
        for b in s {
            self.put_byte(*b);
        }
    }

    // Puts the lowest n bytes of a number, the lowest first.
    // Kept: a loop: the promise is of any n, and `v.to_le_bytes()[..n]` has no more than eight bytes; a promise is not given up.
    pub fn put_le(&mut self, v: u64, n: usize)
        ensures { Puts self.old (to_le_bytes n v) self.new }
    {
        let mut rest = v;
        for _ in 0..n {
            self.put_byte(rest.to_le_bytes()[0]);
            rest /= 256;
        }
    }
}
