// Parts of a text between separators.
ghost use Rattle.std.specs.Prelude.{◌≡◌, not, eqb};
ghost use Rattle.std.specs.List.{prefix_len};
ghost use Rattle.test_leaves.specs.Fields.{before, behind};

// How many bytes stand before the first b.
// Kept: crate words has the same for the byte 0 alone: this program would rest on a crate that it asks nothing of for one line, which is no
// plainer.
fn count_before(s: &[u8], b: u8) -> usize
    ensures { result ≡ prefix_len (λ x. not (eqb x b)) s.now }
{
    s.iter().take_while(|x| **x != b).count()
}

// What stands before the first b; all where there is none.
pub fn before(s: &[u8], b: u8) -> &[u8]
    ensures { result.now ≡ before s.now b }
{
    &s[..count_before(s, b)]
}

// What stands behind the first b; nothing where there is none.
pub fn behind(s: &[u8], b: u8) -> &[u8]
    ensures { result.now ≡ behind s.now b }
{
    match s.get(count_before(s, b) + 1..) {
        Some(rest) => rest,
        None => &[],
    }
}
