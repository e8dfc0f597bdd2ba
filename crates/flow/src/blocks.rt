// The lines that close and open a block, by the braces without a partner of each line.
ghost use Rattle.std.specs.Prelude.{ℕ, ◌≡◌, ◌+◌, ◌≤◌, ◌<◌, drop, take, reverse, length};
ghost use Rattle.reference.specs.Options.{option_of};
ghost use Rattle.flow.specs.Blocks.{closer_by, opener_by, FewBraces};

use crate::lineforms::LineForm;

// The line that closes what line k opens.
pub fn closer(forms: &[LineForm], k: usize) -> Option<usize>
    requires { FewBraces forms.now × (k < length forms.now) × (length forms.now ≤ 256) }
    ensures { option_of result ≡ closer_by 0 (k + 1) (drop (k + 1) forms.now) }
{
    let mut d = 0;
    for m in k + 1..forms.len() {
        let r = forms[m];
        if d < r.closes {
            return Some(m);
        }
        d = d - r.closes + r.opens;
    }
    None
}

// The line that opens what line k closes.
pub fn opener(forms: &[LineForm], k: usize) -> Option<usize>
    requires { FewBraces forms.now × (k < length forms.now) × (length forms.now ≤ 256) }
    ensures { option_of result ≡ opener_by 0 (reverse (take k forms.now)) }
{
    let mut d = 0;
    for j in 0..k {
        let m = k - 1 - j;
        let r = forms[m];
        if d < r.opens {
            return Some(m);
        }
        d = d - r.opens + r.closes;
    }
    None
}
