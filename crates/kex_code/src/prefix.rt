// The longest common prefix of some codes.

ghost use Rattle.std.specs.Prelude.{◌<◌, ◌∷◌, [], length};
ghost use Rattle.kex_code.specs.Prefixes.{IsCommonLength};

use crate::code::Code;
use crate::symbol::Symbol;

// On how many symbols both agree.
fn common(a: &[Symbol], b: &[Symbol]) -> usize
    ensures { IsCommonLength (a.now ∷ b.now ∷ []) result }
{
    let most = a.len().min(b.len());
    for i in 0..most {
        if a[i] != b[i] {
            return i;
        }
    }
    most
}

/// The greatest length on which all of these codes agree.
pub fn lcp(codes: &[Code]) -> usize
    requires { 0 < length codes.now }
    ensures { IsCommonLength codes.now result }
{
    let first = codes[0].as_slice();
    let mut agreed = first.len();
    for code in codes {
        agreed = common(&first[..agreed], code.as_slice());
    }
    agreed
}
