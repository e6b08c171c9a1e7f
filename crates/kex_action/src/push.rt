// A push without a call.

ghost use Rattle.std.specs.Prelude.{◌≡◌, ◌++◌, [], ◌∷◌, OnOk};

use kex_code::memory::Memory;

/// Puts one after others. There is room mostly: what makes room is apart.
#[inline(always)]
pub fn push<T: Copy>(all: &mut Vec<T>, one: T) -> Result<(), Memory>
    ensures { OnOk result (all.new.items ≡ all.old.items ++ one ∷ []) }
{
    if all.len() == all.capacity() {
        all.try_reserve(1)?;
    }
    all.push_reserved(one);
    Ok(())
}
