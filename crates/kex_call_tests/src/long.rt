//! Long texts.
ghost use Rattle.std.specs.Prelude.{◌≡◌, ◌++◌, IfOk};
ghost use Rattle.std.specs.List.{repeat};

use std::alloc::{AllocError, Global};

/// A front, `times` times a middle, and an end.
pub fn around(
    alloc: Global,
    front: &[u8],
    middle: &[u8],
    times: usize,
    end: &[u8],
) -> Result<Vec<u8>, AllocError>
    ensures { IfOk result (λ v. v.items ≡ (front.now ++ repeat times middle.now) ++ end.now) }
{
    let mut text = front.to_vec(alloc)?;
    let middles = middle.repeat(alloc, times)?;
    text.extend_from_slice(middles.as_slice())?;
    text.extend_from_slice(end)?;
    Ok(text)
}
