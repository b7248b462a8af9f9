// Memory for the ends of a run.
ghost use Rattle.std.specs.Prelude.{◌≡◌, replicate, IfOk};

use std::alloc::{AllocError, Global};

// A window or a place of this length.
pub fn filled<T: Copy>(heap: Global, value: T, len: usize) -> Result<Vec<T>, AllocError>
    ensures { IfOk result (λ v. v.items ≡ replicate len value) }
{
    // Not `vec!`: it clones, and a clone of a T need not be equal to it.
    let mut places = Vec::new(heap);
    places.resize(len, value)?;
    Ok(places)
}
