// A program as a function from text to text.
ghost use Rattle.std.specs.Prelude.{◌≡◌, IfOk};
ghost use Rattle.opening.specs.Headed.{whole_text};

use crate::header::Opening;
use crate::programs::Program;
use std::alloc::{AllocError, Global};

// All that the program G prints for a text.
pub fn text_of<G: Program>(heap: Global, text: &[u8]) -> Result<Vec<u8>, AllocError>
    ensures { IfOk result (λ v. v.items ≡ whole_text G.echo G.body text.now) }
{
    let mut out = Vec::new(heap);
    let mut opening = Opening::<G>::new();
    let used = opening.open(heap, text, &mut out)?;
    if let Some(header) = opening.header() {
        G::print_body(heap, header, &text[used..text.len()], &mut out)?;
    }
    Ok(out)
}
