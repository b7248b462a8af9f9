// Places that are set to zero.
ghost use Rattle.std.specs.Prelude.{◌≡◌, length, replicate};

use kinds::Symbol;

// Writes zero into every place. By calls, since of a kind's `clone`, which `fill` makes, no law is known.
pub fn clear<S: Symbol>(ring: &mut [S])
    ensures { ring.new ≡ replicate (length ring.old) S.kind.zero }
{
    ring.fill_with(|| S::zero());
}
