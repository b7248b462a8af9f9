// A kind of symbol: symbols that can be added, and taken away again.
ghost use Rattle.std.specs.Prelude.{◌≡◌};
ghost use Rattle.kinds.specs.Kind.{Kind};

pub trait Symbol: Copy {
    // What the four functions answer, with the laws that each `impl` owes.
    ghost kind: { Kind Self };

    fn zero() -> Self
        ensures { result ≡ kind.zero };

    fn sum(self, other: Self) -> Self
        ensures { result ≡ kind.sum self other };

    fn difference(self, other: Self) -> Self
        ensures { result ≡ kind.difference self other };

    // A symbol that is not zero.
    fn nonzero() -> Self
        ensures { result ≡ kind.nonzero };
}
