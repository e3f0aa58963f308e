// Whether SAIDs differ, pair by pair.
ghost use Rattle.std.specs.Prelude.{◌≡◌};
ghost use Rattle.questions.specs.Apart.{apart_at, pairs_apart};

// Whether two SAIDs differ, where the one at place `i` is among the first `n`.
fn is_apart(n: usize, i: usize, a: u16, b: u16) -> bool
    ensures { result ≡ apart_at n i a b }
{
    (n <= i) | (a != b)
}

// Whether the first `n` of four SAIDs differ.
pub fn all_apart(n: usize, a: u16, b: u16, c: u16, d: u16) -> bool
    ensures { result ≡ pairs_apart n a b c d }
{
    is_apart(n, 1, a, b)
        & is_apart(n, 2, a, c)
        & is_apart(n, 3, a, d)
        & is_apart(n, 2, b, c)
        & is_apart(n, 3, b, d)
        & is_apart(n, 3, c, d)
}
