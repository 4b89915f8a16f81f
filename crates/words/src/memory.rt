// A memory before and after a run.
ghost use Rattle.std.specs.Prelude.{◌≡◌, nat_eq, not, count_by};
ghost use Rattle.std.specs.List.{zip};
ghost use Rattle.words.specs.Changes.{changed_in};

// How many pairs of bytes, one of each memory, differ.
fn pairs_that_differ(before: &[u8], after: &[u8]) -> usize
    ensures { result ≡ count_by (λ p. not (nat_eq p.0 p.1)) (zip before.now after.now) }
{
    before.iter().zip(after).filter(|(a, b)| a != b).count()
}

// How many bytes of a memory changed: the places, as far as both go, at which the two are not the same.
pub fn changed(before: &[u8], after: &[u8]) -> usize
    ensures { result ≡ changed_in before.now after.now }
{
    pairs_that_differ(before, after)
}
