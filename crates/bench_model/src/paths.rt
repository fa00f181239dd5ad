//! The order of paths, as a function.

ghost use Rattle.bench_model.specs.Paths.{path_cmp};
ghost use Rattle.std.specs.Prelude.{◌≡◌};

use std::cmp::Ordering;

/// Compares two paths number by number; a path is less than the longer ones that begin with it. It looks at each number of the
/// shorter path at most once.
pub fn compare_paths(first: &[u32], second: &[u32]) -> Ordering
    ensures { result ≡ path_cmp first.now second.now }
{
    first.cmp(second)
}
