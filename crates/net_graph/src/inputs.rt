//! Sets of inputs, as bits.
ghost use Rattle.std.specs.Prelude.{◌≡◌, ◌<◌, ◌^◌, ◌||◌, ℕ, nat_eq};
ghost use Rattle.net_graph.specs.Reaching.{in_set, no_inputs};

/// A set of the at most 256 inputs of a net: a bit for each.
#[derive(Clone, Copy, Debug, PartialEq, Eq)]
pub(crate) struct InputSet {
    pub(crate) low: u128,
    pub(crate) high: u128,
}

/// The bit of an input among 128.
fn bit(k: u32) -> u128
    requires { k < 128 }
    ensures { result ≡ 2 ^ k }
{
    1 << k
}

impl InputSet {
    pub(crate) fn empty() -> InputSet
        ensures { result ≡ no_inputs }
    {
        InputSet { low: 0, high: 0 }
    }

    /// The set of one input.
    pub(crate) fn of(input: u32) -> InputSet
        requires { input < 256 }
        ensures { (p : ℕ) → in_set result p ≡ nat_eq p input }
    {
        if input < 128 {
            InputSet {
                low: bit(input),
                high: 0,
            }
        } else {
            InputSet {
                low: 0,
                high: bit(input - 128),
            }
        }
    }

    /// What is in either.
    pub(crate) fn union(self, other: InputSet) -> InputSet
        ensures { (p : ℕ) → in_set result p ≡ (in_set self p || in_set other p) }
    {
        InputSet {
            low: self.low | other.low,
            high: self.high | other.high,
        }
    }

    /// Whether the input is in it.
    pub(crate) fn contains(self, input: u32) -> bool
        ensures { result ≡ in_set self input }
    {
        if input < 128 {
            (self.low >> input) & 1 == 1
        } else if input < 256 {
            (self.high >> (input - 128)) & 1 == 1
        } else {
            false
        }
    }
}
