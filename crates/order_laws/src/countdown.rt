//! The smallest machine that meets the laws: each actor has a number of acts left, and may act while it has one. A slice has the acts
//! that are left, by actor; an actor past its end has none.

ghost use Rattle.order_laws.specs.Countdown.{left_at, taken, IsFirst, TwoOrders};
ghost use Rattle.std.specs.Prelude.{◌≡◌, ◌<◌, nat_lt};

/// Whether the actor has an act left.
pub fn may_act(left: &[u32], actor: usize) -> bool
    ensures { result ≡ nat_lt 0 (left_at left.now actor) }
{
    match left.get(actor) {
        Some(acts) => *acts > 0,
        None => false,
    }
}

/// Takes one act from the actor, which has to have one. The others keep theirs.
pub fn act(left: &mut [u32], actor: usize)
    requires { 0 < left_at left.old actor }
    ensures { left.new ≡ taken left.old actor }
{
    left[actor] -= 1;
}

/// The least actor that has an act left, or none where nobody has. It looks at each actor once.
pub fn first(left: &[u32]) -> Option<usize>
    ensures { IsFirst left.now result }
{
    for actor in 0..left.len() {
        if left[actor] > 0 {
            return Some(actor);
        }
    }
    None
}

/// Any two orders that are permitted and leave nobody an act have as many acts, and end equal.
pub fn two_whole_orders()
    ensures { TwoOrders }
{}
