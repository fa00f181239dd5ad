//! Whether two threads stand at the same state.
//!
//! No call takes memory. The first difference ends it, so its time is linear in the size of the lesser of the two.
ghost use Rattle.std.specs.Prelude.{◌≡◌, ◌↔◌, true};

use tb_base::Path;
use tl_code::ThreadState;

fn same_child(this: &Option<Path>, that: &Option<Path>) -> bool
    ensures { (result ≡ true) ↔ (this.now ≡ that.now) }
{
    match this {
        None => that.is_none(),
        Some(path) => match that {
            None => false,
            Some(that_path) => path == that_path,
        },
    }
}

fn same_children(these: &[Option<Path>], those: &[Option<Path>]) -> bool
    ensures { (result ≡ true) ↔ (these.now ≡ those.now) }
{
    if these.len() != those.len() {
        return false;
    }
    let mut k = 0;
    while k < these.len() {
        if !same_child(&these[k], &those[k]) {
            return false;
        }
        k += 1;
    }
    true
}

/// Whether two states are the same: path, region, place, numbers, children and counts, and how often the thread has forked and acted.
pub fn same_state(this: &ThreadState, that: &ThreadState) -> bool
    ensures { (result ≡ true) ↔ (this.now ≡ that.now) }
{
    this.pc == that.pc
        && this.acts == that.acts
        && this.forks == that.forks
        && this.region == that.region
        && this.path == that.path
        && same_child(&this.joined, &that.joined)
        && this.loops.items() == that.loops.items()
        && this.locals.items() == that.locals.items()
        && same_children(this.handles.items(), that.handles.items())
}
