//! Marks of numbers, by which a search comes to each number once.
ghost use Rattle.std.specs.Prelude.{◌≡◌, ℕ, ◌⊎◌, true, false, length};
ghost use Rattle.net_graph.specs.Marks.{is_marked};

/// Marks the number, where it has a place, and says whether it had no mark.
pub(crate) fn is_new(marks: &mut [bool], x: u32) -> bool
    ensures only { (k : ℕ) → is_marked marks.new k ≡ true → (is_marked marks.old k ≡ true) ⊎ (k ≡ x) }
    ensures old { result ≡ false → is_marked marks.old x ≡ true }
{
    let place = x as usize;
    if place >= marks.len() {
        return true;
    }
    if marks[place] {
        return false;
    }
    marks[place] = true;
    true
}
