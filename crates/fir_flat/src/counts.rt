//! Counts that end at one past the greatest limit, so that no circuit makes them wrap.
ghost use Rattle.std.specs.Prelude.{◌≡◌, ◌+◌, ◌*◌, ℕ, IfOk};
ghost use Rattle.fir_flat.specs.Counts.{cut};

use tb_base::Memory;

/// One past the greatest limit.
pub(crate) const CUT: u64 = 4_194_305;

/// The sum, at most one past the limit.
pub(crate) fn sum(a: u64, b: u64) -> u64
    ensures { result ≡ cut (a + b) }
{
    a.saturating_add(b).min(CUT)
}

/// The product, at most one past the limit.
pub(crate) fn product(a: u64, b: u64) -> u64
    ensures { result ≡ cut (a * b) }
{
    a.saturating_mul(b).min(CUT)
}

/// The number that a count stands for. A count past the limit is a want of memory: no circuit
/// within the limits that keeps the rules needs one.
pub(crate) fn exact(count: u64) -> Result<u32, Memory>
    ensures { (n : ℕ) → count ≡ cut n → IfOk result (λ r. r ≡ n) }
{
    if count < CUT {
        Ok(count as u32)
    } else {
        Err(Memory)
    }
}
