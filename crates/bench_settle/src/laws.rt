//! Laws of settling. What a function calls are the laws that it rests on.
ghost use Rattle.bench_settle.specs.Laws.{SettlingIsTold};

use bench_course::laws::ending_is_the_verdict;
use bench_stands::laws::quiet_is_told;

/// Where a course stands for a world, the settled course stands for what settling the world gives.
pub fn settling_is_told()
    ensures { SettlingIsTold }
{
    ending_is_the_verdict();
    quiet_is_told();
}
