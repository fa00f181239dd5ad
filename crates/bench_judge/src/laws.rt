//! Laws of judging. What a function calls are the laws that it rests on.
ghost use Rattle.bench_judge.specs.Laws.{JudgingIsTold};

use bench_course::laws::taking_is_the_act;
use bench_settle::laws::settling_is_told;
use bench_stands::laws::quiet_is_told;

/// Where a course stands for the world of a run that goes on, the course after an act, judged, stands for where the run stands after that act,
/// with the run's outcome.
pub fn judging_is_told()
    ensures { JudgingIsTold }
{
    taking_is_the_act();
    settling_is_told();
    quiet_is_told();
}
