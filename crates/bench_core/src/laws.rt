//! Laws of benches. What a function calls are the laws that it rests on.
ghost use Rattle.bench_core.specs.Laws.{FirstIsBench, PicksAreRight, MarksLeaveBenches, FreshMayGoOn, CommitsLeaveBenches, ResultsAreTold};

use bench_acts::laws::{a_commit_is_the_act_of_the_thread, a_commit_may_be_carried_out};
use bench_course::laws::{first_stands, marks_and_room_are_unseen, taking_is_the_act};
use bench_judge::laws::judging_is_told;
use bench_reach::laws::{worlds_are_bounded, worlds_are_possible, worlds_name_ports};
use bench_setting::laws::{log_is_formed, real_conflict};
use bench_stands::laws::{count_is_told, enabled_is_told, least_is_told, standing_fits};

/// The bench before the first act is one, and has no mark.
pub fn the_first_bench_is_one()
    ensures { FirstIsBench }
{
    first_stands();
    marks_and_room_are_unseen();
}

/// What a bench hands out may act and fits the code; where nothing is marked it is the next thread of the one-thread order.
pub fn picks_are_right()
    ensures { PicksAreRight }
{
    real_conflict();
    least_is_told();
    standing_fits();
    worlds_are_bounded();
}

/// A bench stays one whatever is marked, and whatever there is room for.
pub fn marks_leave_benches()
    ensures { MarksLeaveBenches }
{
    marks_and_room_are_unseen();
}

/// What is fresh may be taken and judged.
pub fn fresh_acts_may_go_on()
    ensures { FreshMayGoOn }
{
    real_conflict();
    worlds_are_bounded();
    worlds_name_ports();
    worlds_are_possible();
    log_is_formed();
    enabled_is_told();
    count_is_told();
    a_commit_is_the_act_of_the_thread();
    a_commit_may_be_carried_out();
    taking_is_the_act();
}

/// A bench that has taken and judged a fresh act is one, of the order with the path of that act behind it.
pub fn commits_leave_benches()
    ensures { CommitsLeaveBenches }
{
    real_conflict();
    judging_is_told();
    marks_and_room_are_unseen();
    enabled_is_told();
    fresh_acts_may_go_on();
}

/// A bench tells the result of its run, and has none exactly where the run has none.
pub fn results_are_told()
    ensures { ResultsAreTold }
{}
