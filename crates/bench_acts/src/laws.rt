//! Laws of acts. What a function calls are the laws that it rests on.
ghost use Rattle.bench_acts.specs.Laws.{CommitIsAct, CommitMayAdvance, OthersReadNothing};

use tl_prepare::laws::{children_stay_own, what_is_prepared_is_the_next_move};

/// What is committed is the next act of its thread in each world for which the table of threads stands: its event, the threads after it and
/// what is observed are those of the world's act.
pub fn a_commit_is_the_act_of_the_thread()
    ensures { CommitIsAct }
{
    children_stay_own();
    what_is_prepared_is_the_next_move();
}

/// What is committed may be carried out, where no thread is there under a child's number that its thread has not yet used: its thread is
/// there, and none is there with the path of the child that begins.
pub fn a_commit_may_be_carried_out()
    ensures { CommitMayAdvance }
{}

/// An act that is no peek and no expect leaves and shows the same, whatever number is given for what it read.
pub fn other_acts_read_nothing()
    ensures { OthersReadNothing }
{}
