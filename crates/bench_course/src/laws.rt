//! Laws of the course of a run. What a function calls are the laws that it rests on.
ghost use Rattle.std.specs.Thread.{IsSend};
ghost use Rattle.bench_course.specs.Laws.{FirstStands, TakingIsAct, EndingIsVerdict, MarksAndRoomUnseen};

use crate::course::Course;
use bench_acts::laws::a_commit_is_the_act_of_the_thread;
use bench_stands::laws::{
    count_is_told, edge_is_told, first_is_told, marks_are_unseen, spent_is_told,
};
use net_core::Engine;

/// The first course of a test's code stands for the first world of the test.
pub fn first_stands()
    ensures { FirstStands }
{
    first_is_told();
}

/// Where a course stands for a world, the course after an act that was prepared stands for the world after the act of the thread.
pub fn taking_is_the_act()
    ensures { TakingIsAct }
{
    a_commit_is_the_act_of_the_thread();
}

/// Where a course stands for a world, both have the same verdict at the end of the time step; the course with its last sample has what the
/// run gives that ends there; and the course in the next time step stands for the first world of that time step.
pub fn ending_is_the_verdict()
    ensures { EndingIsVerdict }
{
    spent_is_told();
    count_is_told();
    edge_is_told();
}

/// A course stands for the same world whatever marks its threads have, and whatever there is room for.
pub fn marks_and_room_are_unseen()
    ensures { MarksAndRoomUnseen }
{
    marks_are_unseen();
}

fn sent<T: Send>(_value: &T) {}

/// That a value's type can be sent, as a fact.
fn sendable<T: Send>(_value: &T)
    ensures { IsSend T.row }
{}

/// A course can be sent to another thread of the program where its engine can be.
pub fn courses_can_be_sent<E: Engine + Send>(course: &Course<E>) {
    let design = course.device().design();
    sendable(design.elab());
    sendable(design.net());
    sendable(course.threads());
    sent(course)
}
