//! Laws of prepared actions. What a function calls are the laws that it rests on.
ghost use Rattle.tl_prepare.specs.Laws.{PreparedIsNext, ChildrenStayOwn, PreparedFits, FitsWithinBounds};

use tl_code::laws::the_places_stand;
use tl_threads::laws::{acts_fit_again, code_does_the_next_move, code_gives_one_action};

/// What is prepared is the thread's next move, under each code that has the instructions that were read and under which the state stands
/// for the thread; and the states behind it stand for the threads behind it.
pub fn what_is_prepared_is_the_next_move()
    ensures { PreparedIsNext }
{
    code_does_the_next_move();
    code_gives_one_action();
}

/// The states that are prepared of a state which names its own children alone name their own children alone, and so does what they say of a
/// join. So they fit each code under which they stand for threads, where their numbers of acts and forks are below the greatest.
pub fn children_stay_own()
    ensures { ChildrenStayOwn }
{}

/// The states that are prepared of a state which fits some code fit the code again, where it has the instructions that were read: but for
/// the bounds on their numbers of acts and forks.
pub fn what_is_prepared_fits_again()
    ensures { PreparedFits }
{
    the_places_stand();
    acts_fit_again();
}

/// A state that fits code but for the bounds fits it, where its numbers of acts and forks are below the greatest.
pub fn within_the_bounds_it_fits()
    ensures { FitsWithinBounds }
{}
