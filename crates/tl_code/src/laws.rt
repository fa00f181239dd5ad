//! Laws of code and of the states that fit it. What a function calls are the laws that it rests on.
ghost use Rattle.tl_code.specs.Laws.{PlacesStand, FittingStands, RootStateStands, StandingFits, RootOwnsChildren};

use crate::code::Code;
use crate::state::ThreadState;
use tl_threads::laws::{
    rules_make_the_code_stand, the_beginning_stands_for_the_root, what_fits_stands,
    what_stands_fits,
};

fn shared<T: Send + Sync>(_value: &T) {}

/// Code can be sent to other threads of the program, and be read by several at once.
pub fn code_can_be_shared(code: &Code) {
    shared(code)
}

/// The state of a thread can be sent to another thread of the program.
pub fn states_can_be_shared(state: &ThreadState) {
    shared(state)
}

/// Each place of code stands for threads of its test: the instructions are those of the test's body, each name that is used is known, and
/// there are slots enough.
pub fn the_places_stand()
    ensures { PlacesStand }
{
    rules_make_the_code_stand();
}

/// A state that fits code stands for a thread of its test.
pub fn a_fitting_state_stands()
    ensures { FittingStands }
{
    the_places_stand();
    what_fits_stands();
}

/// The state at the beginning of code stands for the root thread of its test.
pub fn the_root_state_stands()
    ensures { RootStateStands }
{
    the_places_stand();
    the_beginning_stands_for_the_root();
}

/// A state that stands for a thread under code fits the code, where each child that it names is its own and its numbers of acts and forks
/// are below the greatest.
pub fn a_standing_state_fits()
    ensures { StandingFits }
{
    what_stands_fits();
}

/// The state at the beginning names no child.
pub fn the_root_state_names_no_child()
    ensures { RootOwnsChildren }
{}
