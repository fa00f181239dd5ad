//! Laws of threads and of code. Each function has no body: its contract is the law.
ghost use Rattle.tl_threads.specs.Laws.{OperandsAreValues, OneAction, CodeRefines};
ghost use Rattle.tl_threads.specs.Fits.{StandsFits, FitsStands, RootStands};
ghost use Rattle.tl_threads.specs.Behind.{ActsFit};
ghost use Rattle.tl_threads.specs.Allowed.{RulesAllow, AllowedIsChecked, RulesBound, RulesStand};
ghost use Rattle.tl_threads.specs.Regions.{MovesFit, RootFits, ThreadsMeetLaws};

use crate::code::Placed;

fn shared<T: Send + Sync>(_value: &T) {}

/// Placed instructions can be sent to other threads of the program, and be read by several at once.
pub fn code_can_be_shared(placed: &Placed) {
    shared(placed)
}

/// The number of an expression's postfix form is the number of the expression, where its variables are known and the slots have their
/// numbers.
pub fn operands_are_values()
    ensures { OperandsAreValues }
{}

/// Code gives one action, however many instructions may be executed for it.
pub fn code_gives_one_action()
    ensures { OneAction }
{}

/// Code does what the definitions say: where a place with its slots and counts stands for a thread, the code gives the thread's next
/// move from there, and stands for the thread behind it.
pub fn code_does_the_next_move()
    ensures { CodeRefines }
{}

/// Where a place with its slots and counts stands for a thread, it fits the place: depth and region are the thread's, each handle that is
/// known there names a child, and a count is kept for each `repeat` that is open there.
pub fn what_stands_fits()
    ensures { StandsFits }
{}

/// Each place of a test's code, with slots and counts that fit it, stands for a thread.
pub fn what_fits_stands()
    ensures { FitsStands }
{}

/// What fits a place of a test's code fits again behind an act, and so does a child that begins. A handle that is known there was known
/// before the act or is the one that was just forked, and a child that was joined is one of a handle that was known.
pub fn acts_fit_again()
    ensures { ActsFit }
{}

/// The beginning of a test's code stands for the root thread.
pub fn the_beginning_stands_for_the_root()
    ensures { RootStands }
{}

/// A test that keeps the rules for its ports has an allowed body: each name that is used is known, no child is forked into a lesser region,
/// and no child is joined that may be of a greater region.
pub fn rules_allow_the_body()
    ensures { RulesAllow }
{}

/// A test that keeps the rules for its ports takes at most 257 slots for variables, and 65 for handles.
pub fn rules_bound_the_slots()
    ensures { RulesBound }
{}

/// An allowed body is checked, where there are no fewer slots than names that are known at one place.
pub fn what_is_allowed_is_checked()
    ensures { AllowedIsChecked }
{}

/// The places of a test's code stand for threads, where the test keeps the rules for its ports and there are no fewer slots than names that
/// are known at one place.
pub fn rules_make_the_code_stand()
    ensures { RulesStand }
{}

/// Each move of a thread that respects regions respects them, whatever the circuit: children are forked into no lesser region, and a child
/// that is joined was forked and is of no greater region. So it goes on.
pub fn moves_respect_regions()
    ensures { MovesFit }
{}

/// The root thread of a test that keeps the rules respects regions.
pub fn the_root_respects_regions()
    ensures { RootFits }
{}

/// What the laws of orders ask of the threads of tests over a circuit comes down to this: a poke of an input outside the cone of a signal
/// leaves the value of the signal.
pub fn threads_meet_the_laws_of_orders()
    ensures { ThreadsMeetLaws }
{}
