//! What a table tells of a world for whose threads it stands. What a function calls are the laws that it rests on.
ghost use Rattle.bench_stands.specs.Laws.{QuietIsTold, EnabledIsTold, LeastIsTold, SpentIsTold, CountIsTold, EdgeIsTold, FirstIsTold, EntriesFit, MarksAreUnseen};

use tl_code::laws::{a_standing_state_fits, the_root_state_names_no_child, the_root_state_stands};

/// Nobody may act by the table exactly where nobody may act in the world.
pub fn quiet_is_told()
    ensures { QuietIsTold }
{}

/// The table says of each path whether its thread is enabled in the world.
pub fn enabled_is_told()
    ensures { EnabledIsTold }
{}

/// The thread that the table hands out next is there, is enabled and isn't marked; where there is none, each enabled thread is marked. Where
/// no thread is marked, it is the thread of the least enabled path of the world.
pub fn least_is_told()
    ensures { LeastIsTold }
{}

/// The first spent thread of the table is the first spent thread of the world.
pub fn spent_is_told()
    ensures { SpentIsTold }
{}

/// The table has as many threads as the world.
pub fn count_is_told()
    ensures { CountIsTold }
{}

/// After an edge the table stands for the threads of the world after an edge.
pub fn edge_is_told()
    ensures { EdgeIsTold }
{}

/// The table of the root thread at the beginning of a test's code stands for the root thread of the first world.
pub fn first_is_told()
    ensures { FirstIsTold }
{
    the_root_state_stands();
    the_root_state_names_no_child();
}

/// The state of a thread of the table fits the code, where the thread's numbers of acts and of children are below the greatest.
pub fn standing_fits()
    ensures { EntriesFit }
{
    a_standing_state_fits();
}

/// The table stands for the same threads with a mark more or less, and without marks.
pub fn marks_are_unseen()
    ensures { MarksAreUnseen }
{}
