//! Laws of the chains that a report prints.
ghost use Rattle.run_text.specs.Chains.{ChainsFound};

/// A law: of the lists of signals from one to another in which each reads the next, a shortest one that is the least of these is the
/// chain; so there is at most one.
pub fn chains_are_found()
    ensures { ChainsFound }
{}
