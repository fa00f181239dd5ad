//! The trait of engines.
ghost use Rattle.std.specs.Prelude.{◌≡◌, ◌<◌, ◌%◌, ◌^◌, List, ℕ, length, slice_index, slice_set};
ghost use Rattle.net_core.specs.declared.tree.Net.{Net};
ghost use Rattle.net_core.specs.Signals.{info, given_width};
ghost use Rattle.net_core.specs.Values.{word_of};
ghost use Rattle.net_core.specs.Engines.{IsInputOf, IsRegisterOf, ShowsSettled, AfterEdge};

use crate::ports::Signal;
use tb_base::Bits;

/// What runs a net.
///
/// An engine means its net, its inputs and its registers. `inputs` and `registers` have a place for each signal of the
/// net: an input's bits, or a register's, and 0 at all other places. What it keeps besides is its own affair.
///
/// No call takes memory, and none is refused.
pub trait Engine: Drop {
    ghost net: { Self → Net };

    ghost inputs: { Self → List ℕ };

    ghost registers: { Self → List ℕ };

    /// Sets an input to the low bits of `raw`, as many as it has. All else stays.
    fn poke(&mut self, input: Signal, raw: u128)
        requires { IsInputOf (net self.old) input.0 }
        ensures inputs { inputs self.new ≡ slice_set (inputs self.old) input.0 (raw % 2 ^ given_width (info (net self.old).signals input.0)) }
        ensures registers { registers self.new ≡ registers self.old }
        ensures net { net self.new ≡ net self.old };

    /// The settled value of a signal. Net, inputs and registers stay.
    fn value(&mut self, signal: Signal) -> Bits
        requires { signal.0 < length (net self.old).signals }
        ensures value { ShowsSettled (net self.old) (inputs self.old) (registers self.old) signal.0 result }
        ensures inputs { inputs self.new ≡ inputs self.old }
        ensures registers { registers self.new ≡ registers self.old }
        ensures net { net self.new ≡ net self.old };

    /// The clock's rising edge: each register gets its next value. Net and inputs stay.
    fn edge(&mut self)
        ensures registers { AfterEdge (net self.old) (inputs self.old) (registers self.old) (registers self.new) }
        ensures inputs { inputs self.new ≡ inputs self.old }
        ensures net { net self.new ≡ net self.old };

    /// The bits of an input.
    fn input(&self, input: Signal) -> u128
        requires { IsInputOf (net self.now) input.0 }
        ensures value { result ≡ slice_index (inputs self.now) input.0 }
        ensures places { length (inputs self.now) ≡ length (net self.now).signals };

    /// The value of a register.
    fn state(&self, register: Signal) -> Bits
        requires { IsRegisterOf (net self.now) register.0 }
        ensures value { result ≡ word_of (info (net self.now).signals register.0) (slice_index (registers self.now) register.0) }
        ensures places { length (registers self.now) ≡ length (net self.now).signals };
}
