//! The net.
ghost use Rattle.std.specs.Prelude.{◌≡◌, ℕ, ◌+◌, ◌++◌, [], ◌∷◌, IfOk, OnOk, IsErrOf, Some, None, length, map};
ghost use Rattle.std.specs.Ordering.{nat_cmp};
ghost use Rattle.std.specs.BTreeMap.{get};
ghost use Rattle.net_core.specs.Depends.{uninitialised};
ghost use Rattle.net_core.specs.Formed.{Formed, Sized};
ghost use Rattle.net_resolve.specs.declared.net.ResolveFault;
ghost use Rattle.net_resolve.specs.Resolved.{reset_signal, resets_from, condition_signal, NetOf};
ghost use Rattle.net_resolve.specs.Pass.{with_reset, equation_of, equations_from, is_open, first_open, condition_equation};

use crate::collect::collect_resets;
use crate::join::{Found, present};
use crate::walk::{number, place, walk_block};
use net_core::{Choice, Elab, Equation, GroundExpr, GroundReset, Net, Role, Signal, SignalInfo};
use sqlite_items::Items;
use std::alloc::Global;
use std::collections::BTreeMap;
use tb_base::{Memory, Name, Seq};
use thiserror::Error;

/// Why a circuit has no net.
#[derive(Debug, Drop, Error)]
pub enum ResolveFault {
    /// Some branch gives this signal no connect and no invalidation.
    #[error("signal {}: not initialised on every branch", .0.0)]
    NotInitialised(Signal),
    /// There wasn't enough memory.
    #[error("out of memory")]
    Memory(Memory),
}

impl From<Memory> for ResolveFault {
    ghost use Rattle.std.specs.Prelude.{◌≡◌};
    ghost use Rattle.net_resolve.specs.declared.net.ResolveFault.TheVariants as fault;

    ghost from_gives = { λ m e. e ≡ fault.Memory m };

    fn from(memory: Memory) -> ResolveFault {
        ResolveFault::Memory(memory)
    }
}

/// The choices of a register. Its reset is the last one, and gets a condition signal.
fn next_choices(
    alloc: Global,
    own: u32,
    choices: Seq<Choice>,
    reset: Option<GroundReset>,
    conds: &mut Vec<GroundExpr>,
) -> Result<Seq<Choice>, Memory>
    ensures conds { OnOk result (conds.new.items ≡ conds.old.items ++ reset_signal Role.Reg reset) }
    ensures choices { IfOk result (λ c. c ≡ with_reset reset (own + length conds.old.items) choices) }
{
    match reset {
        None => Ok(choices),
        Some(GroundReset { signal, init }) => {
            let k = number(own, conds.len())?;
            conds.push(signal)?;
            let mut taken = Vec::new(alloc);
            taken.push(Choice::Take(Some(init)))?;
            let mut choices = choices.into_vec();
            choices.push(Choice::When {
                cond: Signal(k),
                taken: Items::from_vec(taken),
                other: Items::new(alloc),
            })?;
            Ok(Seq::of(choices))
        }
    }
}

/// The equation of a signal of the circuit, whose choices were found.
fn equation(
    alloc: Global,
    own: u32,
    role: Role,
    found: Found,
    reset: Option<GroundReset>,
    conds: &mut Vec<GroundExpr>,
) -> Result<Equation, Memory>
    ensures conds { OnOk result (conds.new.items ≡ conds.old.items ++ reset_signal role reset) }
    ensures equation { IfOk result (λ q. q ≡ equation_of role found reset (own + length conds.old.items)) }
{
    match role {
        Role::Input => Ok(Equation::Input),
        Role::Reg => {
            let next = next_choices(alloc, own, found.choices, reset, conds)?;
            Ok(Equation::Reg { next })
        }
        Role::Output | Role::Inner | Role::Node => Ok(Equation::Comb(found.choices)),
    }
}

/// Adds it to the equations.
fn add_equation(equations: &mut Vec<Equation>, equation: Equation) -> Result<(), Memory>
    ensures { OnOk result (equations.new.items ≡ equations.old.items ++ equation ∷ []) }
{
    equations.push(equation)?;
    Ok(())
}

/// Whether some branch has no choice.
fn left_open(role: Role, found: &Found) -> bool
    ensures { result ≡ is_open role found.now }
{
    match role {
        Role::Input | Role::Reg => false,
        Role::Output | Role::Inner | Role::Node => !found.full,
    }
}

/// The equations of the circuit's own signals. The conditions get the resets behind them.
fn own_equations(
    alloc: Global,
    own: u32,
    signals: &[SignalInfo],
    mut table: BTreeMap<u32, Found>,
    mut resets: BTreeMap<u32, GroundReset>,
    conds: &mut Vec<GroundExpr>,
) -> Result<Vec<Equation>, ResolveFault>
    ensures left { (x : _) → IsErrOf result (ResolveFault.NotInitialised x) → first_open (λ q. get nat_cmp table q) 0 signals.now ≡ Some x.0 }
    ensures full { OnOk result (first_open (λ q. get nat_cmp table q) 0 signals.now ≡ None) }
    ensures conds { OnOk result (conds.new.items ≡ conds.old.items ++ resets_from (λ q. get nat_cmp resets q) 0 signals.now) }
    ensures equations { IfOk result (λ v. v.items ≡ equations_from (λ q. get nat_cmp table q) (λ q. get nat_cmp resets q) 0 (own + length conds.old.items) signals.now) }
{
    let mut equations = Vec::new(alloc);
    for k in 0..signals.len() {
        let role = signals[k].role;
        let x = place(k)?;
        let found = present(alloc, table.remove(&x));
        if left_open(role, &found) {
            return Err(ResolveFault::NotInitialised(Signal(x)));
        }
        let reset = resets.remove(&x);
        let equation = equation(alloc, own, role, found, reset, conds)?;
        add_equation(&mut equations, equation)?;
    }
    Ok(equations)
}

/// The circuit's signals, then one for each condition.
fn net_signals(
    alloc: Global,
    signals: &[SignalInfo],
    conds: &[GroundExpr],
) -> Result<Vec<SignalInfo>, Memory>
    ensures { IfOk result (λ v. v.items ≡ signals.now ++ map (λ c. condition_signal) conds.now) }
{
    let mut all = Vec::new(alloc);
    for signal in signals {
        let copy = signal.copy(alloc)?;
        all.push(copy)?;
    }
    for _cond in conds {
        all.push(SignalInfo {
            name: Name::of(Vec::new(alloc)),
            role: Role::Node,
            signed: false,
            width: Some(1),
            line: 0,
        })?;
    }
    Ok(all)
}

/// The equation of a condition's signal.
fn one_take(alloc: Global, cond: GroundExpr) -> Result<Equation, Memory>
    ensures { IfOk result (λ q. q ≡ condition_equation cond) }
{
    let mut choices = Vec::new(alloc);
    choices.push(Choice::Take(Some(cond)))?;
    Ok(Equation::Comb(Seq::of(choices)))
}

/// Adds the equations of the conditions' signals.
fn add_conditions(
    alloc: Global,
    equations: Vec<Equation>,
    conds: Vec<GroundExpr>,
) -> Result<Vec<Equation>, Memory>
    ensures { IfOk result (λ v. v.items ≡ equations.items ++ map condition_equation conds.items) }
{
    let mut equations = equations;
    for cond in conds {
        let equation = one_take(alloc, cond)?;
        equations.push(equation)?;
    }
    Ok(equations)
}

/// The net, from what the walk found and the conditions that it met.
fn net_of(
    alloc: Global,
    own: u32,
    signals: &[SignalInfo],
    table: BTreeMap<u32, Found>,
    resets: BTreeMap<u32, GroundReset>,
    conds: Vec<GroundExpr>,
) -> Result<Net, ResolveFault>
    ensures left { (x : _) → IsErrOf result (ResolveFault.NotInitialised x) → first_open (λ q. get nat_cmp table q) 0 signals.now ≡ Some x.0 }
    ensures full { OnOk result (first_open (λ q. get nat_cmp table q) 0 signals.now ≡ None) }
    ensures own { IfOk result (λ net. net.own ≡ own) }
    ensures signals { IfOk result (λ net. net.signals ≡ signals.now ++ map (λ c. condition_signal) (conds.items ++ resets_from (λ q. get nat_cmp resets q) 0 signals.now)) }
    ensures equations { IfOk result (λ net. net.equations ≡ equations_from (λ q. get nat_cmp table q) (λ q. get nat_cmp resets q) 0 (own + length conds.items) signals.now ++ map condition_equation (conds.items ++ resets_from (λ q. get nat_cmp resets q) 0 signals.now)) }
{
    let mut conds = conds;
    let equations = own_equations(alloc, own, signals, table, resets, &mut conds)?;
    let signals = net_signals(alloc, signals, &conds)?;
    let equations = add_conditions(alloc, equations, conds)?;
    Ok(Net {
        own,
        signals: Seq::of(signals),
        equations: Seq::of(equations),
    })
}

/// The net of a circuit.
///
/// Its first signals are the circuit's. Behind them stands one for each condition of a When, in the order of the body,
/// then one for each reset, in the order of the registers. Where the circuit is sized, a valuation meets the net's
/// equations exactly where it is settled and gives these signals the values of their conditions. Whatever expression
/// stands in an equation stands in the circuit.
///
/// `NotInitialised` is answered exactly where some branch gives a sink that is no register neither a connect nor an
/// invalidation, and names the least such signal. `Memory` also tells of a circuit with 2^32 conditions.
///
/// The time is linear in the size of the body and of the net, but for the steps in maps: a connect inside n Whens takes
/// n of them. The recursion is along the nesting of Whens and of expressions.
pub fn resolve(alloc: Global, elab: &Elab) -> Result<Net, ResolveFault>
    ensures net { Sized elab.now → IfOk result (λ net. NetOf elab.now net) }
    ensures initialised { Formed elab.now → OnOk result (uninitialised elab.now ≡ None) }
    ensures fault { Formed elab.now → (x : _) → IsErrOf result (ResolveFault.NotInitialised x) → uninitialised elab.now ≡ Some x.0 }
{
    let signals = elab.signals.items();
    let own = place(signals.len())?;
    let mut conds = Vec::new(alloc);
    let mut table = BTreeMap::new(alloc);
    let mut resets = BTreeMap::new(alloc);
    let _outside = walk_block(alloc, own, elab.body.items(), &mut conds, &mut table)?;
    collect_resets(alloc, elab.body.items(), &mut resets)?;
    net_of(alloc, own, signals, table, resets, conds)
}
