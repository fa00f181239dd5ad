//! What the equations of a net read.
ghost use Rattle.std.specs.Prelude.{◌≡◌, ℕ, [], length, map, OnOk, IfOk};
ghost use Rattle.net_core.specs.Last.{source_mentions};
ghost use Rattle.net_core.specs.Values.{mentions, any};
ghost use Rattle.net_core.specs.Nets.{choices_of, choices_read, one_choice, nothing, equation_reads, net_reads};
ghost use Rattle.net_graph.specs.Graphs.{reads_in};
ghost use Rattle.net_graph.specs.Mentions.{Grown};

use net_core::{Choice, Equation, GroundExpr, Net};
use std::alloc::Global;
use tb_base::{Memory, Seq};

/// Adds the signals of the expression.
#[cycle(mention)]
fn add_expr(expr: &GroundExpr, found: &mut Vec<u32>) -> Result<(), Memory>
    ensures { OnOk result (Grown found.old.items found.new.items (mentions expr.now)) }
{
    match expr {
        GroundExpr::Read(signal) => {
            found.push(signal.0)?;
            Ok(())
        }
        GroundExpr::Lit { .. } => Ok(()),
        GroundExpr::Apply { args, .. } => add_exprs(args.as_slice(), found),
        GroundExpr::Select { index, items } => {
            add_expr(index.get(), found)?;
            add_exprs(items.as_slice(), found)
        }
        GroundExpr::IndexIs { index, .. } => add_expr(index.get(), found),
    }
}

/// Adds the signals of the expressions.
#[cycle(mention)]
fn add_exprs(exprs: &[GroundExpr], found: &mut Vec<u32>) -> Result<(), Memory>
    ensures { OnOk result (Grown found.old.items found.new.items (λ y. any (map (λ e. mentions e y) exprs.now))) }
{
    for expr in exprs {
        add_expr(expr, found)?;
    }
    Ok(())
}

fn add_value(value: &Option<GroundExpr>, found: &mut Vec<u32>) -> Result<(), Memory>
    ensures { OnOk result (Grown found.old.items found.new.items (source_mentions value.now)) }
{
    match value {
        None => Ok(()),
        Some(expr) => add_expr(expr, found),
    }
}

/// Adds what the choice reads, its conditions included.
#[cycle(choose)]
fn add_choice(choice: &Choice, found: &mut Vec<u32>) -> Result<(), Memory>
    ensures { OnOk result (Grown found.old.items found.new.items (choices_read (one_choice choice.now nothing))) }
{
    match choice {
        Choice::Take(value) => add_value(value, found),
        Choice::When { cond, taken, other } => {
            found.push(cond.0)?;
            add_choices(taken.as_slice(), found)?;
            add_choices(other.as_slice(), found)?;
            Ok(())
        }
    }
}

/// Adds what the choices read.
#[cycle(choose)]
fn add_choices(choices: &[Choice], found: &mut Vec<u32>) -> Result<(), Memory>
    ensures { OnOk result (Grown found.old.items found.new.items (choices_read (choices_of choices.now))) }
{
    for choice in choices {
        add_choice(choice, found)?;
    }
    Ok(())
}

fn choice_list(alloc: Global, choices: &[Choice]) -> Result<Seq<u32>, Memory>
    ensures { IfOk result (λ list. Grown [] list (choices_read (choices_of choices.now))) }
{
    let mut found = Vec::new(alloc);
    add_choices(choices, &mut found)?;
    Ok(Seq::of(found))
}

/// What an equation reads within a cycle: an input and a register read nothing.
fn reads_of(alloc: Global, equation: &Equation) -> Result<Seq<u32>, Memory>
    ensures { IfOk result (λ list. Grown [] list (equation_reads equation.now)) }
{
    match equation {
        Equation::Input => Ok(Seq::of(Vec::new(alloc))),
        Equation::Reg { .. } => Ok(Seq::of(Vec::new(alloc))),
        Equation::Comb(choices) => Ok(choice_list(alloc, choices.items())?),
    }
}

/// For each signal of the net what it reads within a cycle, conditions included, as often as it stands there. The
/// time is linear in the net.
pub(crate) fn read_lists(alloc: Global, net: &Net) -> Result<Vec<Seq<u32>>, Memory>
    ensures places { IfOk result (λ v. length v.items ≡ length net.now.equations) }
    ensures reads { IfOk result (λ v. (x y : ℕ) → reads_in v.items x y ≡ net_reads net.now x y) }
{
    let mut lists = Vec::new(alloc);
    for equation in net.equations.items() {
        lists.push(reads_of(alloc, equation)?)?;
    }
    Ok(lists)
}
