//! Copies that equal what they copy.
//!
//! Each call goes once over the tree: its time and memory are linear in the tree's size. Where memory is wanting, what
//! was copied so far is dropped. The recursion is along the nesting of expressions, of blocks and of choices; lists are
//! copied by loops.
ghost use Rattle.std.specs.Prelude.{◌≡◌, IfOk};

use crate::tree::{Choice, Elab, Equation, Ground, GroundExpr, GroundReset, Net, SignalInfo};
use sqlite_items::{Boxed, Items};
use std::alloc::Global;
use tb_base::{Memory, Seq};

impl SignalInfo {
    /// A copy, or `Memory`.
    pub fn copy(&self, alloc: Global) -> Result<SignalInfo, Memory>
        ensures { IfOk result (λ s. s ≡ self.now) }
    {
        let name = self.name.copy(alloc)?;
        Ok(SignalInfo {
            name,
            role: self.role,
            signed: self.signed,
            width: self.width,
            line: self.line,
        })
    }
}

fn copy_signals(alloc: Global, signals: &[SignalInfo]) -> Result<Vec<SignalInfo>, Memory>
    ensures { IfOk result (λ v. v.items ≡ signals.now) }
{
    let mut copies = Vec::new(alloc);
    for signal in signals {
        let copy = signal.copy(alloc)?;
        copies.push(copy)?;
    }
    Ok(copies)
}

impl GroundExpr {
    /// A copy, or `Memory`.
    #[cycle(copy_expr)]
    pub fn copy(&self, alloc: Global) -> Result<GroundExpr, Memory>
        ensures { IfOk result (λ e. e ≡ self.now) }
    {
        match self {
            GroundExpr::Read(signal) => Ok(GroundExpr::Read(*signal)),
            GroundExpr::Lit {
                signed,
                width,
                negative,
                magnitude,
            } => Ok(GroundExpr::Lit {
                signed: *signed,
                width: *width,
                negative: *negative,
                magnitude: *magnitude,
            }),
            GroundExpr::Apply { op, args, nums } => {
                let args = copy_exprs(alloc, args.as_slice())?;
                let nums = Vec::from_slice(alloc, nums.items())?;
                Ok(GroundExpr::Apply {
                    op: *op,
                    args: Items::from_vec(args),
                    nums: Seq::of(nums),
                })
            }
            GroundExpr::Select { index, items } => {
                let index = Boxed::new(alloc, index.get().copy(alloc)?)?;
                let items = copy_exprs(alloc, items.as_slice())?;
                Ok(GroundExpr::Select {
                    index,
                    items: Items::from_vec(items),
                })
            }
            GroundExpr::IndexIs { index, place } => {
                let index = Boxed::new(alloc, index.get().copy(alloc)?)?;
                Ok(GroundExpr::IndexIs {
                    index,
                    place: *place,
                })
            }
        }
    }
}

#[cycle(copy_expr)]
fn copy_exprs(alloc: Global, exprs: &[GroundExpr]) -> Result<Vec<GroundExpr>, Memory>
    ensures { IfOk result (λ v. v.items ≡ exprs.now) }
{
    let mut copies = Vec::new(alloc);
    for expr in exprs {
        let copy = expr.copy(alloc)?;
        copies.push(copy)?;
    }
    Ok(copies)
}

fn copy_value(alloc: Global, value: &Option<GroundExpr>) -> Result<Option<GroundExpr>, Memory>
    ensures { IfOk result (λ v. v ≡ value.now) }
{
    match value {
        None => Ok(None),
        Some(expr) => Ok(Some(expr.copy(alloc)?)),
    }
}

fn copy_reset(alloc: Global, reset: &Option<GroundReset>) -> Result<Option<GroundReset>, Memory>
    ensures { IfOk result (λ r. r ≡ reset.now) }
{
    match reset {
        None => Ok(None),
        Some(reset) => Ok(Some(GroundReset {
            signal: reset.signal.copy(alloc)?,
            init: reset.init.copy(alloc)?,
        })),
    }
}

impl Ground {
    /// A copy, or `Memory`.
    #[cycle(copy_ground)]
    pub fn copy(&self, alloc: Global) -> Result<Ground, Memory>
        ensures { IfOk result (λ g. g ≡ self.now) }
    {
        match self {
            Ground::Declare {
                signal,
                line,
                reset,
            } => Ok(Ground::Declare {
                signal: *signal,
                line: *line,
                reset: copy_reset(alloc, reset)?,
            }),
            Ground::Set { line, sink, value } => Ok(Ground::Set {
                line: *line,
                sink: *sink,
                value: copy_value(alloc, value)?,
            }),
            Ground::When {
                line,
                cond,
                taken,
                other,
            } => Ok(Ground::When {
                line: *line,
                cond: cond.copy(alloc)?,
                taken: Items::from_vec(copy_body(alloc, taken.as_slice())?),
                other: Items::from_vec(copy_body(alloc, other.as_slice())?),
            }),
        }
    }
}

#[cycle(copy_ground)]
fn copy_body(alloc: Global, body: &[Ground]) -> Result<Vec<Ground>, Memory>
    ensures { IfOk result (λ v. v.items ≡ body.now) }
{
    let mut copies = Vec::new(alloc);
    for ground in body {
        let copy = ground.copy(alloc)?;
        copies.push(copy)?;
    }
    Ok(copies)
}

impl Elab {
    /// A copy, or `Memory`.
    pub fn copy(&self, alloc: Global) -> Result<Elab, Memory>
        ensures { IfOk result (λ e. e ≡ self.now) }
    {
        let name = self.name.copy(alloc)?;
        let signals = copy_signals(alloc, self.signals.items())?;
        let body = copy_body(alloc, self.body.items())?;
        Ok(Elab {
            name,
            signals: Seq::of(signals),
            body: Seq::of(body),
        })
    }
}

impl Choice {
    /// A copy, or `Memory`.
    #[cycle(copy_choice)]
    pub fn copy(&self, alloc: Global) -> Result<Choice, Memory>
        ensures { IfOk result (λ c. c ≡ self.now) }
    {
        match self {
            Choice::Take(value) => Ok(Choice::Take(copy_value(alloc, value)?)),
            Choice::When { cond, taken, other } => Ok(Choice::When {
                cond: *cond,
                taken: Items::from_vec(copy_choices(alloc, taken.as_slice())?),
                other: Items::from_vec(copy_choices(alloc, other.as_slice())?),
            }),
        }
    }
}

#[cycle(copy_choice)]
fn copy_choices(alloc: Global, choices: &[Choice]) -> Result<Vec<Choice>, Memory>
    ensures { IfOk result (λ v. v.items ≡ choices.now) }
{
    let mut copies = Vec::new(alloc);
    for choice in choices {
        let copy = choice.copy(alloc)?;
        copies.push(copy)?;
    }
    Ok(copies)
}

impl Equation {
    /// A copy, or `Memory`.
    pub fn copy(&self, alloc: Global) -> Result<Equation, Memory>
        ensures { IfOk result (λ e. e ≡ self.now) }
    {
        match self {
            Equation::Input => Ok(Equation::Input),
            Equation::Comb(choices) => {
                let choices = copy_choices(alloc, choices.items())?;
                Ok(Equation::Comb(Seq::of(choices)))
            }
            Equation::Reg { next } => {
                let next = copy_choices(alloc, next.items())?;
                Ok(Equation::Reg {
                    next: Seq::of(next),
                })
            }
        }
    }
}

fn copy_equations(alloc: Global, equations: &[Equation]) -> Result<Vec<Equation>, Memory>
    ensures { IfOk result (λ v. v.items ≡ equations.now) }
{
    let mut copies = Vec::new(alloc);
    for equation in equations {
        let copy = equation.copy(alloc)?;
        copies.push(copy)?;
    }
    Ok(copies)
}

impl Net {
    /// A copy, or `Memory`.
    pub fn copy(&self, alloc: Global) -> Result<Net, Memory>
        ensures { IfOk result (λ n. n ≡ self.now) }
    {
        let signals = copy_signals(alloc, self.signals.items())?;
        let equations = copy_equations(alloc, self.equations.items())?;
        Ok(Net {
            own: self.own,
            signals: Seq::of(signals),
            equations: Seq::of(equations),
        })
    }
}
