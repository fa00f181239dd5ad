//! Whether two designs are the same, by equality of their trees.
//!
//! No call takes memory. The first difference ends it, so its time is linear in the size of the lesser of the two. The recursion is along
//! the nesting of expressions, of blocks and of choices; lists are gone through by loops.
ghost use Rattle.std.specs.Prelude.{◌≡◌, ◌↔◌, true};

use crate::design::Design;
use net_core::{Choice, Elab, Equation, Ground, GroundExpr, GroundReset, Net, SignalInfo};

fn same_signal(this: &SignalInfo, other: &SignalInfo) -> bool
    ensures { (result ≡ true) ↔ (this.now ≡ other.now) }
{
    this.role == other.role
        && this.signed == other.signed
        && this.width == other.width
        && this.line == other.line
        && this.name.bytes() == other.name.bytes()
}

fn same_signals(these: &[SignalInfo], others: &[SignalInfo]) -> bool
    ensures { (result ≡ true) ↔ (these.now ≡ others.now) }
{
    if these.len() != others.len() {
        return false;
    }
    let mut k = 0;
    while k < these.len() {
        if !same_signal(&these[k], &others[k]) {
            return false;
        }
        k += 1;
    }
    true
}

#[cycle(same_expr)]
fn same_expr(this: &GroundExpr, other: &GroundExpr) -> bool
    ensures { (result ≡ true) ↔ (this.now ≡ other.now) }
{
    match this {
        GroundExpr::Read(signal) => match other {
            GroundExpr::Read(other_signal) => signal.0 == other_signal.0,
            _ => false,
        },
        GroundExpr::Lit {
            signed,
            width,
            negative,
            magnitude,
        } => match other {
            GroundExpr::Lit {
                signed: other_signed,
                width: other_width,
                negative: other_negative,
                magnitude: other_magnitude,
            } => {
                *signed == *other_signed
                    && *width == *other_width
                    && *negative == *other_negative
                    && *magnitude == *other_magnitude
            }
            _ => false,
        },
        GroundExpr::Apply { op, args, nums } => match other {
            GroundExpr::Apply {
                op: other_op,
                args: other_args,
                nums: other_nums,
            } => {
                *op == *other_op
                    && nums.items() == other_nums.items()
                    && same_exprs(args.as_slice(), other_args.as_slice())
            }
            _ => false,
        },
        GroundExpr::Select { index, items } => match other {
            GroundExpr::Select {
                index: other_index,
                items: other_items,
            } => {
                same_expr(index.get(), other_index.get())
                    && same_exprs(items.as_slice(), other_items.as_slice())
            }
            _ => false,
        },
        GroundExpr::IndexIs { index, place } => match other {
            GroundExpr::IndexIs {
                index: other_index,
                place: other_place,
            } => *place == *other_place && same_expr(index.get(), other_index.get()),
            _ => false,
        },
    }
}

#[cycle(same_expr)]
fn same_exprs(these: &[GroundExpr], others: &[GroundExpr]) -> bool
    ensures { (result ≡ true) ↔ (these.now ≡ others.now) }
{
    if these.len() != others.len() {
        return false;
    }
    let mut k = 0;
    while k < these.len() {
        if !same_expr(&these[k], &others[k]) {
            return false;
        }
        k += 1;
    }
    true
}

fn same_value(this: &Option<GroundExpr>, other: &Option<GroundExpr>) -> bool
    ensures { (result ≡ true) ↔ (this.now ≡ other.now) }
{
    match this {
        None => other.is_none(),
        Some(expr) => match other {
            None => false,
            Some(other_expr) => same_expr(expr, other_expr),
        },
    }
}

fn same_reset(this: &Option<GroundReset>, other: &Option<GroundReset>) -> bool
    ensures { (result ≡ true) ↔ (this.now ≡ other.now) }
{
    match this {
        None => other.is_none(),
        Some(reset) => match other {
            None => false,
            Some(other_reset) => {
                same_expr(&reset.signal, &other_reset.signal)
                    && same_expr(&reset.init, &other_reset.init)
            }
        },
    }
}

#[cycle(same_ground)]
fn same_ground(this: &Ground, other: &Ground) -> bool
    ensures { (result ≡ true) ↔ (this.now ≡ other.now) }
{
    match this {
        Ground::Declare {
            signal,
            line,
            reset,
        } => match other {
            Ground::Declare {
                signal: other_signal,
                line: other_line,
                reset: other_reset,
            } => {
                signal.0 == other_signal.0 && *line == *other_line && same_reset(reset, other_reset)
            }
            _ => false,
        },
        Ground::Set { line, sink, value } => match other {
            Ground::Set {
                line: other_line,
                sink: other_sink,
                value: other_value,
            } => sink.0 == other_sink.0 && *line == *other_line && same_value(value, other_value),
            _ => false,
        },
        Ground::When {
            line,
            cond,
            taken,
            other: otherwise,
        } => match other {
            Ground::When {
                line: other_line,
                cond: other_cond,
                taken: other_taken,
                other: other_otherwise,
            } => {
                *line == *other_line
                    && same_expr(cond, other_cond)
                    && same_body(taken.as_slice(), other_taken.as_slice())
                    && same_body(otherwise.as_slice(), other_otherwise.as_slice())
            }
            _ => false,
        },
    }
}

#[cycle(same_ground)]
fn same_body(these: &[Ground], others: &[Ground]) -> bool
    ensures { (result ≡ true) ↔ (these.now ≡ others.now) }
{
    if these.len() != others.len() {
        return false;
    }
    let mut k = 0;
    while k < these.len() {
        if !same_ground(&these[k], &others[k]) {
            return false;
        }
        k += 1;
    }
    true
}

#[cycle(same_choice)]
fn same_choice(this: &Choice, other: &Choice) -> bool
    ensures { (result ≡ true) ↔ (this.now ≡ other.now) }
{
    match this {
        Choice::Take(value) => match other {
            Choice::Take(other_value) => same_value(value, other_value),
            _ => false,
        },
        Choice::When {
            cond,
            taken,
            other: otherwise,
        } => match other {
            Choice::When {
                cond: other_cond,
                taken: other_taken,
                other: other_otherwise,
            } => {
                cond.0 == other_cond.0
                    && same_choices(taken.as_slice(), other_taken.as_slice())
                    && same_choices(otherwise.as_slice(), other_otherwise.as_slice())
            }
            _ => false,
        },
    }
}

#[cycle(same_choice)]
fn same_choices(these: &[Choice], others: &[Choice]) -> bool
    ensures { (result ≡ true) ↔ (these.now ≡ others.now) }
{
    if these.len() != others.len() {
        return false;
    }
    let mut k = 0;
    while k < these.len() {
        if !same_choice(&these[k], &others[k]) {
            return false;
        }
        k += 1;
    }
    true
}

fn same_equation(this: &Equation, other: &Equation) -> bool
    ensures { (result ≡ true) ↔ (this.now ≡ other.now) }
{
    match this {
        Equation::Input => matches!(other, Equation::Input),
        Equation::Comb(choices) => match other {
            Equation::Comb(other_choices) => same_choices(choices.items(), other_choices.items()),
            _ => false,
        },
        Equation::Reg { next } => match other {
            Equation::Reg { next: other_next } => same_choices(next.items(), other_next.items()),
            _ => false,
        },
    }
}

fn same_equations(these: &[Equation], others: &[Equation]) -> bool
    ensures { (result ≡ true) ↔ (these.now ≡ others.now) }
{
    if these.len() != others.len() {
        return false;
    }
    let mut k = 0;
    while k < these.len() {
        if !same_equation(&these[k], &others[k]) {
            return false;
        }
        k += 1;
    }
    true
}

fn same_elab(this: &Elab, other: &Elab) -> bool
    ensures { (result ≡ true) ↔ (this.now ≡ other.now) }
{
    this.name.bytes() == other.name.bytes()
        && same_signals(this.signals.items(), other.signals.items())
        && same_body(this.body.items(), other.body.items())
}

fn same_net(this: &Net, other: &Net) -> bool
    ensures { (result ≡ true) ↔ (this.now ≡ other.now) }
{
    this.own == other.own
        && same_signals(this.signals.items(), other.signals.items())
        && same_equations(this.equations.items(), other.equations.items())
}

impl Design {
    /// Whether both designs are of one circuit and one net, in all their parts, with names and lines. It takes no memory, and its time is
    /// linear in the size of the lesser.
    pub fn same(&self, other: &Design) -> bool
        ensures { (result ≡ true) ↔ (self.now ≡ other.now) }
    {
        same_elab(self.elab(), other.elab()) && same_net(self.net(), other.net())
    }
}
