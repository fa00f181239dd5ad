//! Which rules a statement breaks, and what it declares.
ghost use Rattle.std.specs.Prelude.{◌≡◌, ◌||◌, ◌&&◌, ◌+◌, ◌∷◌, not, take, drop, map, length, List, [], None, Some, option_map, OnOk, IfOk, false};
ghost use Rattle.std.specs.List.{list_any};
ghost use Rattle.fir_ast.specs.declared.tree.Stmt.TheOpen.{Stmt-F, Wire, Node, Reg, Inst, Connect, Invalid, When, Skip, Verif};
ghost use Rattle.fir_ast.specs.Printed.{operands_before};
ghost use Rattle.fir_check.specs.Names.{firsts, is_among};
ghost use Rattle.fir_check.specs.Types.{has_flip, same_shape};
ghost use Rattle.fir_check.specs.declared.thing.Flow.TheVariants.{Fixed};
ghost use Rattle.fir_check.specs.Scopes.{thing, line_of, module_named, added, free_known};
ghost use Rattle.fir_check.specs.Rules.{fails, is_value, lacks_clock, some_is, wrong_pair};
ghost use Rattle.fir_check.specs.Driven.{misses_one};
ghost use Rattle.fir_check.specs.Seen.{meant, type_at};
ghost use Rattle.fir_check.specs.KnownSeen.{key_name, seen};
ghost use Rattle.fir_check.specs.Numbers.{ComesNext, own_types};
ghost use Rattle.fir_check.specs.Walking.{head_of, names_behind, Told, ResetTold, ArgsTold, with_arg};

use crate::broken::Broken;
use crate::exprs::{Judgement, judge, judge_behind};
use crate::judged::{Args, Resets};
use crate::scope::Scope;
use crate::sinks::PortSinks;
use crate::surroundings::Surroundings;
use crate::thing::{
    Flow, Thing, differ, fails_clock, fails_clockless, fails_condition, fails_ground,
    fails_invalid_sink, fails_sink, fails_source, fails_value,
};
use crate::type_table::TypeTable;
use crate::types::repeats_field;
use fir_ast::{Expr, ResetPair, Stmt, Ty, VerifKind};
use std::alloc::Global;
use tb_base::Memory;

/// A wire whose type has this number.
fn tell_wire(
    alloc: Global,
    around: Surroundings,
    name: &[u8],
    ty: &Ty,
    number: usize,
    scope: &mut Scope,
) -> Result<Broken, Memory>
    requires { type_at around.types.now number ≡ ty.now }
    ensures told { IfOk result (Told around.entry.modules.now around.entry.home.now (seen around.entry.types.now scope.old) (Wire 0 name.now ty.now)) }
    ensures names { OnOk result (seen around.entry.types.now scope.new ≡ names_behind around.entry.modules.now (seen around.entry.types.now scope.old) (Wire 0 name.now ty.now)) }
{
    let is_old = scope.is_declared(name);
    let repeats = repeats_field(alloc, ty)?;
    scope.add(alloc, name, Some(Thing::new(number, Flow::Free)))?;
    Ok(Broken {
        double: is_old || repeats,
        unknown: false,
        wrong: false,
        flow: false,
        clock: around.types.holds_clock(number),
    })
}

/// What a node stands for whose value stands for this.
fn node_thing(value: Option<Thing>) -> Option<Thing>
    ensures { (types : List Ty) → option_map (meant types) result ≡ option_map (λ v. thing v.ty Fixed) (option_map (meant types) value) }
{
    match value {
        None => None,
        Some(value) => Some(Thing::new(value.number, Flow::Fixed)),
    }
}

/// Whether it is known, and may not be the value of a node.
fn fails_node(types: &TypeTable, value: Option<Thing>) -> bool
    ensures { result ≡ fails (λ v. is_value v && not (has_flip v.ty)) (option_map (meant types.now) value) }
{
    match value {
        None => false,
        Some(value) => !(value.is_value() && !types.flips(value.number)),
    }
}

/// A node.
fn tell_node(
    alloc: Global,
    around: Surroundings,
    name: &[u8],
    value: &Expr,
    scope: &mut Scope,
) -> Result<Broken, Memory>
    ensures told { IfOk result (Told around.entry.modules.now around.entry.home.now (seen around.entry.types.now scope.old) (Node 0 name.now value.now)) }
    ensures names { OnOk result (seen around.entry.types.now scope.new ≡ names_behind around.entry.modules.now (seen around.entry.types.now scope.old) (Node 0 name.now value.now)) }
{
    let is_old = scope.is_declared(name);
    let value = judge(alloc, around.types, scope, value);
    scope.add(alloc, name, node_thing(value.meaning))?;
    Ok(Broken {
        double: is_old,
        unknown: value.unknown,
        wrong: value.wrong || fails_node(around.types, value.meaning),
        flow: false,
        clock: value.clock || fails_clockless(around.types, value.meaning),
    })
}

/// Whether it is known, and may not be the initial value of a register of this type.
fn fails_init(alloc: Global, types: &TypeTable, number: usize, init: Option<Thing>) -> bool
    ensures { result ≡ fails (λ i. is_value i && same_shape i.ty (type_at types.now number)) (option_map (meant types.now) init) }
{
    match init {
        None => false,
        Some(init) => !(init.is_value() && types.same_shape(alloc, init.number, number)),
    }
}

/// The reset of a register whose type has this number.
fn tell_reset(
    alloc: Global,
    around: Surroundings,
    number: usize,
    reset: &Option<ResetPair>,
    scope: &Scope,
) -> Resets
    ensures { ResetTold (seen around.entry.types.now scope.now) (type_at around.entry.types.now number) reset.now result }
{
    match reset {
        None => Resets {
            unknown: false,
            wrong: false,
            clock: false,
            unfit: false,
            clocked: false,
        },
        Some(pair) => {
            let signal = judge(alloc, around.types, scope, &pair.signal);
            let init = judge(alloc, around.types, scope, &pair.init);
            Resets {
                unknown: signal.unknown || init.unknown,
                wrong: signal.wrong || init.wrong,
                clock: signal.clock || init.clock,
                unfit: fails_condition(around.types, signal.meaning)
                    || fails_init(alloc, around.types, number, init.meaning),
                clocked: fails_clockless(around.types, init.meaning),
            }
        }
    }
}

/// A register whose type has this number.
fn tell_reg(
    alloc: Global,
    around: Surroundings,
    name: &[u8],
    ty: &Ty,
    number: usize,
    clock: &Expr,
    reset: &Option<ResetPair>,
    scope: &mut Scope,
) -> Result<Broken, Memory>
    requires { type_at around.types.now number ≡ ty.now }
    ensures told { IfOk result (Told around.entry.modules.now around.entry.home.now (seen around.entry.types.now scope.old) (Reg 0 name.now ty.now clock.now reset.now)) }
    ensures names { OnOk result (seen around.entry.types.now scope.new ≡ names_behind around.entry.modules.now (seen around.entry.types.now scope.old) (Reg 0 name.now ty.now clock.now reset.now)) }
{
    let is_old = scope.is_declared(name);
    let repeats = repeats_field(alloc, ty)?;
    let clock = judge(alloc, around.types, scope, clock);
    scope.add(alloc, name, Some(Thing::new(number, Flow::Free)))?;
    let reset = tell_reset(alloc, around, number, reset, scope);
    Ok(Broken {
        double: is_old || repeats,
        unknown: clock.unknown || reset.unknown,
        wrong: (clock.wrong || reset.wrong) || (around.types.flips(number) || reset.unfit),
        flow: false,
        clock: (clock.clock || reset.clock)
            || (around.types.holds_clock(number)
                || (fails_clock(around.types, clock.meaning) || reset.clocked)),
    })
}

/// Whether one of these ports is no sink of a connect, for the instance of this name. The time is
/// that of a look-up for each port up to the first such.
fn misses_one(
    alloc: Global,
    sinks: &PortSinks,
    instance: &[u8],
    names: &[Vec<u8>],
) -> Result<bool, Memory>
    ensures { IfOk result (λ b. b ≡ misses_one sinks.now instance.now (map key_name names.now)) }
{
    let mut k = 0;
    while k < names.len() {
        let has = sinks.has(alloc, instance, names[k].as_slice())?;
        if !has {
            return Ok(true);
        }
        k += 1;
    }
    Ok(false)
}

/// Whether an instance of the module with this name lacks a clock.
fn lacks_clock(
    alloc: Global,
    around: Surroundings,
    instance: &[u8],
    target: &[u8],
) -> Result<bool, Memory>
    ensures { IfOk result (λ b. b ≡ some_is (lacks_clock around.entry.home.now instance.now) (module_named target.now around.entry.modules.now)) }
{
    match around.clock_inputs(target) {
        None => Ok(false),
        Some(names) => misses_one(alloc, around.sinks, instance, names),
    }
}

/// An instance.
fn tell_inst(
    alloc: Global,
    around: Surroundings,
    name: &[u8],
    target: &[u8],
    scope: &mut Scope,
) -> Result<Broken, Memory>
    ensures told { IfOk result (Told around.entry.modules.now around.entry.home.now (seen around.entry.types.now scope.old) (Inst 0 name.now target.now)) }
    ensures names { OnOk result (seen around.entry.types.now scope.new ≡ names_behind around.entry.modules.now (seen around.entry.types.now scope.old) (Inst 0 name.now target.now)) }
{
    let is_old = scope.is_declared(name);
    let instance = around.instance(target);
    let lacks = lacks_clock(alloc, around, name, target)?;
    scope.add(alloc, name, instance)?;
    Ok(Broken {
        double: is_old,
        unknown: instance.is_none(),
        wrong: false,
        flow: false,
        clock: lacks,
    })
}

/// A connect.
fn tell_connect(
    alloc: Global,
    around: Surroundings,
    sink: &Expr,
    value: &Expr,
    scope: &Scope,
) -> Broken
    ensures { Told around.entry.modules.now around.entry.home.now (seen around.entry.types.now scope.now) (Connect 0 sink.now value.now) result }
{
    let sink = judge(alloc, around.types, scope, sink);
    let value = judge(alloc, around.types, scope, value);
    Broken {
        double: false,
        unknown: sink.unknown || value.unknown,
        wrong: (sink.wrong || value.wrong)
            || (fails_value(value.meaning)
                || differ(alloc, around.types, sink.meaning, value.meaning)),
        flow: fails_sink(sink.meaning) || fails_source(around.types, value.meaning),
        clock: sink.clock || value.clock,
    }
}

/// An invalidation.
fn tell_invalid(alloc: Global, around: Surroundings, sink: &Expr, scope: &Scope) -> Broken
    ensures { Told around.entry.modules.now around.entry.home.now (seen around.entry.types.now scope.now) (Invalid 0 sink.now) result }
{
    let sink = judge(alloc, around.types, scope, sink);
    Broken {
        double: false,
        unknown: sink.unknown,
        wrong: sink.wrong,
        flow: fails_invalid_sink(around.types, sink.meaning),
        clock: sink.clock || fails_clockless(around.types, sink.meaning),
    }
}

/// The condition of a `when`.
fn tell_when(alloc: Global, around: Surroundings, cond: &Expr, scope: &Scope) -> Broken
    ensures { Told around.entry.modules.now around.entry.home.now (seen around.entry.types.now scope.now) (When 0 cond.now [] []) result }
{
    let cond = judge(alloc, around.types, scope, cond);
    Broken {
        double: false,
        unknown: cond.unknown,
        wrong: cond.wrong || fails_condition(around.types, cond.meaning),
        flow: false,
        clock: cond.clock,
    }
}

/// The number of expressions in front of the statement's string.
fn operands_before(kind: VerifKind) -> usize
    ensures { result ≡ operands_before kind }
{
    match kind {
        VerifKind::Printf | VerifKind::Stop => 2,
        VerifKind::Assert | VerifKind::Assume | VerifKind::Cover => 3,
    }
}

/// With the expression at place `k` besides, where `before` stand in front of the string.
fn with_arg(types: &TypeTable, told: Args, k: usize, before: usize, next: Judgement) -> Args
    ensures { result ≡ with_arg types.now k before told next }
{
    let clock = fails_value(next.meaning);
    let condition = fails_condition(types, next.meaning);
    let ground = fails_ground(types, next.meaning);
    let clocked = fails_clockless(types, next.meaning);
    Args {
        unknown: told.unknown | next.unknown,
        wrong: told.wrong | next.wrong,
        clock: told.clock | next.clock,
        unfit: told.unfit
            | (((k == 0) & clock)
                | (((k != 0) & ((k < before) & condition)) | ((before <= k) & ground))),
        clocked: told.clocked | ((before <= k) & clocked),
    }
}

/// The expressions of a verification statement.
fn tell_args(
    alloc: Global,
    around: Surroundings,
    kind: VerifKind,
    args: &[Expr],
    scope: &Scope,
) -> Args
    ensures { ArgsTold kind (seen around.entry.types.now scope.now) args.now result }
{
    let before = operands_before(kind);
    let mut told = Args {
        unknown: false,
        wrong: false,
        clock: false,
        unfit: false,
        clocked: false,
    };
    let mut k = 0;
    while k < args.len() {
        let next = judge_behind(alloc, around.types, scope, &args[k], told.wrong);
        told = with_arg(around.types, told, k, before, next);
        k += 1;
    }
    told
}

/// A verification statement.
fn tell_verif(
    alloc: Global,
    around: Surroundings,
    kind: VerifKind,
    args: &[Expr],
    scope: &Scope,
) -> Broken
    ensures { Told around.entry.modules.now around.entry.home.now (seen around.entry.types.now scope.now) (Verif 0 kind args.now 0 [] None) result }
{
    let told = tell_args(alloc, around, kind, args, scope);
    Broken {
        double: false,
        unknown: told.unknown,
        wrong: told.wrong | told.unfit,
        flow: false,
        clock: told.clock | told.clocked,
    }
}

/// What breaks no rule.
fn unbroken() -> Broken
    ensures { result ≡ record { double = false; unknown = false; wrong = false; flow = false; clock = false } }
{
    Broken {
        double: false,
        unknown: false,
        wrong: false,
        flow: false,
        clock: false,
    }
}

/// The number of the next type that is declared.
pub fn take_number(around: Surroundings, ty: &Ty, next: &mut usize) -> usize
    requires { ComesNext around.types.now around.declared.now next.old (ty.now ∷ []) }
    ensures is { type_at around.entry.types.now result ≡ ty.now }
    ensures next { next.new ≡ next.old + 1 }
{
    let number = around.declared[*next];
    *next += 1;
    number
}

/// Which rules a statement itself breaks. What it declares is added to the scope.
pub fn tell(
    alloc: Global,
    around: Surroundings,
    stmt: &Stmt,
    scope: &mut Scope,
    next: &mut usize,
) -> Result<Broken, Memory>
    requires { ComesNext around.types.now around.declared.now next.old (own_types (head_of stmt.now)) }
    ensures told { IfOk result (Told around.entry.modules.now around.entry.home.now (seen around.entry.types.now scope.old) (head_of stmt.now)) }
    ensures names { OnOk result (seen around.entry.types.now scope.new ≡ names_behind around.entry.modules.now (seen around.entry.types.now scope.old) (head_of stmt.now)) }
    ensures next { OnOk result (next.new ≡ next.old + length (own_types (head_of stmt.now))) }
{
    match stmt {
        Stmt::Wire { line: _, name, ty } => {
            let number = take_number(around, ty, next);
            tell_wire(alloc, around, name.bytes(), ty, number, scope)
        }
        Stmt::Node {
            line: _,
            name,
            value,
        } => tell_node(alloc, around, name.bytes(), value, scope),
        Stmt::Reg {
            line: _,
            name,
            ty,
            clock,
            reset,
        } => {
            let number = take_number(around, ty, next);
            tell_reg(alloc, around, name.bytes(), ty, number, clock, reset, scope)
        }
        Stmt::Inst {
            line: _,
            name,
            module,
        } => tell_inst(alloc, around, name.bytes(), module.bytes(), scope),
        Stmt::Connect {
            line: _,
            sink,
            value,
        } => Ok(tell_connect(alloc, around, sink, value, scope)),
        Stmt::Invalid { line: _, sink } => Ok(tell_invalid(alloc, around, sink, scope)),
        Stmt::When {
            line: _,
            cond,
            taken: _,
            other: _,
        } => Ok(tell_when(alloc, around, cond, scope)),
        Stmt::Skip { line: _ } => Ok(unbroken()),
        Stmt::Verif {
            line: _,
            kind,
            args,
            code: _,
            text: _,
            label: _,
        } => Ok(tell_verif(alloc, around, *kind, args.items(), scope)),
    }
}

/// Adds a wire or register whose type has this number.
fn declare_free(
    alloc: Global,
    around: Surroundings,
    name: &[u8],
    ty: &Ty,
    next: &mut usize,
    scope: &mut Scope,
) -> Result<(), Memory>
    requires { ComesNext around.types.now around.declared.now next.old (ty.now ∷ []) }
    ensures names { OnOk result (seen around.entry.types.now scope.new ≡ added (free_known name.now ty.now) (seen around.entry.types.now scope.old)) }
    ensures next { next.new ≡ next.old + 1 }
{
    let number = take_number(around, ty, next);
    scope.add(alloc, name, Some(Thing::new(number, Flow::Free)))
}

/// Adds a node. What its value stands for is asked for alone, so that no types are compared.
fn declare_node(
    alloc: Global,
    around: Surroundings,
    name: &[u8],
    value: &Expr,
    scope: &mut Scope,
) -> Result<(), Memory>
    ensures { OnOk result (seen around.entry.types.now scope.new ≡ names_behind around.entry.modules.now (seen around.entry.types.now scope.old) (Node 0 name.now value.now)) }
{
    let value = judge_behind(alloc, around.types, scope, value, true);
    scope.add(alloc, name, node_thing(value.meaning))
}

/// Adds an instance.
fn declare_inst(
    alloc: Global,
    around: Surroundings,
    name: &[u8],
    target: &[u8],
    scope: &mut Scope,
) -> Result<(), Memory>
    ensures { OnOk result (seen around.entry.types.now scope.new ≡ names_behind around.entry.modules.now (seen around.entry.types.now scope.old) (Inst 0 name.now target.now)) }
{
    scope.add(alloc, name, around.instance(target))
}

/// Adds what a statement declares to the scope. Only a node's value is judged, for what it stands for.
pub fn declare(
    alloc: Global,
    around: Surroundings,
    stmt: &Stmt,
    scope: &mut Scope,
    next: &mut usize,
) -> Result<(), Memory>
    requires { ComesNext around.types.now around.declared.now next.old (own_types (head_of stmt.now)) }
    ensures names { OnOk result (seen around.entry.types.now scope.new ≡ names_behind around.entry.modules.now (seen around.entry.types.now scope.old) (head_of stmt.now)) }
    ensures next { OnOk result (next.new ≡ next.old + length (own_types (head_of stmt.now))) }
{
    match stmt {
        Stmt::Wire { line: _, name, ty } => {
            declare_free(alloc, around, name.bytes(), ty, next, scope)
        }
        Stmt::Node {
            line: _,
            name,
            value,
        } => declare_node(alloc, around, name.bytes(), value, scope),
        Stmt::Reg {
            line: _,
            name,
            ty,
            clock: _,
            reset: _,
        } => declare_free(alloc, around, name.bytes(), ty, next, scope),
        Stmt::Inst {
            line: _,
            name,
            module,
        } => declare_inst(alloc, around, name.bytes(), module.bytes(), scope),
        Stmt::Connect {
            line: _,
            sink: _,
            value: _,
        } => Ok(()),
        Stmt::Invalid { line: _, sink: _ } => Ok(()),
        Stmt::When {
            line: _,
            cond: _,
            taken: _,
            other: _,
        } => Ok(()),
        Stmt::Skip { line: _ } => Ok(()),
        Stmt::Verif {
            line: _,
            kind: _,
            args: _,
            code: _,
            text: _,
            label: _,
        } => Ok(()),
    }
}

/// The line of a statement.
pub fn line_of(stmt: &Stmt) -> u32
    ensures { result ≡ line_of (head_of stmt.now) }
{
    match stmt {
        Stmt::Wire {
            line,
            name: _,
            ty: _,
        } => *line,
        Stmt::Node {
            line,
            name: _,
            value: _,
        } => *line,
        Stmt::Reg {
            line,
            name: _,
            ty: _,
            clock: _,
            reset: _,
        } => *line,
        Stmt::Inst {
            line,
            name: _,
            module: _,
        } => *line,
        Stmt::Connect {
            line,
            sink: _,
            value: _,
        } => *line,
        Stmt::Invalid { line, sink: _ } => *line,
        Stmt::When {
            line,
            cond: _,
            taken: _,
            other: _,
        } => *line,
        Stmt::Skip { line } => *line,
        Stmt::Verif {
            line,
            kind: _,
            args: _,
            code: _,
            text: _,
            label: _,
        } => *line,
    }
}
