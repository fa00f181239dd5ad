//! Copies that equal what they copy, lines included.
//!
//! Each call goes once over the tree: its time and memory are linear in the tree's size. Where
//! memory is wanting, what was copied so far is dropped. The recursion is along the nesting of
//! types, of expressions and of blocks; lists are copied by loops.
ghost use Rattle.std.specs.Prelude.{◌≡◌, IfOk};

use crate::tree::{Circuit, Expr, Field, Module, Port, ResetPair, Stmt, Ty};
use sqlite_items::{Boxed, Items};
use std::alloc::Global;
use tb_base::{Memory, Name, Seq};

impl Circuit {
    /// A copy, or `Memory`.
    pub fn copy(&self, alloc: Global) -> Result<Circuit, Memory>
        ensures { IfOk result (λ c. c ≡ self.now) }
    {
        let name = self.name.copy(alloc)?;
        let modules = copy_modules(alloc, self.modules.items())?;
        Ok(Circuit {
            line: self.line,
            name,
            modules: Seq::of(modules),
        })
    }
}

fn copy_modules(alloc: Global, modules: &[Module]) -> Result<Vec<Module>, Memory>
    ensures { IfOk result (λ v. v.items ≡ modules.now) }
{
    let mut copies = Vec::new(alloc);
    for module in modules {
        let copy = module.copy(alloc)?;
        copies.push(copy)?;
    }
    Ok(copies)
}

impl Module {
    /// A copy, or `Memory`.
    pub fn copy(&self, alloc: Global) -> Result<Module, Memory>
        ensures { IfOk result (λ m. m ≡ self.now) }
    {
        let name = self.name.copy(alloc)?;
        let ports = copy_ports(alloc, self.ports.items())?;
        let body = copy_stmts(alloc, self.body.items())?;
        Ok(Module {
            line: self.line,
            name,
            ports: Seq::of(ports),
            body: Seq::of(body),
        })
    }
}

fn copy_ports(alloc: Global, ports: &[Port]) -> Result<Vec<Port>, Memory>
    ensures { IfOk result (λ v. v.items ≡ ports.now) }
{
    let mut copies = Vec::new(alloc);
    for port in ports {
        let copy = port.copy(alloc)?;
        copies.push(copy)?;
    }
    Ok(copies)
}

impl Port {
    /// A copy, or `Memory`.
    pub fn copy(&self, alloc: Global) -> Result<Port, Memory>
        ensures { IfOk result (λ p. p ≡ self.now) }
    {
        let name = self.name.copy(alloc)?;
        let ty = self.ty.copy(alloc)?;
        Ok(Port {
            line: self.line,
            output: self.output,
            name,
            ty,
        })
    }
}

impl Ty {
    /// A copy, or `Memory`.
    #[cycle(copy_ty)]
    pub fn copy(&self, alloc: Global) -> Result<Ty, Memory>
        ensures { IfOk result (λ t. t ≡ self.now) }
    {
        match self {
            Ty::UInt(width) => Ok(Ty::UInt(*width)),
            Ty::SInt(width) => Ok(Ty::SInt(*width)),
            Ty::Clock => Ok(Ty::Clock),
            Ty::Reset => Ok(Ty::Reset),
            Ty::Bundle(fields) => {
                let fields = copy_fields(alloc, fields.as_slice())?;
                Ok(Ty::Bundle(Items::from_vec(fields)))
            }
            Ty::Vector(of, len) => {
                let of = of.get().copy(alloc)?;
                Ok(Ty::Vector(Boxed::new(alloc, of)?, *len))
            }
        }
    }
}

#[cycle(copy_ty)]
fn copy_fields(alloc: Global, fields: &[Field]) -> Result<Vec<Field>, Memory>
    ensures { IfOk result (λ v. v.items ≡ fields.now) }
{
    let mut copies = Vec::new(alloc);
    for field in fields {
        let name = field.name.copy(alloc)?;
        let ty = field.ty.copy(alloc)?;
        let copy = Field {
            flip: field.flip,
            name,
            ty,
        };
        copies.push(copy)?;
    }
    Ok(copies)
}

impl Expr {
    /// A copy, or `Memory`.
    #[cycle(copy_expr)]
    pub fn copy(&self, alloc: Global) -> Result<Expr, Memory>
        ensures { IfOk result (λ e. e ≡ self.now) }
    {
        match self {
            Expr::Ident(name) => Ok(Expr::Ident(name.copy(alloc)?)),
            Expr::Part(of, name) => {
                let of = Boxed::new(alloc, of.get().copy(alloc)?)?;
                Ok(Expr::Part(of, name.copy(alloc)?))
            }
            Expr::At(of, at) => Ok(Expr::At(Boxed::new(alloc, of.get().copy(alloc)?)?, *at)),
            Expr::Index(of, at) => {
                let of = Boxed::new(alloc, of.get().copy(alloc)?)?;
                Ok(Expr::Index(of, Boxed::new(alloc, at.get().copy(alloc)?)?))
            }
            Expr::Lit {
                signed,
                width,
                negative,
                magnitude,
            } => Ok(Expr::Lit {
                signed: *signed,
                width: *width,
                negative: *negative,
                magnitude: *magnitude,
            }),
            Expr::Apply { op, args, nums } => {
                let args = copy_exprs(alloc, args.as_slice())?;
                let nums = Vec::from_slice(alloc, nums.items())?;
                Ok(Expr::Apply {
                    op: *op,
                    args: Items::from_vec(args),
                    nums: Seq::of(nums),
                })
            }
        }
    }
}

#[cycle(copy_expr)]
fn copy_exprs(alloc: Global, exprs: &[Expr]) -> Result<Vec<Expr>, Memory>
    ensures { IfOk result (λ v. v.items ≡ exprs.now) }
{
    let mut copies = Vec::new(alloc);
    for expr in exprs {
        let copy = expr.copy(alloc)?;
        copies.push(copy)?;
    }
    Ok(copies)
}

fn copy_reset(alloc: Global, reset: &Option<ResetPair>) -> Result<Option<ResetPair>, Memory>
    ensures { IfOk result (λ r. r ≡ reset.now) }
{
    match reset {
        None => Ok(None),
        Some(pair) => Ok(Some(ResetPair {
            signal: pair.signal.copy(alloc)?,
            init: pair.init.copy(alloc)?,
        })),
    }
}

fn copy_label(alloc: Global, label: &Option<Name>) -> Result<Option<Name>, Memory>
    ensures { IfOk result (λ l. l ≡ label.now) }
{
    match label {
        None => Ok(None),
        Some(name) => Ok(Some(name.copy(alloc)?)),
    }
}

impl Stmt {
    /// A copy, or `Memory`.
    #[cycle(copy_stmt)]
    pub fn copy(&self, alloc: Global) -> Result<Stmt, Memory>
        ensures { IfOk result (λ s. s ≡ self.now) }
    {
        match self {
            Stmt::Wire { line, name, ty } => Ok(Stmt::Wire {
                line: *line,
                name: name.copy(alloc)?,
                ty: ty.copy(alloc)?,
            }),
            Stmt::Node { line, name, value } => Ok(Stmt::Node {
                line: *line,
                name: name.copy(alloc)?,
                value: value.copy(alloc)?,
            }),
            Stmt::Reg {
                line,
                name,
                ty,
                clock,
                reset,
            } => Ok(Stmt::Reg {
                line: *line,
                name: name.copy(alloc)?,
                ty: ty.copy(alloc)?,
                clock: clock.copy(alloc)?,
                reset: copy_reset(alloc, reset)?,
            }),
            Stmt::Inst { line, name, module } => Ok(Stmt::Inst {
                line: *line,
                name: name.copy(alloc)?,
                module: module.copy(alloc)?,
            }),
            Stmt::Connect { line, sink, value } => Ok(Stmt::Connect {
                line: *line,
                sink: sink.copy(alloc)?,
                value: value.copy(alloc)?,
            }),
            Stmt::Invalid { line, sink } => Ok(Stmt::Invalid {
                line: *line,
                sink: sink.copy(alloc)?,
            }),
            Stmt::When {
                line,
                cond,
                taken,
                other,
            } => Ok(Stmt::When {
                line: *line,
                cond: cond.copy(alloc)?,
                taken: Items::from_vec(copy_stmts(alloc, taken.as_slice())?),
                other: Items::from_vec(copy_stmts(alloc, other.as_slice())?),
            }),
            Stmt::Skip { line } => Ok(Stmt::Skip { line: *line }),
            Stmt::Verif {
                line,
                kind,
                args,
                code,
                text,
                label,
            } => Ok(Stmt::Verif {
                line: *line,
                kind: *kind,
                args: Seq::of(copy_exprs(alloc, args.items())?),
                code: *code,
                text: text.copy(alloc)?,
                label: copy_label(alloc, label)?,
            }),
        }
    }
}

#[cycle(copy_stmt)]
fn copy_stmts(alloc: Global, stmts: &[Stmt]) -> Result<Vec<Stmt>, Memory>
    ensures { IfOk result (λ v. v.items ≡ stmts.now) }
{
    let mut copies = Vec::new(alloc);
    for stmt in stmts {
        let copy = stmt.copy(alloc)?;
        copies.push(copy)?;
    }
    Ok(copies)
}
