//! Whether two codes are the same, by equality of their tests and ports.
//!
//! No call takes memory. The first difference ends it, so its time is linear in the size of the lesser of the two. The recursion is along
//! the nesting of expressions and of blocks; lists are gone through by loops.
ghost use Rattle.std.specs.Prelude.{◌≡◌, ◌↔◌, true, option_map};
ghost use Rattle.net_core.specs.Ports.{pair_now};

use net_core::{PortInfo, PortTable};
use tb_base::Name;
use tl_ast::{TestExpr, TestStmt, TestText};

#[cycle(same_expr)]
fn same_expr(this: &TestExpr, other: &TestExpr) -> bool
    ensures { (result ≡ true) ↔ (this.now ≡ other.now) }
{
    match this {
        TestExpr::Num(number) => match other {
            TestExpr::Num(other_number) => *number == *other_number,
            _ => false,
        },
        TestExpr::Var(name) => match other {
            TestExpr::Var(other_name) => name.bytes() == other_name.bytes(),
            _ => false,
        },
        TestExpr::Neg(of) => match other {
            TestExpr::Neg(other_of) => same_expr(of.get(), other_of.get()),
            _ => false,
        },
        TestExpr::Two(op, left, right) => match other {
            TestExpr::Two(other_op, other_left, other_right) => {
                *op == *other_op
                    && same_expr(left.get(), other_left.get())
                    && same_expr(right.get(), other_right.get())
            }
            _ => false,
        },
    }
}

fn same_exprs(these: &[TestExpr], others: &[TestExpr]) -> bool
    ensures { (result ≡ true) ↔ (these.now ≡ others.now) }
{
    if these.len() != others.len() {
        return false;
    }
    let mut k = 0;
    while k < these.len() {
        if !same_expr(&these[k], &others[k]) {
            return false;
        }
        k += 1;
    }
    true
}

fn same_into(this: &Option<Name>, other: &Option<Name>) -> bool
    ensures { (result ≡ true) ↔ (this.now ≡ other.now) }
{
    match this {
        None => other.is_none(),
        Some(name) => match other {
            None => false,
            Some(other_name) => name.bytes() == other_name.bytes(),
        },
    }
}

#[cycle(same_stmt)]
fn same_stmt(this: &TestStmt, other: &TestStmt) -> bool
    ensures { (result ≡ true) ↔ (this.now ≡ other.now) }
{
    match this {
        TestStmt::Poke { line, port, value } => match other {
            TestStmt::Poke {
                line: other_line,
                port: other_port,
                value: other_value,
            } => {
                *line == *other_line
                    && port.bytes() == other_port.bytes()
                    && same_expr(value, other_value)
            }
            _ => false,
        },
        TestStmt::Peek { line, port, into } => match other {
            TestStmt::Peek {
                line: other_line,
                port: other_port,
                into: other_into,
            } => {
                *line == *other_line
                    && port.bytes() == other_port.bytes()
                    && same_into(into, other_into)
            }
            _ => false,
        },
        TestStmt::Expect { line, port, value } => match other {
            TestStmt::Expect {
                line: other_line,
                port: other_port,
                value: other_value,
            } => {
                *line == *other_line
                    && port.bytes() == other_port.bytes()
                    && same_expr(value, other_value)
            }
            _ => false,
        },
        TestStmt::Step { line, count } => match other {
            TestStmt::Step {
                line: other_line,
                count: other_count,
            } => { *line == *other_line && *count == *other_count }
            _ => false,
        },
        TestStmt::Let { line, name, value } => match other {
            TestStmt::Let {
                line: other_line,
                name: other_name,
                value: other_value,
            } => {
                *line == *other_line
                    && name.bytes() == other_name.bytes()
                    && same_expr(value, other_value)
            }
            _ => false,
        },
        TestStmt::Set { line, name, value } => match other {
            TestStmt::Set {
                line: other_line,
                name: other_name,
                value: other_value,
            } => {
                *line == *other_line
                    && name.bytes() == other_name.bytes()
                    && same_expr(value, other_value)
            }
            _ => false,
        },
        TestStmt::If {
            line,
            cond,
            taken,
            other: second,
        } => match other {
            TestStmt::If {
                line: other_line,
                cond: other_cond,
                taken: other_taken,
                other: other_other,
            } => {
                *line == *other_line
                    && same_expr(cond, other_cond)
                    && same_stmts(taken.as_slice(), other_taken.as_slice())
                    && same_stmts(second.as_slice(), other_other.as_slice())
            }
            _ => false,
        },
        TestStmt::While { line, cond, body } => match other {
            TestStmt::While {
                line: other_line,
                cond: other_cond,
                body: other_body,
            } => {
                *line == *other_line
                    && same_expr(cond, other_cond)
                    && same_stmts(body.as_slice(), other_body.as_slice())
            }
            _ => false,
        },
        TestStmt::Repeat { line, count, body } => match other {
            TestStmt::Repeat {
                line: other_line,
                count: other_count,
                body: other_body,
            } => {
                *line == *other_line
                    && same_expr(count, other_count)
                    && same_stmts(body.as_slice(), other_body.as_slice())
            }
            _ => false,
        },
        TestStmt::Fork {
            line,
            region,
            handle,
            body,
        } => match other {
            TestStmt::Fork {
                line: other_line,
                region: other_region,
                handle: other_handle,
                body: other_body,
            } => {
                *line == *other_line
                    && *region == *other_region
                    && handle.bytes() == other_handle.bytes()
                    && same_stmts(body.as_slice(), other_body.as_slice())
            }
            _ => false,
        },
        TestStmt::Join { line, handle } => match other {
            TestStmt::Join {
                line: other_line,
                handle: other_handle,
            } => { *line == *other_line && handle.bytes() == other_handle.bytes() }
            _ => false,
        },
        TestStmt::JoinStep { line, handle } => match other {
            TestStmt::JoinStep {
                line: other_line,
                handle: other_handle,
            } => { *line == *other_line && handle.bytes() == other_handle.bytes() }
            _ => false,
        },
        TestStmt::Driver {
            line,
            kind,
            port,
            values,
        } => match other {
            TestStmt::Driver {
                line: other_line,
                kind: other_kind,
                port: other_port,
                values: other_values,
            } => {
                *line == *other_line
                    && *kind == *other_kind
                    && port.bytes() == other_port.bytes()
                    && same_exprs(values.items(), other_values.items())
            }
            _ => false,
        },
        TestStmt::ResetFor { line, count } => match other {
            TestStmt::ResetFor {
                line: other_line,
                count: other_count,
            } => { *line == *other_line && *count == *other_count }
            _ => false,
        },
    }
}

#[cycle(same_stmt)]
fn same_stmts(these: &[TestStmt], others: &[TestStmt]) -> bool
    ensures { (result ≡ true) ↔ (these.now ≡ others.now) }
{
    if these.len() != others.len() {
        return false;
    }
    let mut k = 0;
    while k < these.len() {
        if !same_stmt(&these[k], &others[k]) {
            return false;
        }
        k += 1;
    }
    true
}

/// Whether two tests are the same, with their lines.
pub fn same_text(this: &TestText, other: &TestText) -> bool
    ensures { (result ≡ true) ↔ (this.now ≡ other.now) }
{
    same_stmts(this.body.items(), other.body.items())
}

fn same_port(this: Option<(&[u8], PortInfo)>, other: Option<(&[u8], PortInfo)>) -> bool
    ensures { (result ≡ true) ↔ (option_map pair_now this.entry ≡ option_map pair_now other.entry) }
{
    match this {
        None => other.is_none(),
        Some((name, info)) => match other {
            None => false,
            Some((other_name, other_info)) => info == other_info && name == other_name,
        },
    }
}

/// Whether two tables have the same ports in the same order.
pub fn same_ports(these: &PortTable, others: &PortTable) -> bool
    ensures { (result ≡ true) ↔ (these.now ≡ others.now) }
{
    if these.len() != others.len() {
        return false;
    }
    for k in 0..these.len() {
        if !same_port(these.at(k), others.at(k)) {
            return false;
        }
    }
    true
}
