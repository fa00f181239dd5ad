//! Values: the variables that they use, and whether a port holds them.
ghost use Rattle.std.specs.Prelude.{◌≡◌, ◌^◌, nat_lt};
ghost use Rattle.std.specs.List.{list_any};
ghost use Rattle.tl_check.specs.Values.{holds, holds_minus, is_too_wide, uses_unknown, some_too_wide, sets_unknown};

use crate::names::Names;
use net_core::PortInfo;
use tb_base::Name;
use tl_ast::TestExpr;

/// Whether a number has at most so many bits.
fn is_below(n: u128, width: u8) -> bool
    ensures { result ≡ nat_lt n (2 ^ width) }
{
    width >= 128 || n < 1u128 << width
}

/// Whether a port holds a number.
fn holds(port: PortInfo, n: u128) -> bool
    ensures { result ≡ holds port n }
{
    if port.signed {
        is_below(n, port.width.saturating_sub(1))
    } else {
        is_below(n, port.width)
    }
}

/// Whether a port holds `-` and a number.
fn holds_minus(port: PortInfo, n: u128) -> bool
    ensures { result ≡ holds_minus port n }
{
    if n == 0 || !port.signed {
        return port.signed;
    }
    port.width > 0 && is_below(n - 1, port.width - 1)
}

/// Whether it is a literal, or `-` and a literal, that the port doesn't hold.
pub fn is_too_wide(port: PortInfo, value: &TestExpr) -> bool
    ensures { result ≡ is_too_wide port value.now }
{
    match value {
        TestExpr::Num(n) => !holds(port, *n),
        TestExpr::Neg(of) => match of.get() {
            TestExpr::Num(n) => !holds_minus(port, *n),
            _ => false,
        },
        _ => false,
    }
}

fn some_value_too_wide(port: PortInfo, values: &[TestExpr]) -> bool
    ensures { result ≡ list_any (is_too_wide port) values.now }
{
    for value in values {
        if is_too_wide(port, value) {
            return true;
        }
    }
    false
}

/// Whether one of these values is a literal that the port doesn't hold, where the port is there.
pub fn some_too_wide(port: Option<PortInfo>, values: &[TestExpr]) -> bool
    ensures { result ≡ some_too_wide port values.now }
{
    match port {
        None => false,
        Some(port) => some_value_too_wide(port, values),
    }
}

/// Whether a value uses a variable that isn't known. The time is linear in its size. The recursion is
/// along the nesting of the expression.
pub fn uses_unknown(names: &Names, value: &TestExpr) -> bool
    ensures { result ≡ uses_unknown names.now.variables value.now }
{
    match value {
        TestExpr::Num(_) => false,
        TestExpr::Var(name) => !names.has_variable(name.bytes()),
        TestExpr::Neg(of) => uses_unknown(names, of.get()),
        TestExpr::Two(_, left, right) => {
            uses_unknown(names, left.get()) || uses_unknown(names, right.get())
        }
    }
}

/// The same of one of these values.
pub fn some_unknown(names: &Names, values: &[TestExpr]) -> bool
    ensures { result ≡ list_any (uses_unknown names.now.variables) values.now }
{
    for value in values {
        if uses_unknown(names, value) {
            return true;
        }
    }
    false
}

/// Whether a variable is to be set that isn't known.
pub fn sets_unknown(names: &Names, into: &Option<Name>) -> bool
    ensures { result ≡ sets_unknown names.now.variables into.now }
{
    match into {
        None => false,
        Some(name) => !names.has_variable(name.bytes()),
    }
}
