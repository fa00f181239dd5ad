//! What is known of an expression.
ghost use Rattle.std.specs.Prelude.{◌≡◌, ◌≤◌};

use std::marker::Model;

/// Whether an expression is signed, and how many bits it has. 129 stands for all widths above 128.
#[derive(Clone, Copy)]
pub(crate) struct Shape {
    signed: bool,
    width: u8,
}

impl Model for Shape {
    ghost use Rattle.std.specs.Prelude.{◌≤◌};
    ghost use Rattle.net_core.specs.Shapes.{Shape as Seen};

    ghost Value = { Seen };

    ghost view = { λ s. record { signed = s.signed; width = s.width } };

    ghost invariant = { λ s. s.width ≤ 129 };

    ghost inverse = { λ s. record { signed = s.signed; width = s.width } };
}

impl Shape {
    pub(crate) fn new(signed: bool, width: u8) -> Shape
        requires { width ≤ 129 }
        ensures { result ≡ record { signed = signed; width = width } }
    {
        Shape { signed, width }
    }

    pub(crate) fn signed(self) -> bool
        ensures { result ≡ self.signed }
    {
        self.signed
    }

    pub(crate) fn width(self) -> u8
        ensures value { result ≡ self.width }
        ensures most { result ≤ 129 }
    {
        self.width
    }
}

/// An expression's shape, whether it or a part of it is too wide, and whether something in it is out of its range.
#[derive(Clone, Copy)]
pub(crate) struct Judged {
    pub(crate) shape: Shape,
    pub(crate) wide: bool,
    pub(crate) bad: bool,
}

/// What is known of a list of parts: the shapes of the first three, the greatest width, and whether some part breaks a
/// rule.
#[derive(Clone, Copy)]
pub(crate) struct Summary {
    pub(crate) first: Shape,
    pub(crate) second: Shape,
    pub(crate) third: Shape,
    /// The width of the widest.
    pub(crate) widest: u8,
    pub(crate) wide: bool,
    pub(crate) bad: bool,
}
