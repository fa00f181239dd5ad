//! The types of literals and of the results of operations.
ghost use Rattle.std.specs.Prelude.{◌≡◌, false, true};
ghost use Rattle.fir_check.specs.Scopes.{number_type};

use fir_ast::Ty;

/// The types of literals and of the results of operations, whose widths the rules don't look at.
#[derive(Drop)]
pub struct NumberTypes {
    unsigned: Ty,
    signed: Ty,
    ghost unsigned_is: { unsigned ≡ number_type false },
    ghost signed_is: { signed ≡ number_type true },
}

impl NumberTypes {
    pub fn new() -> NumberTypes {
        NumberTypes {
            unsigned: Ty::UInt(None),
            signed: Ty::SInt(None),
        }
    }

    /// The type of a number with or without a sign.
    pub fn of(&self, signed: bool) -> &Ty
        ensures { result.now ≡ number_type signed }
    {
        if signed { &self.signed } else { &self.unsigned }
    }
}
