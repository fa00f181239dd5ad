//! The connects of a circuit, and the expressions of its statements.
ghost use Rattle.std.specs.Prelude.{◌≡◌, OnOk, ◌++◌, ◌∷◌, [], false, true};
ghost use Rattle.net_core.specs.Body.{body_of};
ghost use Rattle.net_core.specs.Widths.{sources, initial, connected};
ghost use Rattle.net_core.specs.WidthRules.{uses, reset_uses, value_uses};
ghost use Rattle.fir_widths.specs.Gathering.{asked_seen, uses_seen};

use net_core::{Ground, GroundExpr, GroundReset};
use std::alloc::Global;
use tb_base::Memory;

/// An expression whose value a signal gets.
#[derive(Clone, Copy)]
pub(crate) struct Asked<'a> {
    pub(crate) sink: u32,
    pub(crate) source: &'a GroundExpr,
}

/// An expression of a statement, with the statement's line, and whether it is a condition or a reset.
#[derive(Clone, Copy)]
pub(crate) struct Use<'a> {
    pub(crate) line: u32,
    pub(crate) expr: &'a GroundExpr,
    pub(crate) condition: bool,
}

/// What a body says of widths, in its order.
#[derive(Drop)]
pub(crate) struct Gathered<'a> {
    pub(crate) asked: Vec<Asked<'a>>,
    pub(crate) uses: Vec<Use<'a>>,
}

impl<'a> Gathered<'a> {
    /// Nothing yet. It takes no memory.
    pub(crate) fn new(alloc: Global) -> Gathered<'a>
        ensures uses { result.uses.items ≡ [] }
        ensures asked { result.asked.items ≡ [] }
    {
        Gathered {
            asked: Vec::new(alloc),
            uses: Vec::new(alloc),
        }
    }

    /// Adds an expression of a statement.
    fn add_use(&mut self, line: u32, expr: &'a GroundExpr, condition: bool) -> Result<(), Memory>
        ensures uses { OnOk result (uses_seen self.new.uses.items ≡ uses_seen self.old.uses.items ++ record { line = line; expr = expr.now; condition = condition } ∷ []) }
        ensures asked { OnOk result (asked_seen self.new.asked.items ≡ asked_seen self.old.asked.items) }
    {
        self.uses.push(Use {
            line,
            expr,
            condition,
        })?;
        Ok(())
    }

    /// Adds an expression whose value a signal gets.
    fn add_source(&mut self, sink: u32, line: u32, source: &'a GroundExpr) -> Result<(), Memory>
        ensures uses { OnOk result (uses_seen self.new.uses.items ≡ uses_seen self.old.uses.items ++ record { line = line; expr = source.now; condition = false } ∷ []) }
        ensures asked { OnOk result (asked_seen self.new.asked.items ≡ asked_seen self.old.asked.items ++ record { sink = sink; source = source.now } ∷ []) }
    {
        self.asked.push(Asked { sink, source })?;
        self.add_use(line, source, false)?;
        Ok(())
    }

    fn add_reset(
        &mut self,
        signal: u32,
        line: u32,
        reset: &'a Option<GroundReset>,
    ) -> Result<(), Memory>
        ensures uses { OnOk result (uses_seen self.new.uses.items ≡ uses_seen self.old.uses.items ++ reset_uses line reset.now) }
        ensures asked { OnOk result (asked_seen self.new.asked.items ≡ asked_seen self.old.asked.items ++ initial signal reset.now) }
    {
        match reset {
            None => Ok(()),
            Some(reset) => {
                self.add_use(line, &reset.signal, true)?;
                self.add_source(signal, line, &reset.init)?;
                Ok(())
            }
        }
    }

    fn add_value(
        &mut self,
        sink: u32,
        line: u32,
        value: &'a Option<GroundExpr>,
    ) -> Result<(), Memory>
        ensures uses { OnOk result (uses_seen self.new.uses.items ≡ uses_seen self.old.uses.items ++ value_uses line value.now) }
        ensures asked { OnOk result (asked_seen self.new.asked.items ≡ asked_seen self.old.asked.items ++ connected sink value.now) }
    {
        match value {
            None => Ok(()),
            Some(value) => {
                self.add_source(sink, line, value)?;
                Ok(())
            }
        }
    }

    /// Adds what a statement says.
    #[cycle(gather)]
    fn add_statement(&mut self, ground: &'a Ground) -> Result<(), Memory>
        ensures uses { OnOk result (uses_seen self.new.uses.items ≡ uses_seen self.old.uses.items ++ uses (body_of (ground.now ∷ []))) }
        ensures asked { OnOk result (asked_seen self.new.asked.items ≡ asked_seen self.old.asked.items ++ sources (body_of (ground.now ∷ []))) }
    {
        match ground {
            Ground::Declare {
                signal,
                line,
                reset,
            } => {
                self.add_reset(signal.0, *line, reset)?;
                Ok(())
            }
            Ground::Set { line, sink, value } => {
                self.add_value(sink.0, *line, value)?;
                Ok(())
            }
            Ground::When {
                line,
                cond,
                taken,
                other,
            } => {
                self.add_use(*line, cond, true)?;
                self.add_body(taken.as_slice())?;
                self.add_body(other.as_slice())?;
                Ok(())
            }
        }
    }

    /// Adds what the statements of a block say. The recursion is along the nesting of Whens.
    #[cycle(gather)]
    pub(crate) fn add_body(&mut self, body: &'a [Ground]) -> Result<(), Memory>
        ensures uses { OnOk result (uses_seen self.new.uses.items ≡ uses_seen self.old.uses.items ++ uses (body_of body.now)) }
        ensures asked { OnOk result (asked_seen self.new.asked.items ≡ asked_seen self.old.asked.items ++ sources (body_of body.now)) }
    {
        for ground in body {
            self.add_statement(ground)?;
        }
        Ok(())
    }
}
