//! The least place where a rule is broken: the least line, and on it the first rule.
ghost use Rattle.std.specs.Prelude.{◌≡◌, ◌+◌, ◌*◌, [], None, false, map, option_map};
ghost use Rattle.fir_ast.specs.declared.tree.Circuit.{Circuit};
ghost use Rattle.fir_check.specs.Names.{kept};
ghost use Rattle.fir_check.specs.Rules.{broken_lines, circuit_rule};
ghost use Rattle.fir_check.specs.Places.{break_seen, least, lower, lowered, place_seen, place, rank};

use fir_ast::Circuit;
use std::marker::Model;

/// The rules, in the order in which they are answered where one line breaks several.
#[derive(Clone, Copy, Debug, PartialEq, Eq)]
pub enum Rule {
    /// No module has the circuit's name.
    NoMain,
    /// A name is declared a second time.
    DoubleName,
    /// A name isn't known where it is used.
    UnknownName,
    /// A type, a sign or a shape doesn't fit.
    WrongKind,
    /// What is driven may not be driven.
    WrongFlow,
    /// A clock is used in another way than as a clock.
    ClockUse,
    /// An instance lies on a cycle of modules.
    InstanceCycle,
}

impl Rule {
    /// The number of the rules before this one.
    fn rank(self) -> u8
        ensures { result ≡ rank self }
    {
        match self {
            Rule::NoMain => 0,
            Rule::DoubleName => 1,
            Rule::UnknownName => 2,
            Rule::WrongKind => 3,
            Rule::WrongFlow => 4,
            Rule::ClockUse => 5,
            Rule::InstanceCycle => 6,
        }
    }
}

/// A rule, and a line that breaks it.
#[derive(Clone, Copy, Debug)]
pub struct Break {
    pub rule: Rule,
    pub line: u32,
}

impl Break {
    /// A number that is less the earlier the line is, and on one line the earlier the rule is.
    fn place(self) -> u64
        ensures { result ≡ place_seen self }
    {
        8 * u64::from(self.line) + u64::from(self.rule.rank())
    }
}

/// The least place that was found so far, if any. Contracts see the place's number.
#[derive(Drop)]
pub struct Best {
    found: Option<Break>,
}

impl Model for Best {
    ghost use Rattle.std.specs.Prelude.{ℕ, Option, option_map};
    ghost use Rattle.fir_check.specs.Places.{place_seen};

    ghost Value = { Option ℕ };

    ghost view = { λ b. option_map place_seen b.found };
}

impl Best {
    /// Nothing was found yet.
    pub fn new() -> Best
        ensures { result ≡ None }
    {
        Best { found: None }
    }

    /// Takes note that a line breaks a rule.
    pub fn note(&mut self, rule: Rule, line: u32)
        ensures { self.new ≡ lower (place rule line) self.old }
    {
        let here = Break { rule, line };
        if let Some(other) = self.found {
            if other.place() <= here.place() {
                return;
            }
        }
        self.found = Some(here);
    }

    /// Whether it would change anything to take note that this line breaks this rule.
    pub fn is_news(&self, rule: Rule, line: u32) -> bool
        ensures { result ≡ false → lower (place rule line) self.now ≡ self.now }
    {
        let here = Break { rule, line };
        match self.found {
            None => true,
            Some(other) => here.place() < other.place(),
        }
    }

    /// Takes note that a line breaks a rule, if it does.
    pub fn note_if(&mut self, broken: bool, rule: Rule, line: u32)
        ensures { self.new ≡ least self.old (map (place rule) (kept broken line [])) }
    {
        if broken {
            self.note(rule, line);
        }
    }

    /// What was found.
    pub fn found(&self) -> Option<Break>
        ensures { option_map place_seen result ≡ self.now }
    {
        self.found
    }
}

/// A law: the least place of all lines that break a rule is that of the circuit's rule.
pub fn least_place_decides(circuit: &Circuit, found: Option<Break>)
    requires { option_map place_seen found ≡ lowered None (λ rule. broken_lines rule circuit.now) }
    ensures { option_map break_seen found ≡ circuit_rule circuit.now }
{}
