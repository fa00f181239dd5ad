//! The block of a module, modules, and the circuit.

ghost use Rattle.std.specs.Prelude.{◌≡◌, ◌++◌, IfOk};
ghost use Rattle.text_grammar.specs.Part.{Reads, after, carried, cons, many, starts, whole};
ghost use Rattle.fir_ast.specs.Limits.{limits};
ghost use Rattle.fir_ast.specs.RowGrammar as r;
ghost use Rattle.fir_ast.specs.Lines as n;
ghost use Rattle.fir_ast.specs.CircuitGrammar as g;
ghost use Rattle.fir_ast.specs.CircuitGrammar.{nested_within, block_limit};
ghost use Rattle.fir_ast.specs.declared.tree.Expr.TheVariants as e;
ghost use Rattle.fir_read.specs.Steps.{port_list};

use crate::blocks::{else_rows, first_else_rows, invalid_row, marked_row, statement};
use crate::words::{
    at_head, begins_else, begins_line, begins_row, first_word, is, joined, line_word,
};
use fir_ast::{Circuit, Module, Port, Stmt};
use fir_rows::{circuit_head, module_head, port};
use std::alloc::Global;
use tb_base::{Memory, Name, Seq};
use text_grammar::{ReadError, Symbol, Tokens};

/// How many blocks of `when` and `else` may be nested.
const BLOCK_LIMIT: usize = 256;

/// A port or none, and the statements that are read with its line.
type Line = (Option<Port>, Seq<Stmt>);

/// `: T` after the words of a port, and what is read with its line.
#[tactic(auto, unfolding(fir_ast::specs::CircuitGrammar::port_line, text_grammar::specs::Part::both))]
fn port_line(
    alloc: Global,
    tokens: &mut Tokens<'_>,
    column: u32,
    line: u32,
    word: &Name,
    name: Name,
) -> Result<Line, ReadError>
    ensures { Reads ((g.port_line limits column line word.now name).reads tokens.old) result tokens.new }
{
    let output = is(word, b"output");
    let port = port(alloc, tokens, line, output, name)?;
    let more = else_rows(alloc, tokens, column)?;
    Ok((Some(port), more))
}

/// `invalid` behind `w is`, where a port might have stood.
#[tactic(auto, unfolding(fir_ast::specs::CircuitGrammar::no_port, text_grammar::specs::Part::both, text_grammar::specs::Part::nothing))]
fn invalid_line(
    alloc: Global,
    tokens: &mut Tokens<'_>,
    column: u32,
    line: u32,
    word: Name,
) -> Result<Line, ReadError>
    ensures { Reads ((g.no_port (g.and_else_rows limits column (r.invalidated line (e.Ident word)))).reads tokens.old) result tokens.new }
{
    let (row, more) = invalid_row(alloc, tokens, column, line, word)?;
    Ok((None, joined(alloc, row, more)?))
}

/// A row of a sink called so, where a port might have stood.
#[tactic(auto, unfolding(fir_ast::specs::CircuitGrammar::no_port, text_grammar::specs::Part::both, text_grammar::specs::Part::nothing))]
fn marked_line(
    alloc: Global,
    tokens: &mut Tokens<'_>,
    column: u32,
    line: u32,
    word: Name,
) -> Result<Line, ReadError>
    ensures { Reads ((g.no_port (g.and_else_rows limits column (r.sink_marked limits line word))).reads tokens.old) result tokens.new }
{
    let (row, more) = marked_row(alloc, tokens, column, line, word)?;
    Ok((None, joined(alloc, row, more)?))
}

/// A statement after its first word.
#[tactic(auto, unfolding(fir_ast::specs::CircuitGrammar::no_port, text_grammar::specs::Part::both, text_grammar::specs::Part::nothing))]
fn statement_line(
    alloc: Global,
    tokens: &mut Tokens<'_>,
    column: u32,
    line: u32,
    word: Name,
) -> Result<Line, ReadError>
    ensures { Reads ((g.no_port (g.statement limits (nested_within limits block_limit) column line word)).reads tokens.old) result tokens.new }
{
    let (row, more) = statement(alloc, tokens, BLOCK_LIMIT, column, line, word)?;
    Ok((None, joined(alloc, row, more)?))
}

/// Rows of a sink called `else` at the head of the block.
#[tactic(auto, unfolding(fir_ast::specs::CircuitGrammar::no_port, text_grammar::specs::Part::both, text_grammar::specs::Part::nothing))]
fn first_else_line(alloc: Global, tokens: &mut Tokens<'_>, column: u32) -> Result<Line, ReadError>
    ensures { Reads ((g.no_port (g.and_else_rows limits column (g.else_row limits column))).reads tokens.old) result tokens.new }
{
    let (row, more) = first_else_rows(alloc, tokens, column)?;
    Ok((None, joined(alloc, row, more)?))
}

/// After `input is` or `output is`: a port called `is`, or `invalid`.
#[tactic(auto, unfolding(fir_ast::specs::CircuitGrammar::direction_is, text_grammar::specs::Part::either))]
fn direction_is(
    alloc: Global,
    tokens: &mut Tokens<'_>,
    column: u32,
    line: u32,
    word: Name,
    name: Name,
) -> Result<Line, ReadError>
    ensures { Reads ((g.direction_is limits column line word name).reads tokens.old) result tokens.new }
{
    if tokens.sees(Symbol::Colon) {
        return port_line(alloc, tokens, column, line, &word, name);
    }
    invalid_line(alloc, tokens, column, line, word)
}

/// After `input` or `output` and another word.
#[tactic(auto, unfolding(fir_ast::specs::CircuitGrammar::direction_named))]
fn direction_named(
    alloc: Global,
    tokens: &mut Tokens<'_>,
    column: u32,
    line: u32,
    word: Name,
    name: Name,
) -> Result<Line, ReadError>
    ensures { Reads ((g.direction_named limits column line word name).reads tokens.old) result tokens.new }
{
    if is(&name, b"is") {
        return direction_is(alloc, tokens, column, line, word, name);
    }
    port_line(alloc, tokens, column, line, &word, name)
}

/// After `input` or `output`, which may be sinks' names.
#[tactic(auto, unfolding(fir_ast::specs::CircuitGrammar::direction, text_grammar::specs::Part::either, text_grammar::specs::Part::after))]
fn direction(
    alloc: Global,
    tokens: &mut Tokens<'_>,
    column: u32,
    line: u32,
    word: Name,
) -> Result<Line, ReadError>
    ensures { Reads ((g.direction limits column line word).reads tokens.old) result tokens.new }
{
    if tokens.sees_name() {
        let name = tokens.name(alloc)?;
        return direction_named(alloc, tokens, column, line, word, name);
    }
    marked_line(alloc, tokens, column, line, word)
}

fn is_direction(word: &Name) -> bool
    ensures { result ≡ g.is_direction word.now }
{
    is(word, b"input") || is(word, b"output")
}

/// A line after its first word.
#[tactic(auto, unfolding(fir_ast::specs::CircuitGrammar::line_from))]
fn line_from(
    alloc: Global,
    tokens: &mut Tokens<'_>,
    column: u32,
    ports: bool,
    line: u32,
    word: Name,
) -> Result<Line, ReadError>
    ensures { Reads ((g.line_from limits (nested_within limits block_limit) ports column line word).reads tokens.old) result tokens.new }
{
    if ports && is_direction(&word) {
        return direction(alloc, tokens, column, line, word);
    }
    statement_line(alloc, tokens, column, line, word)
}

#[tactic(auto, unfolding(fir_ast::specs::CircuitGrammar::line_headed, text_grammar::specs::Part::after))]
fn line_headed(
    alloc: Global,
    tokens: &mut Tokens<'_>,
    column: u32,
    ports: bool,
) -> Result<Line, ReadError>
    ensures { Reads ((g.line_headed limits (nested_within limits block_limit) column ports).reads tokens.old) result tokens.new }
{
    let (line, word) = first_word(alloc, tokens, column)?;
    line_from(alloc, tokens, column, ports, line, word)
}

/// A line of a module's block, where a port may stand or not; a `when` that is too deep is refused at its first word.
#[tactic(auto, using(crate::proofs::LineReading::head_read, crate::proofs::LineReading::head_fails), unfolding(fir_ast::specs::CircuitGrammar::line))]
fn read_line(
    alloc: Global,
    tokens: &mut Tokens<'_>,
    column: u32,
    ports: bool,
) -> Result<Line, ReadError>
    ensures { Reads ((g.line limits (nested_within limits block_limit) column ports).reads tokens.old) result tokens.new }
{
    let left = tokens.left();
    match line_headed(alloc, tokens, column, ports) {
        Ok(line) => Ok(line),
        Err(e) => Err(at_head(e, left)),
    }
}

#[tactic(auto, unfolding(fir_ast::specs::CircuitGrammar::first_line, text_grammar::specs::Part::either))]
fn first_line(alloc: Global, tokens: &mut Tokens<'_>, column: u32) -> Result<Line, ReadError>
    ensures { Reads ((g.first_line limits (nested_within limits block_limit) column).reads tokens.old) result tokens.new }
{
    if begins_else(tokens, column) {
        return first_else_line(alloc, tokens, column);
    }
    read_line(alloc, tokens, column, true)
}

/// Whether ports may stand behind a line.
fn still_ports(ports: bool, line: &Line) -> bool
    ensures { result ≡ g.still_ports ports line.now }
{
    match line {
        (Some(_), more) => ports && more.items().is_empty(),
        (None, _) => false,
    }
}

/// Adds what a line has.
fn add_line(ports: &mut Vec<Port>, rows: &mut Vec<Stmt>, line: Line) -> Result<(), Memory>
    ensures ports { IfOk result (λ _. ports.new.items ≡ ports.old.items ++ port_list line.0) }
    ensures rows { IfOk result (λ _. rows.new.items ≡ rows.old.items ++ line.1) }
{
    let (port, more) = line;
    if let Some(port) = port {
        ports.push(port)?;
    }
    let mut more = more.into_vec();
    rows.append(&mut more)?;
    Ok(())
}

/// The lines behind the first of a module's block: ports, until a statement has come, then statements.
fn lines_behind(
    alloc: Global,
    tokens: &mut Tokens<'_>,
    column: u32,
    first: Line,
) -> Result<(Seq<Port>, Seq<Stmt>), ReadError>
    ensures { Reads ((g.lines_behind limits (nested_within limits block_limit) column first).reads tokens.old) result tokens.new }
{
    let mut follow = still_ports(true, &first);
    let mut ports = Vec::new(alloc);
    let mut rows = Vec::new(alloc);
    add_line(&mut ports, &mut rows, first)?;
    for _turn in 0..tokens.left() {
        if !begins_row(tokens, column) {
            return Ok((Seq::of(ports), Seq::of(rows)));
        }
        let next = match read_line(alloc, tokens, column, follow) {
            Ok(next) => next,
            Err(e) => return Err(e),
        };
        follow = still_ports(follow, &next);
        add_line(&mut ports, &mut rows, next)?;
    }
    Ok((Seq::of(ports), Seq::of(rows)))
}

#[tactic(auto, unfolding(fir_ast::specs::CircuitGrammar::lines, text_grammar::specs::Part::after))]
fn lines(
    alloc: Global,
    tokens: &mut Tokens<'_>,
    column: u32,
) -> Result<(Seq<Port>, Seq<Stmt>), ReadError>
    ensures { Reads ((g.lines limits (nested_within limits block_limit) column).reads tokens.old) result tokens.new }
{
    let first = first_line(alloc, tokens, column)?;
    lines_behind(alloc, tokens, column, first)
}

/// The block of a module, which may be empty.
#[tactic(auto, unfolding(fir_ast::specs::CircuitGrammar::body, fir_ast::specs::Lines::indented, text_grammar::specs::Part::either, text_grammar::specs::Part::nothing))]
fn body(
    alloc: Global,
    tokens: &mut Tokens<'_>,
    column: u32,
) -> Result<(Seq<Port>, Seq<Stmt>), ReadError>
    ensures { Reads ((g.body limits (nested_within limits block_limit) column).reads tokens.old) result tokens.new }
{
    if tokens.is_deeper(column) {
        let inner = tokens.column();
        return lines(alloc, tokens, inner);
    }
    Ok((Seq::of(Vec::new(alloc)), Seq::of(Vec::new(alloc))))
}

#[tactic(auto, unfolding(fir_ast::specs::CircuitGrammar::public_word, text_grammar::specs::Part::both))]
fn public_word(tokens: &mut Tokens<'_>, column: u32) -> Result<u32, ReadError>
    ensures { Reads ((g.public_word column).reads tokens.old) result tokens.new }
{
    let line = line_word(tokens, column, b"public")?;
    tokens.keyword(b"module")?;
    Ok(line)
}

/// `module` or `public module`; its value is the number of the line.
#[tactic(auto, unfolding(fir_ast::specs::CircuitGrammar::module_word, text_grammar::specs::Part::either))]
fn module_word(tokens: &mut Tokens<'_>, column: u32) -> Result<u32, ReadError>
    ensures { Reads ((g.module_word column).reads tokens.old) result tokens.new }
{
    if begins_line(tokens, column, b"module") {
        return line_word(tokens, column, b"module");
    }
    public_word(tokens, column)
}

/// A module after its first words.
#[tactic(auto, unfolding(fir_ast::specs::CircuitGrammar::titled_module, text_grammar::specs::Part::both))]
fn titled_module(
    alloc: Global,
    tokens: &mut Tokens<'_>,
    column: u32,
    line: u32,
) -> Result<Module, ReadError>
    ensures { Reads ((g.titled_module limits (nested_within limits block_limit) column line).reads tokens.old) result tokens.new }
{
    let name = module_head(alloc, tokens)?;
    let (ports, body) = body(alloc, tokens, column)?;
    Ok(Module {
        line,
        name,
        ports,
        body,
    })
}

#[tactic(auto, unfolding(fir_ast::specs::CircuitGrammar::one_module, text_grammar::specs::Part::after))]
fn one_module(alloc: Global, tokens: &mut Tokens<'_>, column: u32) -> Result<Module, ReadError>
    ensures { Reads ((g.one_module limits (nested_within limits block_limit) column).reads tokens.old) result tokens.new }
{
    let line = module_word(tokens, column)?;
    titled_module(alloc, tokens, column, line)
}

/// The modules of a circuit, at the column that the first of them sets: at least one.
#[tactic(auto, unfolding(fir_ast::specs::CircuitGrammar::modules, text_grammar::specs::Part::both))]
fn modules(alloc: Global, tokens: &mut Tokens<'_>, column: u32) -> Result<Seq<Module>, ReadError>
    ensures { Reads ((g.modules limits (nested_within limits block_limit) column).reads tokens.old) result tokens.new }
{
    let first = one_module(alloc, tokens, column)?;
    more_modules(alloc, tokens, column, first)
}

#[tactic(auto, using(crate::proofs::BodyReading::either_begins))]
fn begins_module(tokens: &Tokens<'_>, column: u32) -> bool
    ensures { result ≡ starts (g.is_module column) tokens.now }
{
    begins_line(tokens, column, b"module") || begins_line(tokens, column, b"public")
}

/// The modules behind the first.
fn more_modules(
    alloc: Global,
    tokens: &mut Tokens<'_>,
    column: u32,
    first: Module,
) -> Result<Seq<Module>, ReadError>
    ensures { Reads (carried cons first ((many (g.is_module column) (g.one_module limits (nested_within limits block_limit) column)).reads tokens.old)) result tokens.new }
{
    let mut found = Vec::new(alloc);
    found.push(first)?;
    for _turn in 0..tokens.left() {
        if !begins_module(tokens, column) {
            return Ok(Seq::of(found));
        }
        let next = match one_module(alloc, tokens, column) {
            Ok(next) => next,
            Err(e) => return Err(e),
        };
        found.push(next)?;
    }
    Ok(Seq::of(found))
}

/// `FIRRTL version n.n.n`
#[tactic(auto, unfolding(fir_ast::specs::CircuitGrammar::version, text_grammar::specs::Part::both))]
fn version(tokens: &mut Tokens<'_>) -> Result<(), ReadError>
    ensures { Reads (g.version.reads tokens.old) result tokens.new }
{
    tokens.keyword(b"FIRRTL")?;
    tokens.keyword(b"version")?;
    tokens.number()?;
    tokens.mark(Symbol::Dot)?;
    tokens.number()?;
    tokens.mark(Symbol::Dot)?;
    tokens.number()?;
    tokens.mark(Symbol::LineEnd)?;
    Ok(())
}

/// The version, if it is there.
#[tactic(auto, unfolding(fir_ast::specs::CircuitGrammar::preamble, text_grammar::specs::Part::either, text_grammar::specs::Part::nothing))]
fn preamble(tokens: &mut Tokens<'_>) -> Result<(), ReadError>
    ensures { Reads (g.preamble.reads tokens.old) result tokens.new }
{
    if tokens.sees_word(b"FIRRTL") {
        return version(tokens);
    }
    Ok(())
}

/// Takes the word `circuit`, and gives its line and its column.
#[tactic(auto, using(crate::proofs::BodyReading::circuit_taken, crate::proofs::BodyReading::circuit_refused))]
fn circuit_word(tokens: &mut Tokens<'_>) -> Result<(u32, u32), ReadError>
    ensures { Reads (g.circuit_word.reads tokens.old) result tokens.new }
{
    if !tokens.sees_word(b"circuit") {
        return Err(tokens.refuse());
    }
    let place = (tokens.line(), tokens.column());
    tokens.skip();
    Ok(place)
}

/// The modules below the head of a circuit.
#[tactic(auto, unfolding(fir_ast::specs::Lines::indented))]
fn circuit_block(
    alloc: Global,
    tokens: &mut Tokens<'_>,
    column: u32,
) -> Result<Seq<Module>, ReadError>
    ensures { Reads ((n.indented column (g.modules limits (nested_within limits block_limit))).reads tokens.old) result tokens.new }
{
    if tokens.is_deeper(column) {
        let inner = tokens.column();
        return modules(alloc, tokens, inner);
    }
    Err(tokens.refuse())
}

/// A circuit after its first word.
#[tactic(auto, unfolding(fir_ast::specs::CircuitGrammar::titled, text_grammar::specs::Part::both))]
fn titled(alloc: Global, tokens: &mut Tokens<'_>, place: (u32, u32)) -> Result<Circuit, ReadError>
    ensures { Reads ((g.titled limits (nested_within limits block_limit) place).reads tokens.old) result tokens.new }
{
    let (line, column) = place;
    let name = circuit_head(alloc, tokens)?;
    let modules = circuit_block(alloc, tokens, column)?;
    Ok(Circuit {
        line,
        name,
        modules,
    })
}

#[tactic(auto, unfolding(text_grammar::specs::Part::after))]
fn headed_circuit(alloc: Global, tokens: &mut Tokens<'_>) -> Result<Circuit, ReadError>
    ensures { Reads ((after g.circuit_word (g.titled limits (nested_within limits block_limit))).reads tokens.old) result tokens.new }
{
    let place = circuit_word(tokens)?;
    titled(alloc, tokens, place)
}

#[tactic(auto, unfolding(fir_ast::specs::CircuitGrammar::circuit_text, text_grammar::specs::Part::both))]
fn circuit_text(alloc: Global, tokens: &mut Tokens<'_>) -> Result<Circuit, ReadError>
    ensures { Reads ((g.circuit_text limits (nested_within limits block_limit)).reads tokens.old) result tokens.new }
{
    preamble(tokens)?;
    let circuit = headed_circuit(alloc, tokens)?;
    Ok(circuit)
}

#[tactic(auto, using(crate::proofs::LineReading::head_read, crate::proofs::LineReading::head_fails), unfolding(fir_ast::specs::CircuitGrammar::circuit_within))]
fn circuit(alloc: Global, tokens: &mut Tokens<'_>) -> Result<Circuit, ReadError>
    ensures { Reads (g.circuit.reads tokens.old) result tokens.new }
{
    let left = tokens.left();
    match circuit_text(alloc, tokens) {
        Ok(circuit) => Ok(circuit),
        Err(e) => Err(at_head(e, left)),
    }
}

/// The circuit that the items spell, with nothing after it. The time and the memory are linear in the items and their names.
#[tactic(auto, using(text_grammar::proofs::Reading::whole_taken, text_grammar::proofs::Reading::whole_rest, text_grammar::proofs::Reading::whole_fails))]
pub fn whole_circuit(alloc: Global, tokens: &mut Tokens<'_>) -> Result<Circuit, ReadError>
    ensures { Reads ((whole g.circuit).reads tokens.old) result tokens.new }
{
    let circuit = match circuit(alloc, tokens) {
        Ok(circuit) => circuit,
        Err(e) => return Err(e),
    };
    if tokens.left() > 0 {
        return Err(tokens.refuse());
    }
    Ok(circuit)
}
