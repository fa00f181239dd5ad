//! What is marked among the items of a line: forms that are known and not taken, and brackets past their limit.

ghost use Rattle.std.specs.Prelude.{◌≡◌, ◌≤◌, true};
ghost use Rattle.fir_lex.specs.Marks as spec;

use text_grammar::{Form, Item, Symbol, Token};

/// How many brackets may be open at once in a line.
const LIMIT: u32 = 64;

/// Which way a bracket faces.
#[derive(Clone, Copy, Debug, PartialEq, Eq)]
pub enum Bracket {
    Open,
    Close,
}

fn chosen(yes: bool, form: Form) -> Option<Form>
    ensures { result ≡ spec.chosen yes form }
{
    if yes { Some(form) } else { None }
}

/// The operations that are known and not taken, before `(`.
fn operation(item: &Item) -> Option<Form>
    ensures { result ≡ spec.operation item.now }
{
    let found = item.is_word(b"asClock")
        || item.is_word(b"asAsyncReset")
        || item.is_word(b"validif");
    chosen(found, Form::Operation)
}

fn attach(item: &Item) -> Option<Form>
    ensures { result ≡ spec.attach item.now }
{
    chosen(item.is_word(b"attach"), Form::Connect)
}

/// What is declared by these words, before its name.
fn declared(item: &Item) -> Option<Form>
    ensures { result ≡ spec.declared item.now }
{
    if item.is_word(b"extmodule") || item.is_word(b"intmodule") {
        return Some(Form::ExternalModule);
    }
    if item.is_word(b"layer")
        || item.is_word(b"layerblock")
        || item.is_word(b"define")
        || item.is_word(b"propassign")
    {
        return Some(Form::Statement);
    }
    let found = item.is_word(b"mem") || item.is_word(b"cmem") || item.is_word(b"smem");
    chosen(found, Form::Memory)
}

/// Ports of memories, before `mport`.
fn memory_port(item: &Item) -> Option<Form>
    ensures { result ≡ spec.memory_port item.now }
{
    let found = item.is_word(b"infer")
        || item.is_word(b"read")
        || item.is_word(b"write")
        || item.is_word(b"rdwr");
    chosen(found, Form::Memory)
}

/// The form of a line that begins with these two items.
fn line_form(item: &Item, next: &Item) -> Option<Form>
    ensures { result ≡ spec.line_form item.now next.now }
{
    if next.is_symbol(Symbol::OpenParen) {
        return attach(item);
    }
    if next.is_word(b"is") {
        return None;
    }
    if next.is_word(b"mport") {
        return match memory_port(item) {
            Some(form) => Some(form),
            None => declared(item),
        };
    }
    if next.is_name() { declared(item) } else { None }
}

/// The form that begins at an item, before another one.
fn form_of(first: bool, item: &Item, next: &Item) -> Option<Form>
    ensures { result ≡ spec.form_of first item.now next.now }
{
    if next.is_symbol(Symbol::OpenParen) {
        if let Some(form) = operation(item) {
            return Some(form);
        }
    }
    if first { line_form(item, next) } else { None }
}

/// Marks an item, if a form begins there.
fn mark_form(item: &mut Item, form: Option<Form>)
    ensures { item.new ≡ spec.unsupported form item.old }
{
    if let Some(form) = form {
        item.token = Token::Unsupported(form);
    }
}

/// Marks the forms among the items of a line.
fn mark_forms(items: &mut [Item])
    ensures { items.new ≡ spec.forms_marked true items.old }
{
    for at in 0..items.len().saturating_sub(1) {
        let form = form_of(at == 0, &items[at], &items[at + 1]);
        mark_form(&mut items[at], form);
    }
}

fn bracket_of(symbol: Symbol) -> Option<Bracket>
    ensures { result ≡ spec.symbol_bracket symbol }
{
    match symbol {
        Symbol::OpenParen => Some(Bracket::Open),
        Symbol::OpenBracket => Some(Bracket::Open),
        Symbol::OpenBrace => Some(Bracket::Open),
        Symbol::OpenEnumeration => Some(Bracket::Open),
        Symbol::CloseParen => Some(Bracket::Close),
        Symbol::CloseBracket => Some(Bracket::Close),
        Symbol::CloseBrace => Some(Bracket::Close),
        _ => None,
    }
}

/// Marks an item behind so many open brackets, if it passes the limit. Answers how many are open behind it.
fn mark_bracket(item: &mut Item, depth: u32) -> u32
    requires { depth ≤ 64 }
    ensures depth { result ≡ (spec.token_step depth item.old.token).0 }
    ensures token { item.new.token ≡ (spec.token_step depth item.old.token).1 }
    ensures place { item.new.place ≡ item.old.place }
    ensures bound { result ≤ 64 }
{
    let symbol = match &item.token {
        Token::Symbol(symbol) => *symbol,
        _ => return depth,
    };
    match bracket_of(symbol) {
        Some(Bracket::Open) => {
            if depth < LIMIT {
                return depth + 1;
            }
            item.token = Token::TooDeep(symbol);
            depth
        }
        Some(Bracket::Close) => depth.saturating_sub(1),
        None => depth,
    }
}

/// Marks the brackets past their limit among the items of a line.
fn mark_brackets(items: &mut [Item])
    ensures { items.new ≡ spec.brackets_marked 0 items.old }
{
    let mut depth = 0;
    for item in items.iter_mut() {
        depth = mark_bracket(item, depth);
    }
}

/// Marks the items of a line. The cost is linear in their number.
#[tactic(auto, unfolding(crate::specs::Marks::marked))]
pub fn mark(items: &mut [Item])
    ensures { items.new ≡ spec.marked items.old }
{
    mark_forms(items);
    mark_brackets(items);
}
