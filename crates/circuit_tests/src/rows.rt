use fir_ast::{Expr, Stmt, Ty};
use fir_rows::*;
use std::alloc::Global;
use std::test::Fail;
use tb_base::{Name, Place};
use text_grammar::{Form, Item, Kind, ReadError, Symbol, Token, Tokens};

fn put(items: &mut Vec<Item>, token: Token) -> Result<(), Fail> {
    let place = Place { line: 3, column: 9 };
    items.push(Item { place, token })?;
    Ok(())
}

fn mark(items: &mut Vec<Item>, symbol: Symbol) -> Result<(), Fail> {
    put(items, Token::Symbol(symbol))
}

fn name(alloc: Global, bytes: &[u8]) -> Result<Name, Fail> {
    Ok(Name::of(Vec::from_slice(alloc, bytes)?))
}

fn word(alloc: Global, items: &mut Vec<Item>, bytes: &[u8]) -> Result<(), Fail> {
    let name = name(alloc, bytes)?;
    put(items, Token::Word(name))
}

fn is_word(expr: &Expr, bytes: &[u8]) -> bool {
    match expr {
        Expr::Ident(name) => name.bytes() == bytes,
        _ => false,
    }
}

#[test]
fn sinks_are_driven_and_invalidated(rt: HostRuntime) -> Result<(), Fail> {
    let alloc = rt.alloc();
    let mut items = Vec::new(alloc);
    mark(&mut items, Symbol::LessEqual)?;
    word(alloc, &mut items, b"a")?;
    mark(&mut items, Symbol::LineEnd)?;
    word(alloc, &mut items, b"invalid")?;
    mark(&mut items, Symbol::LineEnd)?;
    word(alloc, &mut items, b"is")?;
    word(alloc, &mut items, b"invalid")?;
    mark(&mut items, Symbol::LineEnd)?;
    let mut tokens = Tokens::new(items.as_slice());
    let driven = sink_marked(alloc, &mut tokens, 4, name(alloc, b"node")?);
    match driven.ok().ok_or("a connect")? {
        Stmt::Connect {
            line: 4,
            sink,
            value,
        } => assert!(rt; is_word(&sink, b"node") && is_word(&value, b"a")),
        _ => return Err(Fail::from("another row")),
    }
    let behind_is = invalidated(&mut tokens, 5, Expr::Ident(name(alloc, b"wire")?));
    match behind_is.ok().ok_or("an invalidation")? {
        Stmt::Invalid { line: 5, sink } => assert!(rt; is_word(&sink, b"wire")),
        _ => return Err(Fail::from("another row")),
    }
    let invalid = sink_row(alloc, &mut tokens, 6, name(alloc, b"when")?);
    match invalid.ok().ok_or("an invalidation")? {
        Stmt::Invalid { line: 6, sink } => assert!(rt; is_word(&sink, b"when")),
        _ => return Err(Fail::from("another row")),
    }
    assert!(rt; tokens.left() == 0);
    Ok(())
}

#[test]
fn ports_and_heads(rt: HostRuntime) -> Result<(), Fail> {
    let alloc = rt.alloc();
    let mut items = Vec::new(alloc);
    mark(&mut items, Symbol::Colon)?;
    word(alloc, &mut items, b"Clock")?;
    mark(&mut items, Symbol::LineEnd)?;
    word(alloc, &mut items, b"M")?;
    mark(&mut items, Symbol::Colon)?;
    mark(&mut items, Symbol::LineEnd)?;
    word(alloc, &mut items, b"C")?;
    mark(&mut items, Symbol::Colon)?;
    mark(&mut items, Symbol::Percent)?;
    let mut tokens = Tokens::new(items.as_slice());
    let port = port(alloc, &mut tokens, 2, true, name(alloc, b"is")?);
    let port = port.ok().ok_or("a port")?;
    assert!(rt; port.line == 2 && port.output && port.name.bytes() == b"is".as_slice());
    assert!(rt; matches!(&port.ty, Ty::Clock));
    let module = module_head(alloc, &mut tokens).ok().ok_or("a head")?;
    assert!(rt; module.bytes() == b"M".as_slice());
    let circuit = circuit_head(alloc, &mut tokens);
    assert!(rt;
        matches!(
            circuit,
            Err(ReadError::At(Kind::Unsupported(Form::Annotation), 1))
        )
    );
    Ok(())
}
