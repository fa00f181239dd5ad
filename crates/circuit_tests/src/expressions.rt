use fir_ast::{Expr, Ty};
use fir_expr::*;
use std::alloc::Global;
use std::test::Fail;
use tb_base::{Name, Op, Place};
use text_grammar::{Form, Item, Kind, ReadError, Symbol, Token, Tokens};

fn put(items: &mut Vec<Item>, token: Token) -> Result<(), Fail> {
    let place = Place { line: 2, column: 7 };
    items.push(Item { place, token })?;
    Ok(())
}

fn mark(items: &mut Vec<Item>, symbol: Symbol) -> Result<(), Fail> {
    put(items, Token::Symbol(symbol))
}

fn name(alloc: Global, bytes: &[u8]) -> Result<Name, Fail> {
    Ok(Name::of(Vec::from_slice(alloc, bytes)?))
}

fn word(alloc: Global, items: &mut Vec<Item>, bytes: &[u8]) -> Result<(), Fail> {
    let name = name(alloc, bytes)?;
    put(items, Token::Word(name))
}

fn is_word(expr: &Expr, bytes: &[u8]) -> bool {
    match expr {
        Expr::Ident(name) => name.bytes() == bytes,
        _ => false,
    }
}

#[test]
fn a_vector_is_read(rt: HostRuntime) -> Result<(), Fail> {
    let alloc = rt.alloc();
    let mut items = Vec::new(alloc);
    word(alloc, &mut items, b"UInt")?;
    mark(&mut items, Symbol::Less)?;
    put(&mut items, Token::Number(8))?;
    mark(&mut items, Symbol::Greater)?;
    mark(&mut items, Symbol::OpenBracket)?;
    put(&mut items, Token::Number(3))?;
    mark(&mut items, Symbol::CloseBracket)?;
    let mut tokens = Tokens::new(items.as_slice());
    match ty(alloc, &mut tokens) {
        Ok(Ty::Vector(of, 3)) => assert!(rt; matches!(of.get(), Ty::UInt(Some(8)))),
        _ => return Err("a vector of three".into()),
    }
    assert_eq!(rt; tokens.left(), 0);
    Ok(())
}

#[test]
fn an_operation_is_read(rt: HostRuntime) -> Result<(), Fail> {
    let alloc = rt.alloc();
    let mut items = Vec::new(alloc);
    word(alloc, &mut items, b"bits")?;
    mark(&mut items, Symbol::OpenParen)?;
    word(alloc, &mut items, b"x")?;
    for number in [7, 4] {
        mark(&mut items, Symbol::Comma)?;
        put(&mut items, Token::Number(number))?;
    }
    mark(&mut items, Symbol::CloseParen)?;
    let mut tokens = Tokens::new(items.as_slice());
    match expr(alloc, &mut tokens) {
        Ok(Expr::Apply { op, args, nums }) => {
            assert!(rt; matches!(op, Op::Bits));
            assert_eq!(rt; args.len(), 1);
            assert_eq!(rt; nums.items(), [7, 4].as_slice());
        }
        _ => return Err("an operation".into()),
    }
    Ok(())
}

#[test]
fn a_literal_goes_on_from_its_word(rt: HostRuntime) -> Result<(), Fail> {
    let alloc = rt.alloc();
    let mut items = Vec::new(alloc);
    mark(&mut items, Symbol::OpenParen)?;
    put(&mut items, Token::Text(name(alloc, b"h-1f")?))?;
    mark(&mut items, Symbol::CloseParen)?;
    let mut tokens = Tokens::new(items.as_slice());
    match expr_from(alloc, &mut tokens, name(alloc, b"SInt")?) {
        Ok(
            Expr::Lit {
                signed: true,
                width: None,
                negative: true,
                magnitude: 31,
            },
        ) => Ok(()),
        _ => Err("a literal of -31".into()),
    }
}

#[test]
fn a_reference_has_its_suffixes(rt: HostRuntime) -> Result<(), Fail> {
    let alloc = rt.alloc();
    let mut items = Vec::new(alloc);
    word(alloc, &mut items, b"io")?;
    mark(&mut items, Symbol::OpenBracket)?;
    put(&mut items, Token::Number(2))?;
    mark(&mut items, Symbol::CloseBracket)?;
    let mut tokens = Tokens::new(items.as_slice());
    match reference(alloc, &mut tokens) {
        Ok(Expr::At(of, 2)) => assert!(rt; is_word(of.get(), b"io")),
        _ => return Err("an element".into()),
    }
    Ok(())
}

#[test]
fn a_partial_connect_is_unsupported(rt: HostRuntime) -> Result<(), Fail> {
    let alloc = rt.alloc();
    let mut items = Vec::new(alloc);
    mark(&mut items, Symbol::LeftArrow)?;
    word(alloc, &mut items, b"x")?;
    let mut tokens = Tokens::new(items.as_slice());
    match reference_from(alloc, &mut tokens, name(alloc, b"out")?) {
        Err(ReadError::At(Kind::Unsupported(Form::Connect), 2)) => Ok(()),
        _ => Err("an unsupported connection".into()),
    }
}
