use std::test::Fail;
use tb_base::{Name, Place};
use text_grammar::*;

fn item(column: u32, token: Token) -> Item {
    Item {
        place: Place { line: 3, column },
        token,
    }
}

#[test]
fn a_cursor_takes_its_items(rt: HostRuntime) -> Result<(), Fail> {
    let mut items = Vec::new(rt.alloc());
    items.push(item(1, Token::Word(Name::of(b"poke".to_vec(rt.alloc())?))))?;
    items.push(item(6, Token::Word(Name::of(b"q".to_vec(rt.alloc())?))))?;
    items.push(item(8, Token::Symbol(Symbol::Equal)))?;
    items.push(item(10, Token::Number(7)))?;
    items.push(item(11, Token::TooWide))?;
    let mut tokens = Tokens::new(items.as_slice());
    assert!(rt; tokens.sees_word(b"poke") && tokens.sees_name() && !tokens.is_deeper(1));
    assert!(rt; matches!(tokens.leading(b"poke"), Ok(3)));
    assert!(rt; tokens.is_deeper(5) && tokens.column() == 6 && tokens.left() == 4);
    assert!(rt; matches!(tokens.keyword(b"p"), Err(ReadError::At(Kind::Syntax, 4))));
    let name = tokens.name(rt.alloc()).ok().ok_or("a name")?;
    assert!(rt; name.bytes() == b"q".as_slice() && tokens.sees(Symbol::Equal));
    assert!(rt; tokens.mark(Symbol::Equal).is_ok() && tokens.sees_number());
    assert!(rt; matches!(tokens.number(), Ok(7)));
    assert!(rt; matches!(tokens.number(), Err(ReadError::At(Kind::NumberTooWide, 1))));
    tokens.skip();
    assert!(rt; matches!(tokens.refuse(), ReadError::At(Kind::Syntax, 0)) && tokens.line() == 0);
    Ok(())
}

#[test]
fn words_and_numbers_are_the_longest(rt: HostRuntime) -> Result<(), Fail> {
    let word = lex::word(rt.alloc(), b"_a$9-b").ok().ok_or("a word")?;
    assert!(rt; word.len == 4 && matches!(&word.token, Some(Token::Word(_))));
    let number = lex::decimal(b"0042x");
    assert!(rt; number.len == 4 && matches!(&number.token, Some(Token::Number(42))));
    let limit = lex::decimal(b"340282366920938463463374607431768211456");
    assert!(rt; limit.len == 39 && matches!(&limit.token, Some(Token::TooWide)));
    Ok(())
}
