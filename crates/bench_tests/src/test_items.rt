//! Texts, and the items that they are cut into.

use std::test::Fail;
use tb_base::Place;
use text_grammar::{Item, Symbol, Token};
use tl_lex::{end_place, items};

fn stands_at(item: &Item, line: u32, column: u32) -> bool {
    item.place == Place { line, column }
}

#[test]
fn a_test_is_cut(rt: HostRuntime) -> Result<(), Fail> {
    let text = b"poke io.a[1] = 0hFf; // to the end\r\n\texpect b <= (c << 2);\n";
    let found = items(rt.alloc(), text).ok().ok_or("items")?;
    let found = found.as_slice();
    assert_eq!(rt; found.len(), 19);
    assert!(rt; found[0].is_word(b"poke") && stands_at(&found[0], 1, 1));
    assert!(rt; found[4].is_symbol(Symbol::OpenBracket) && stands_at(&found[4], 1, 10));
    assert!(rt; found[8].is_the_number(255) && stands_at(&found[8], 1, 16));
    assert!(rt; found[10].is_word(b"expect") && stands_at(&found[10], 2, 2));
    assert!(rt; found[12].is_symbol(Symbol::LessEqual) && stands_at(&found[12], 2, 11));
    assert!(rt; found[15].is_symbol(Symbol::ShiftLeft) && stands_at(&found[15], 2, 17));
    assert!(rt; found[18].is_symbol(Symbol::Semicolon) && stands_at(&found[18], 2, 22));
    Ok(())
}

#[test]
fn numbers_of_each_base(rt: HostRuntime) -> Result<(), Fail> {
    let text = b"12 0b1100 0o14 0d12 0xC 0hc 0b 12abc";
    let found = items(rt.alloc(), text).ok().ok_or("items")?;
    let found = found.as_slice();
    assert_eq!(rt; found.len(), 10);
    for item in &found[..6] {
        assert!(rt; item.is_the_number(12));
    }
    assert!(rt; found[6].is_the_number(0) && stands_at(&found[6], 1, 29));
    assert!(rt; found[7].is_word(b"b") && stands_at(&found[7], 1, 30));
    assert!(rt; found[8].is_the_number(12) && found[9].is_word(b"abc"));
    Ok(())
}

#[test]
fn wide_numbers_and_strays(rt: HostRuntime) -> Result<(), Fail> {
    let text =
        b"340282366920938463463374607431768211455 340282366920938463463374607431768211456 \"\xc3";
    let found = items(rt.alloc(), text).ok().ok_or("items")?;
    match found.as_slice() {
        [widest, wide, quote, high] => {
            assert!(rt; widest.is_the_number(u128::MAX));
            assert!(rt; matches!(&wide.token, Token::TooWide) && stands_at(wide, 1, 41));
            assert!(rt; matches!(&quote.token, Token::Other) && stands_at(quote, 1, 81));
            assert!(rt; matches!(&high.token, Token::Other) && stands_at(high, 1, 82));
            Ok(())
        }
        _ => Err(Fail::from("four items")),
    }
}

#[test]
fn a_comment_may_end_the_text(rt: HostRuntime) -> Result<(), Fail> {
    let found = items(rt.alloc(), b"//\na//b\n;//c").ok().ok_or("items")?;
    match found.as_slice() {
        [word, end] => {
            assert!(rt; word.is_word(b"a") && stands_at(word, 2, 1));
            assert!(rt; end.is_symbol(Symbol::Semicolon) && stands_at(end, 3, 1));
        }
        _ => return Err(Fail::from("two items")),
    }
    assert_eq!(rt; end_place(b""), Place { line: 1, column: 1 });
    assert_eq!(rt; end_place(b"//\na//b\n;//c"), Place { line: 3, column: 5 });
    Ok(())
}
