//! Texts, and the items that they are cut into.

use fir_lex::{end_place, items};
use std::test::Fail;
use tb_base::Place;
use text_grammar::{Form, Item, Symbol, Token};

fn stands_at(item: &Item, line: u32, column: u32) -> bool {
    item.place == Place { line, column }
}

#[test]
fn a_line_of_a_circuit_is_cut(rt: HostRuntime) -> Result<(), Fail> {
    let text = b"circuit Q2 :\r\n  node up = tail(_up_T, 0h1) @[Q2.scala 9:22] ; up\n";
    let found = items(rt.alloc(), text).ok().ok_or("items")?;
    let found = found.as_slice();
    assert_eq!(rt; found.len(), 14);
    assert!(rt; found[0].is_word(b"circuit") && stands_at(&found[0], 1, 1));
    assert!(rt; found[3].is_symbol(Symbol::LineEnd) && stands_at(&found[3], 1, 13));
    assert!(rt; found[4].is_word(b"node") && stands_at(&found[4], 2, 3));
    assert!(rt; found[7].is_word(b"tail") && found[9].is_word(b"_up_T"));
    assert!(rt; found[11].is_the_number(1) && stands_at(&found[11], 2, 25));
    assert!(rt; found[13].is_symbol(Symbol::LineEnd) && stands_at(&found[13], 2, 29));
    Ok(())
}

#[test]
fn faulty_bytes_have_places(rt: HostRuntime) -> Result<(), Fail> {
    let found = items(rt.alloc(), b"\twire \"a\\\"b\" $")
        .ok()
        .ok_or("items")?;
    let found = found.as_slice();
    assert_eq!(rt; found.len(), 5);
    assert!(rt; matches!(&found[0].token, Token::Other) && stands_at(&found[0], 1, 1));
    assert!(rt; found[1].is_word(b"wire"));
    match &found[2].token {
        Token::Text(text) => assert_eq!(rt; text.bytes(), b"a\\\"b".as_slice()),
        _ => return Err("a string".into()),
    }
    assert!(rt; found[3].is_symbol(Symbol::LineEnd) && stands_at(&found[3], 1, 13));
    assert!(rt; matches!(&found[4].token, Token::Other) && stands_at(&found[4], 1, 14));
    Ok(())
}

#[test]
fn forms_are_marked(rt: HostRuntime) -> Result<(), Fail> {
    let found = items(rt.alloc(), b"smem m : {| a |}\nmem is invalid")
        .ok()
        .ok_or("items")?;
    let found = found.as_slice();
    assert_eq!(rt; found.len(), 12);
    assert!(rt; matches!(&found[0].token, Token::Unsupported(Form::Memory)));
    assert!(rt; found[3].is_symbol(Symbol::OpenEnumeration));
    assert!(rt; matches!(&found[5].token, Token::Other));
    assert!(rt; found[8].is_word(b"mem") && stands_at(&found[8], 2, 1));
    Ok(())
}

#[test]
fn a_text_ends_behind_its_last_byte(rt: HostRuntime) {
    assert_eq!(rt; end_place(b""), Place { line: 1, column: 1 });
    assert_eq!(rt; end_place(b"skip\nab"), Place { line: 2, column: 3 });
}
