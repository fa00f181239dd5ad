//! Texts, and what is read of them.

use fir_ast::print;
use fir_read::{ReadFault, What, read};
use std::test::Fail;

const ADDER: &[u8] =
    b"circuit Add :\n  module Add :\n    input a : UInt<129>\n    input b : UInt<8>\n    output out : UInt<9>\n    connect out, add(a, b)\n";

const TWO: &[u8] =
    b"circuit C :\n  module C :\n    input a : UInt<1>\n    output out : UInt<1>\n    out <= a\n    when a :\n      skip\n";

#[test]
fn a_wide_port(rt: HostRuntime) {
    let result = read(rt.alloc(), ADDER);
    assert!(rt;
        matches!(&result, Err(ReadFault::NumberTooWide(place)) if place.line == 3 && place.column == 20)
    );
}

#[test]
fn two_spellings(rt: HostRuntime) -> Result<(), Fail> {
    let circuit = read(rt.alloc(), TWO)?;
    let printed = print(rt.alloc(), &circuit).ok().ok_or("memory")?;
    let text =
        b"circuit C :\n  module C :\n    input a : UInt<1>\n    output out : UInt<1>\n    connect out, a\n    when a :\n      skip\n";
    assert_eq!(rt; printed.as_slice(), text.as_slice());
    Ok(())
}

#[test]
fn a_cut_text_is_faulty_at_its_end(rt: HostRuntime) {
    let text =
        b"circuit C :\n  module C :\n    input a : UInt<1>\n    output out : UInt<1>\n    out <= a\n    when a :\n";
    let result = read(rt.alloc(), text);
    assert!(rt;
        matches!(&result, Err(ReadFault::Syntax(place)) if place.line == 7 && place.column == 1)
    );
}

#[test]
fn a_tab_is_faulty(rt: HostRuntime) {
    let text =
        b"circuit C :\n  module C :\n    input a : UInt<1>\n    output out : UInt<1>\n\tout <= a\n    when a :\n      skip\n";
    let result = read(rt.alloc(), text);
    assert!(rt;
        matches!(&result, Err(ReadFault::Syntax(place)) if place.line == 5 && place.column == 1)
    );
}

#[test]
fn an_annotation_is_unsupported(rt: HostRuntime) {
    let result = read(rt.alloc(), b"circuit X :%[[{}]]\n");
    assert!(rt;
        matches!(&result, Err(ReadFault::Unsupported(place, What::Annotation)) if place.line == 1 && place.column == 12)
    );
}

#[test]
fn no_word_is_reserved(rt: HostRuntime) -> Result<(), Fail> {
    let text =
        b"circuit C :\n  module C :\n    input when : UInt<1>\n    input is : UInt<1>\n    output else : UInt<1>\n    else <= is\n    when is :\n      else is invalid\n    else is invalid\n    input <= when\n";
    let circuit = read(rt.alloc(), text)?;
    let printed = print(rt.alloc(), &circuit).ok().ok_or("memory")?;
    let wanted =
        b"circuit C :\n  module C :\n    input when : UInt<1>\n    input is : UInt<1>\n    output else : UInt<1>\n    connect else, is\n    when is :\n      invalidate else\n    invalidate else\n    connect input, when\n";
    assert_eq!(rt; printed.as_slice(), wanted.as_slice());
    Ok(())
}

#[test]
fn else_when_is_one_block(rt: HostRuntime) -> Result<(), Fail> {
    let text =
        b"circuit C :\n  public module C :\n    when a :\n      skip\n    else when b :\n      skip\n    else :\n      skip\n";
    let circuit = read(rt.alloc(), text)?;
    let printed = print(rt.alloc(), &circuit).ok().ok_or("memory")?;
    let wanted =
        b"circuit C :\n  module C :\n    when a :\n      skip\n    else :\n      when b :\n        skip\n      else :\n        skip\n";
    assert_eq!(rt; printed.as_slice(), wanted.as_slice());
    Ok(())
}

#[test]
fn no_port_behind_a_statement(rt: HostRuntime) {
    let result = read(
        rt.alloc(),
        b"circuit C :\n  module C :\n    skip\n    input y : UInt<1>\n",
    );
    assert!(rt;
        matches!(&result, Err(ReadFault::Syntax(place)) if place.line == 4 && place.column == 11)
    );
}

#[test]
fn an_else_without_a_when(rt: HostRuntime) {
    let result = read(
        rt.alloc(),
        b"circuit C :\n  module C :\n    skip\n    else :\n      skip\n",
    );
    assert!(rt;
        matches!(&result, Err(ReadFault::Syntax(place)) if place.line == 4 && place.column == 10)
    );
}

#[test]
fn a_line_at_no_open_block(rt: HostRuntime) {
    let result = read(
        rt.alloc(),
        b"FIRRTL version 3.3.0\ncircuit C :\n  module C :\n    skip\n   skip\n",
    );
    assert!(rt;
        matches!(&result, Err(ReadFault::Syntax(place)) if place.line == 5 && place.column == 4)
    );
}
