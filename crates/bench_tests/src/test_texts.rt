//! Texts, and what is read of them.

use std::test::Fail;
use tl_ast::print_test;
use tl_text::{TestReadFault, read_test};

#[test]
fn two_threads(rt: HostRuntime) -> Result<(), Fail> {
    let text =
        b"reset 1;\nfork p { enqueueSeq io.enq [5, 6, 7]; }\nfork c{expectDequeueSeq io.deq[5,6,7];}join p;join c;\n";
    let wanted =
        b"reset 1;\nfork p {\n  enqueueSeq io.enq [ 5 , 6 , 7 ];\n}\nfork c {\n  expectDequeueSeq io.deq [ 5 , 6 , 7 ];\n}\njoin p;\njoin c;\n";
    let test = read_test(rt.alloc(), text)?;
    let printed = print_test(rt.alloc(), &test).ok().ok_or("memory")?;
    assert_eq!(rt; printed.as_slice(), wanted.as_slice());
    Ok(())
}

#[test]
fn parentheses_are_few(rt: HostRuntime) -> Result<(), Fail> {
    let test = read_test(rt.alloc(), b"let a=((1+2)+(3+0x4))*-(-b)==(c<d);")?;
    let printed = print_test(rt.alloc(), &test).ok().ok_or("memory")?;
    let wanted = b"let a = ( 1 + 2 + ( 3 + 4 ) ) * - - b == ( c < d );\n";
    assert_eq!(rt; printed.as_slice(), wanted.as_slice());
    Ok(())
}

#[test]
fn an_unfinished_block(rt: HostRuntime) {
    let result = read_test(rt.alloc(), b"while a {\n  step 1;\n");
    assert!(rt;
        matches!(&result, Err(TestReadFault::Syntax(place)) if place.line == 3 && place.column == 1)
    );
}

#[test]
fn a_wide_step(rt: HostRuntime) {
    let result = read_test(rt.alloc(), b"step 340282366920938463463374607431768211456;");
    assert!(rt;
        matches!(&result, Err(TestReadFault::NumberTooWide(place)) if place.line == 1 && place.column == 6)
    );
}

#[test]
fn a_ninth_fork(rt: HostRuntime) {
    let result = read_test(
        rt.alloc(),
        b"fork a{fork a{fork a{fork a{fork a{fork a{fork a{fork a{enqueueSeq q[];}",
    );
    assert!(rt;
        matches!(&result, Err(TestReadFault::TooDeep(place)) if place.line == 1 && place.column == 57)
    );
}
