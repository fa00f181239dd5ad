//! Texts that are read, printed and read again.

use std::test::Fail;
use tl_ast::{TestStmt, print_test};
use tl_text::read_test;

/// Two threads at the ends of a queue, as they are written.
const WRITTEN: &[u8] =
    b"reset 1;\nfork p { enqueueSeq io.enq [5, 6, 7]; }\nfork c { expectDequeueSeq io.deq [5, 6, 7]; }\njoin p;\njoin c;\n";

/// And as they are printed.
const PRINTED: &[u8] =
    b"reset 1;\nfork p {\n  enqueueSeq io.enq [ 5 , 6 , 7 ];\n}\nfork c {\n  expectDequeueSeq io.deq [ 5 , 6 , 7 ];\n}\njoin p;\njoin c;\n";

#[test]
fn the_queues_test_is_read_back(rt: HostRuntime) -> Result<(), Fail> {
    let test = read_test(rt.alloc(), WRITTEN)?;
    let printed = print_test(rt.alloc(), &test).ok().ok_or("memory")?;
    assert_eq!(rt; printed.as_slice(), PRINTED);
    let again = read_test(rt.alloc(), PRINTED)?;
    assert!(rt;
        matches!(again.body.items(), [_, _, TestStmt::Fork { line, .. }, ..] if *line == 5)
    );
    let reprinted = print_test(rt.alloc(), &again).ok().ok_or("memory")?;
    assert_eq!(rt; reprinted.as_slice(), PRINTED);
    Ok(())
}
