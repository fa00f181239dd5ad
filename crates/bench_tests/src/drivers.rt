//! Drivers of real texts, printed as core statements, for a circuit that takes values at `q` and gives them at `d`.

use net_core::{PortInfo, PortTable, Signal};
use std::alloc::Global;
use tb_base::{Memory, put};
use tl_ast::{TestStmt, print_test};
use tl_check::{CoreTest, check_test};
use tl_drivers::{expand, texts_leave_the_drivers_handle};
use tl_text::read_test;
use tl_written::texts_spell_written_tests;

/// How many bytes a test text may have.
const TEXT_LIMIT: usize = 262_144;

/// Adds an unsigned port, where none has its name.
fn add_port(
    alloc: Global,
    table: &mut PortTable,
    name: &[u8],
    input: bool,
    width: u8,
) -> Result<(), Memory> {
    let info = PortInfo {
        signal: Signal(0),
        input,
        signed: false,
        width,
    };
    let name = Vec::from_slice(alloc, name)?;
    match table.find(name.as_slice()) {
        None => table.add(name, info),
        Some(_) => Ok(()),
    }
}

fn table(alloc: Global) -> Result<PortTable, Memory> {
    let mut table = PortTable::new(alloc);
    add_port(alloc, &mut table, b"reset", true, 1)?;
    add_port(alloc, &mut table, b"q.ready", false, 1)?;
    add_port(alloc, &mut table, b"q.valid", true, 1)?;
    add_port(alloc, &mut table, b"q.bits", true, 8)?;
    add_port(alloc, &mut table, b"d.ready", true, 1)?;
    add_port(alloc, &mut table, b"d.valid", false, 1)?;
    add_port(alloc, &mut table, b"d.bits", false, 8)?;
    Ok(table)
}

/// The core form of a text, where it spells a test that keeps the rules.
fn expanded(alloc: Global, text: &[u8]) -> Option<CoreTest> {
    if text.len() > TEXT_LIMIT {
        return None;
    }
    let test = read_test(alloc, text).ok()?;
    texts_spell_written_tests();
    texts_leave_the_drivers_handle();
    let ports = table(alloc).ok()?;
    let checked = check_test(alloc, &test, &ports).ok()?;
    expand(alloc, checked).ok()
}

/// A text of these lines.
fn joined(alloc: Global, lines: &[&str]) -> Result<Vec<u8>, Memory> {
    let mut text = Vec::new(alloc);
    for line in lines {
        put(&mut text, line.as_bytes())?;
        put(&mut text, b"\n")?;
    }
    Ok(text)
}

/// Whether the core form of a text is printed as these lines.
fn becomes(alloc: Global, text: &str, lines: &[&str]) -> bool {
    let Some(core) = expanded(alloc, text.as_bytes()) else {
        return false;
    };
    match (print_test(alloc, core.test()), joined(alloc, lines)) {
        (Ok(printed), Ok(wanted)) => printed.as_slice() == wanted.as_slice(),
        _ => false,
    }
}

/// Whether these statements, and those in their blocks, all stand on one line.
#[cycle(lines)]
fn stand_on(stmts: &[TestStmt], wanted: u32) -> bool {
    for stmt in stmts {
        if !stands_on(stmt, wanted) {
            return false;
        }
    }
    true
}

/// Whether this statement, and those in its blocks, all stand on one line. Of the statements that no driver becomes, none does.
#[cycle(lines)]
fn stands_on(stmt: &TestStmt, wanted: u32) -> bool {
    match stmt {
        TestStmt::Poke { line, .. }
        | TestStmt::Peek { line, .. }
        | TestStmt::Expect { line, .. }
        | TestStmt::Step { line, .. }
        | TestStmt::Let { line, .. }
        | TestStmt::JoinStep { line, .. } => *line == wanted,
        TestStmt::If {
            line,
            taken,
            other,
            ..
        } => {
            *line == wanted
                && stand_on(taken.as_slice(), wanted)
                && stand_on(other.as_slice(), wanted)
        }
        TestStmt::While { line, body, .. } | TestStmt::Fork { line, body, .. } => {
            *line == wanted && stand_on(body.as_slice(), wanted)
        }
        _ => false,
    }
}

/// Whether the core form of a text has so many statements outside blocks, all on one line.
fn stands_on_line(alloc: Global, text: &str, count: usize, line: u32) -> bool {
    match expanded(alloc, text.as_bytes()) {
        Some(core) => {
            let body = core.test().body.items();
            body.len() == count && stand_on(body, line)
        }
        None => false,
    }
}

#[test]
fn enqueue_waits_until_it_is_ready(rt: HostRuntime) {
    let lines = [
        "poke q.bits = 7;",
        "poke q.valid = 1;",
        "fork monitor $d {",
        "  let $r = 0;",
        "  while $r == 0 {",
        "    peek q.ready into $r;",
        "    if $r == 0 {",
        "      step 1;",
        "    }",
        "  }",
        "}",
        "joinstep $d;",
        "poke q.valid = 0;",
    ];
    assert!(rt; becomes(rt.alloc(), "enqueue q 7;", &lines));
}

#[test]
fn enqueue_now_expects_that_it_is_ready(rt: HostRuntime) {
    let lines = [
        "let v = 3;",
        "poke q.bits = v + 1;",
        "poke q.valid = 1;",
        "fork monitor $d {",
        "  expect q.ready == 1;",
        "}",
        "joinstep $d;",
        "poke q.valid = 0;",
    ];
    assert!(rt; becomes(rt.alloc(), "let v = 3; enqueueNow q v + 1;", &lines));
}

#[test]
fn expect_dequeue_waits_until_it_is_valid(rt: HostRuntime) {
    let lines = [
        "let v = 3;",
        "poke d.ready = 1;",
        "fork monitor $d {",
        "  let $r = 0;",
        "  while $r == 0 {",
        "    peek d.valid into $r;",
        "    if $r == 0 {",
        "      step 1;",
        "    }",
        "  }",
        "  expect d.bits == v;",
        "}",
        "joinstep $d;",
        "poke d.ready = 0;",
    ];
    assert!(rt; becomes(rt.alloc(), "let v = 3; expectDequeue d v;", &lines));
}

#[test]
fn expect_dequeue_now_expects_both(rt: HostRuntime) {
    let lines = [
        "poke d.ready = 1;",
        "fork monitor $d {",
        "  expect d.valid == 1;",
        "  expect d.bits == 9;",
        "}",
        "joinstep $d;",
        "poke d.ready = 0;",
    ];
    assert!(rt; becomes(rt.alloc(), "expectDequeueNow d 9;", &lines));
}

#[test]
fn a_sequence_is_its_values_in_turn(rt: HostRuntime) {
    let three = "enqueueSeq q [5, 6, 7];";
    let turns = "enqueue q 5; enqueue q 6; enqueue q 7;";
    let alloc = rt.alloc();
    let (Some(sequence), Some(singles)) = (
        expanded(alloc, three.as_bytes()),
        expanded(alloc, turns.as_bytes()),
    ) else {
        assert!(rt; false);
        return;
    };
    let (Ok(sequence), Ok(singles)) = (
        print_test(alloc, sequence.test()),
        print_test(alloc, singles.test()),
    ) else {
        assert!(rt; false);
        return;
    };
    assert_eq!(rt; sequence.as_slice(), singles.as_slice());
}

#[test]
fn a_sequence_of_none_is_nothing(rt: HostRuntime) {
    assert!(rt;
        becomes(
            rt.alloc(),
            "enqueueSeq q []; expectDequeueSeq d []; step 1;",
            &["step 1;"]
        )
    );
}

#[test]
fn expect_invalid_waits_for_nothing(rt: HostRuntime) {
    let lines = [
        "fork monitor $d {",
        "  expect d.valid == 0;",
        "}",
        "step 2;",
    ];
    assert!(rt; becomes(rt.alloc(), "expectInvalid d; step 2;", &lines));
}

#[test]
fn a_reset_is_poked_for_its_steps(rt: HostRuntime) {
    let lines = ["poke reset = 1;", "step 3;", "poke reset = 0;"];
    assert!(rt; becomes(rt.alloc(), "reset 3;", &lines));
}

#[test]
fn drivers_in_blocks_give_way_too(rt: HostRuntime) {
    let text =
        "fork h { if 1 { expectInvalid d; } else { while 0 { repeat 2 { reset 1; } } } } join h;";
    let lines = [
        "fork h {",
        "  if 1 {",
        "    fork monitor $d {",
        "      expect d.valid == 0;",
        "    }",
        "  } else {",
        "    while 0 {",
        "      repeat 2 {",
        "        poke reset = 1;",
        "        step 1;",
        "        poke reset = 0;",
        "      }",
        "    }",
        "  }",
        "}",
        "join h;",
    ];
    assert!(rt; becomes(rt.alloc(), text, &lines));
}

#[test]
fn a_handle_is_joined_behind_a_driver(rt: HostRuntime) {
    let text = "fork h { } expectInvalid d; expectInvalid d; join h; fork monitor h { }";
    assert!(rt; expanded(rt.alloc(), text.as_bytes()).is_none());
    let lines = [
        "fork h {",
        "}",
        "fork monitor $d {",
        "  expect d.valid == 0;",
        "}",
        "fork monitor $d {",
        "  expect d.valid == 0;",
        "}",
        "join h;",
    ];
    assert!(rt;
        becomes(
            rt.alloc(),
            "fork h { } expectInvalid d; expectInvalid d; join h;",
            &lines
        )
    );
}

#[test]
fn each_statement_has_the_line_of_its_driver(rt: HostRuntime) {
    assert!(rt; stands_on_line(rt.alloc(), "\n\nenqueue q 7;", 5, 3));
    assert!(rt; stands_on_line(rt.alloc(), "\nexpectDequeueSeq d\n[1,\n2];", 8, 2));
    assert!(rt; stands_on_line(rt.alloc(), "\n\n\nreset 3;", 3, 4));
}
