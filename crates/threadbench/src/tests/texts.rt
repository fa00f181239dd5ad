//! Whole test texts, through the whole command: what is refused and why, and how far a test goes in time.

use super::circuits::QUEUE;
use super::designs::{SIGNED, answered};
use super::{ADDER, DELAY};
use std::alloc::Global;
use std::process::Abort;
use std::test::Fail;

/// Checks that a run of each test on the circuit has its status and its report.
pub(super) fn each_is_answered(
    rt: &impl Abort,
    alloc: Global,
    circuit: &str,
    rows: &[(&str, u8, &str)],
) -> Result<(), Fail> {
    for (test, status, report) in rows {
        let (found, put) = answered(alloc, &["run", "c", "t"], circuit, *test)?;
        assert_eq!(rt; found, *status, "{test}");
        assert_eq!(rt; put.as_slice(), report.as_bytes(), "{test}");
    }
    Ok(())
}

/// Checks that each test is refused on the circuit with its line.
fn each_is_refused(
    rt: &impl Abort,
    alloc: Global,
    circuit: &str,
    rows: &[(&str, &str)],
) -> Result<(), Fail> {
    for (test, wanted) in rows {
        let (found, put) = answered(alloc, &["run", "c", "t"], circuit, *test)?;
        assert_eq!(rt; found, 5, "{test}");
        let refusal = format!(in alloc; "test: {}\n", *wanted)?;
        assert_eq!(rt; put.as_slice(), refusal.as_bytes(), "{test}");
    }
    Ok(())
}

#[test]
fn a_text_that_spells_no_test_is_refused_at_its_first_faulty_place(
    rt: HostRuntime,
) -> Result<(), Fail> {
    let rows = [
        ("step 1", "line 1 column 7: syntax"),
        ("peek a;;", "line 1 column 8: syntax"),
        ("poke a = 1;\n\texpect a = 1;", "line 2 column 11: syntax"),
        ("peek a; $", "line 1 column 9: syntax"),
        ("peek q; step", "line 1 column 13: syntax"),
        (
            "step 340282366920938463463374607431768211456;",
            "line 1 column 6: number too wide",
        ),
        (
            "poke out = 0x100000000000000000000000000000000;",
            "line 1 column 12: number too wide",
        ),
    ];
    each_is_refused(&rt, rt.alloc(), ADDER, rows.as_slice())
}

#[test]
fn each_rule_that_is_broken_alone_is_told(rt: HostRuntime) -> Result<(), Fail> {
    let rows = [
        ("peek q;", "line 1: unknown port"),
        ("poke q = 1;", "line 1: unknown port"),
        ("step 1;\nexpect q == 1;", "line 2: unknown port"),
        ("reset 1;", "line 1: unknown port"),
        ("poke out = 1;", "line 1: poke of an output"),
        ("poke a = 256;", "line 1: literal too wide"),
        ("expect out == 512;", "line 1: literal too wide"),
        ("poke a = 1 + v;", "line 1: unknown variable"),
        ("set v = 1;", "line 1: unknown variable"),
        ("peek a into v;", "line 1: unknown variable"),
        ("join h;", "line 1: unknown handle"),
        ("joinstep h;", "line 1: unknown handle"),
        (
            "fork monitor m { peek out; }\njoin m;",
            "line 2: join of a later region",
        ),
        (
            "fork monitor m {\nfork main n { } }",
            "line 2: fork into an earlier region",
        ),
        ("enqueue a 1;", "line 1: not ready-valid"),
        ("step 0;", "line 1: step of zero"),
    ];
    each_is_refused(&rt, rt.alloc(), ADDER, rows.as_slice())
}

#[test]
fn of_several_broken_rules_the_first_is_told(rt: HostRuntime) -> Result<(), Fail> {
    let rows = [
        ("poke out = 512;", "line 1: poke of an output"),
        ("poke out = v;", "line 1: poke of an output"),
        ("poke q = v;", "line 1: unknown port"),
        ("step 0; peek q;", "line 1: step of zero"),
        ("fork h { step 0; }\njoin g;", "line 1: step of zero"),
        ("if v { peek q; }\npeek q;", "line 1: unknown variable"),
        ("poke a = 1 + 1;\njoin h;", "line 2: unknown handle"),
        ("let v = 1;\npoke out = v;", "line 2: poke of an output"),
    ];
    each_is_refused(&rt, rt.alloc(), ADDER, rows.as_slice())
}

#[test]
fn rules_of_a_queue(rt: HostRuntime) -> Result<(), Fail> {
    let rows = [
        ("reset 0;", "line 1: step of zero"),
        ("enqueue io.deq 1;", "line 1: not ready-valid"),
        ("expectDequeue io.enq 1;", "line 1: not ready-valid"),
        ("enqueue io.enq 256;", "line 1: literal too wide"),
        ("peek io.enq;", "line 1: unknown port"),
        ("poke io.enq.ready = 1;", "line 1: poke of an output"),
        ("reset 1;", "not in the first form"),
        ("enqueue io.enq 255;", "not in the first form"),
    ];
    each_is_refused(&rt, rt.alloc(), QUEUE, rows.as_slice())
}

#[test]
fn statements_that_compute_are_run(rt: HostRuntime) -> Result<(), Fail> {
    let alone = "circuit Add\nfinished at 0 after 1 actions, 0 records\n";
    let two = "circuit Add\nfinished at 0 after 2 actions, 0 records\n";
    let rows = [
        ("poke a = 1 + 2;", 0, two),
        (
            "expect out == - 0 + 1;",
            1,
            "circuit Add\n0 / 1 expect out = 0 wanted 1\nfailed at 0 after 2 actions, 1 records\n",
        ),
        ("let v = 1;", 0, alone),
        ("let v = 1; peek out into v;", 0, two),
        ("while 0 { }", 0, alone),
    ];
    each_is_answered(&rt, rt.alloc(), ADDER, rows.as_slice())
}

#[test]
fn blocks_are_run(rt: HostRuntime) -> Result<(), Fail> {
    let rows = [
        (
            "step 1; if 1 { }",
            0,
            "circuit Add\nfinished at 1 after 2 actions, 0 records\n",
        ),
        (
            "repeat 2 { step 1; }",
            0,
            "circuit Add\nfinished at 2 after 3 actions, 0 records\n",
        ),
        (
            "fork h { } join h;",
            0,
            "circuit Add\nfinished at 0 after 4 actions, 0 records\n",
        ),
        (
            "fork monitor h { } joinstep h;",
            0,
            "circuit Add\nfinished at 1 after 4 actions, 0 records\n",
        ),
    ];
    each_is_answered(&rt, rt.alloc(), ADDER, rows.as_slice())
}

#[test]
fn numbers_that_a_signed_port_cannot_hold(rt: HostRuntime) -> Result<(), Fail> {
    let rows = [
        ("poke a = 8;", "line 1: literal too wide"),
        ("poke a = -9;", "line 1: literal too wide"),
        ("expect out == 16;", "line 1: literal too wide"),
    ];
    each_is_refused(&rt, rt.alloc(), SIGNED, rows.as_slice())
}

#[test]
fn texts_are_free_in_their_spaces_and_numbers(rt: HostRuntime) -> Result<(), Fail> {
    let report = "circuit Add\n0 / 2 peek out = 19\nfinished at 1 after 5 actions, 1 records\n";
    let rows = [
        (
            "poke a=0x10;poke\tb = (03); // a comment\r\npeek out; step\n01;",
            0,
            report,
        ),
        (
            "poke a = 0b10000; poke b = 0o3;\npeek out; step 0d1;",
            0,
            report,
        ),
    ];
    each_is_answered(&rt, rt.alloc(), ADDER, rows.as_slice())
}

#[test]
fn a_step_takes_as_many_edges_as_it_says(rt: HostRuntime) -> Result<(), Fail> {
    let rows = [
        (
            "poke a = 9; step 3; peek out; step 1; peek out;",
            0,
            "circuit Delay\n3 / 1 peek out = 9\n4 / 1 peek out = 9\nfinished at 4 after 6 actions, 2 records\n",
        ),
        (
            "step 2;",
            0,
            "circuit Delay\nfinished at 2 after 2 actions, 0 records\n",
        ),
    ];
    each_is_answered(&rt, rt.alloc(), DELAY, rows.as_slice())
}

#[test]
fn a_run_ends_at_its_last_time_step(rt: HostRuntime) -> Result<(), Fail> {
    let limit = "circuit Add\nlimit time steps at 65535\n";
    let rows = [
        (
            "step 65535;",
            0,
            "circuit Add\nfinished at 65535 after 2 actions, 0 records\n",
        ),
        ("step 65536;", 3, limit),
        ("step 1; step 65535;", 3, limit),
        ("step 340282366920938463463374607431768211455;", 3, limit),
        (
            "peek a; step 65535; peek b; step 1; peek out;",
            3,
            "circuit Add\n0 / 1 peek a = 0\n65535 / 1 peek b = 0\nlimit time steps at 65535\n",
        ),
    ];
    each_is_answered(&rt, rt.alloc(), ADDER, rows.as_slice())
}

#[test]
fn a_failure_comes_before_the_limit(rt: HostRuntime) -> Result<(), Fail> {
    let rows = [
        (
            "expect out == 1; step 65536;",
            1,
            "circuit Add\n0 / 1 expect out = 0 wanted 1\nfailed at 0 after 2 actions, 1 records\n",
        ),
        (
            "step 65535; expect out == 1; step 1;",
            1,
            "circuit Add\n65535 / 1 expect out = 0 wanted 1\nfailed at 65535 after 3 actions, 1 records\n",
        ),
    ];
    each_is_answered(&rt, rt.alloc(), ADDER, rows.as_slice())
}
