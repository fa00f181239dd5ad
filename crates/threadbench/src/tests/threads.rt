//! Tests with threads, through the whole command: what is ordered, what conflicts, and what comes of it.

use super::designs::{OVERRIDDEN, SIGNED};
use super::texts::each_is_answered;
use super::{ADDER, DELAY};
use std::test::Fail;

const RACE: &str = "fork x { poke a = 1; }\nfork y { peek out; }\njoin x; join y;\n";

#[test]
fn two_threads_that_touch_one_input_conflict(rt: HostRuntime) -> Result<(), Fail> {
    let rows = [
        (
            "fork x { poke a = 1; }\nfork y { poke a = 1; }\njoin x; join y;\n",
            2,
            "circuit Add\nconflict at 0\nfirst /0 line 1 poke a\nsecond /1 line 2 poke a\n",
        ),
        (
            RACE,
            2,
            "circuit Add\nconflict at 0\nfirst /0 line 1 poke a\nsecond /1 line 2 peek out through out > a\n",
        ),
    ];
    each_is_answered(&rt, rt.alloc(), ADDER, rows.as_slice())
}

#[test]
fn a_register_and_a_replaced_connect_keep_threads_apart(rt: HostRuntime) -> Result<(), Fail> {
    let test =
        "fork x { poke a = 9; }\nfork y { peek out; }\njoin x;\njoin y;\nstep 1;\npeek out;\n";
    let report =
        "circuit Delay\n0 /1 2 peek out = 0\n1 / 6 peek out = 9\nfinished at 1 after 11 actions, 2 records\n";
    each_is_answered(&rt, rt.alloc(), DELAY, [(test, 0, report)].as_slice())?;
    let report = "circuit Over\n0 /1 2 peek out = 0\nfinished at 0 after 9 actions, 1 records\n";
    each_is_answered(&rt, rt.alloc(), OVERRIDDEN, [(RACE, 0, report)].as_slice())
}

#[test]
fn a_fork_and_a_join_order_acts(rt: HostRuntime) -> Result<(), Fail> {
    let rows = [
        (
            "poke a = 2;\nfork x { peek out; }\njoin x;\n",
            0,
            "circuit Add\n0 /0 2 peek out = 2\nfinished at 0 after 6 actions, 1 records\n",
        ),
        (
            "fork x { poke a = 2; }\njoin x;\npeek out;\n",
            0,
            "circuit Add\n0 / 3 peek out = 2\nfinished at 0 after 6 actions, 1 records\n",
        ),
        (
            "fork x { poke a = 2; }\npeek out;\n",
            2,
            "circuit Add\nconflict at 0\nfirst / line 2 peek out through out > a\nsecond /0 line 1 poke a\n",
        ),
    ];
    each_is_answered(&rt, rt.alloc(), ADDER, rows.as_slice())
}

#[test]
fn monitors_act_behind_the_others_and_not_in_order(rt: HostRuntime) -> Result<(), Fail> {
    let rows = [
        (
            "fork monitor m { peek out; }\npoke a = 4;\njoinstep m;\n",
            0,
            "circuit Add\n0 /0 1 peek out = 4\nfinished at 1 after 6 actions, 1 records\n",
        ),
        (
            "fork monitor m { poke a = 1; }\nfork monitor n { peek out; }\njoinstep m;\njoinstep n;\n",
            2,
            "circuit Add\nconflict at 0\nfirst /0 line 1 poke a\nsecond /1 line 2 peek out through out > a\n",
        ),
    ];
    each_is_answered(&rt, rt.alloc(), ADDER, rows.as_slice())
}

/// The root thread forks and waits, the monitor peeks and ends, and the root thread ends in the next time step.
#[test]
fn a_monitor_is_waited_for_by_a_joinstep(rt: HostRuntime) -> Result<(), Fail> {
    let rows = [
        (
            "fork monitor m { peek out; }\njoin m;\n",
            5,
            "test: line 2: join of a later region\n",
        ),
        (
            "fork monitor m { peek out; }\njoinstep m;\n",
            0,
            "circuit Add\n0 /0 1 peek out = 0\nfinished at 1 after 5 actions, 1 records\n",
        ),
    ];
    each_is_answered(&rt, rt.alloc(), ADDER, rows.as_slice())
}

#[test]
fn a_failure_leaves_the_other_threads(rt: HostRuntime) -> Result<(), Fail> {
    let test = "fork x { poke a = 1; expect out == 2; }\nfork y { peek b; }\njoin x;\njoin y;\n";
    let report =
        "circuit Add\n0 /0 1 expect out = 1 wanted 2\n0 /1 2 peek b = 0\nfailed at 0 after 10 actions, 2 records\n";
    each_is_answered(&rt, rt.alloc(), ADDER, [(test, 1, report)].as_slice())
}

#[test]
fn a_loop_that_never_acts_is_spent(rt: HostRuntime) -> Result<(), Fail> {
    let report = "circuit Add\nspent at 0 by / line 1\n";
    each_is_answered(
        &rt,
        rt.alloc(),
        ADDER,
        [("while 1 == 1 { }", 3, report)].as_slice(),
    )
}

#[test]
fn a_signed_port_has_numbers_with_their_sign(rt: HostRuntime) -> Result<(), Fail> {
    let rows = [
        (
            "poke a = -8;\npeek out;\npeek a;\n",
            0,
            "circuit S\n0 / 2 peek out = 8\n0 / 3 peek a = -8\nfinished at 0 after 4 actions, 2 records\n",
        ),
        ("poke a = 8;", 5, "test: line 1: literal too wide\n"),
    ];
    each_is_answered(&rt, rt.alloc(), SIGNED, rows.as_slice())
}

#[test]
fn time_steps_are_taken_up_to_their_limit(rt: HostRuntime) -> Result<(), Fail> {
    let rows = [
        (
            "repeat 65535 { step 1; }",
            0,
            "circuit Add\nfinished at 65535 after 65536 actions, 0 records\n",
        ),
        (
            "repeat 65536 { step 1; }",
            3,
            "circuit Add\nlimit time steps at 65535\n",
        ),
    ];
    each_is_answered(&rt, rt.alloc(), ADDER, rows.as_slice())
}

#[test]
fn threads_are_there_up_to_their_limit(rt: HostRuntime) -> Result<(), Fail> {
    let rows = [
        (
            "repeat 1023 { fork x { step 1; } }\nstep 1;\n",
            0,
            "circuit Add\nfinished at 1 after 3071 actions, 0 records\n",
        ),
        (
            "repeat 1024 { fork x { step 1; } }\nstep 1;\n",
            3,
            "circuit Add\nlimit threads at 0\n",
        ),
    ];
    each_is_answered(&rt, rt.alloc(), ADDER, rows.as_slice())
}
