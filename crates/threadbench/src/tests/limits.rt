//! Each limit of a test's text, at its number and one past it, and fronts of texts.

use super::circuits::QUEUE;
use super::designs::answered;
use super::{ADDER, ADDER_REPORT, ADDER_TEST};
use std::alloc::{AllocError, Global};
use std::process::Abort;
use std::test::Fail;

const NOT_FIRST: &str = "test: not in the first form\n";

/// The report of a test whose one action is its end.
const ENDED: &str = "circuit Add\nfinished at 0 after 1 actions, 0 records\n";

/// A text, so many times a piece, and another text.
fn repeated(
    alloc: Global,
    front: &str,
    count: u32,
    piece: &str,
    back: &str,
) -> Result<String, AllocError> {
    let mut text = String::from_str(alloc, front)?;
    for _k in 0..count {
        text.push_str(piece)?;
    }
    text.push_str(back)?;
    Ok(text)
}

/// Checks that a run of the adder with the test has this status and report.
fn is_answered(
    rt: &impl Abort,
    alloc: Global,
    test: &str,
    status: u8,
    report: &str,
) -> Result<(), Fail> {
    let (found, put) = answered(alloc, &["run", "c", "t"], ADDER, test)?;
    assert_eq!(rt; found, status, "{report}");
    assert_eq!(rt; put.as_slice(), report.as_bytes(), "{report}");
    Ok(())
}

#[test]
fn a_test_has_at_most_so_many_bytes(rt: HostRuntime) -> Result<(), Fail> {
    let alloc = rt.alloc();
    let mut text = String::from_str(alloc, ADDER_TEST)?;
    for _k in 0..262_144 - ADDER_TEST.len() {
        text.push_str("\n")?;
    }
    is_answered(&rt, alloc, text.as_str(), 0, ADDER_REPORT)?;
    text.push_str("\n")?;
    is_answered(&rt, alloc, text.as_str(), 5, "test: too long\n")
}

/// The 33rd `{` stands behind 32 pieces of five bytes and `if 1`.
#[test]
fn blocks_are_nested_up_to_32(rt: HostRuntime) -> Result<(), Fail> {
    let alloc = rt.alloc();
    let most = repeated(alloc, "", 32, "if 1{", "")?;
    let full = repeated(alloc, most.as_str(), 32, "}", "")?;
    is_answered(&rt, alloc, full.as_str(), 0, ENDED)?;
    let past = repeated(alloc, "", 33, "if 1{", "")?;
    is_answered(
        &rt,
        alloc,
        past.as_str(),
        5,
        "test: line 1 column 165: too deep\n",
    )
}

/// The ninth fork stands behind eight pieces of seven bytes. A driver counts as one. With eight there are nine threads, each of which but
/// the last forks, and each of which ends.
#[test]
fn forks_are_nested_up_to_8(rt: HostRuntime) -> Result<(), Fail> {
    let alloc = rt.alloc();
    let refusal = "test: line 1 column 57: too deep\n";
    let most = repeated(alloc, "", 8, "fork h{", "")?;
    let full = repeated(alloc, most.as_str(), 8, "}", "")?;
    is_answered(
        &rt,
        alloc,
        full.as_str(),
        0,
        "circuit Add\nfinished at 0 after 17 actions, 0 records\n",
    )?;
    let past = repeated(alloc, most.as_str(), 1, "fork h{", "")?;
    is_answered(&rt, alloc, past.as_str(), 5, refusal)?;
    let driver = repeated(alloc, most.as_str(), 1, "enqueue a 1;", "")?;
    is_answered(&rt, alloc, driver.as_str(), 5, refusal)
}

/// The k-th `+` stands behind `let v = 1` and k - 1 pieces of two bytes.
#[test]
fn an_expression_has_up_to_64_operators(rt: HostRuntime) -> Result<(), Fail> {
    let alloc = rt.alloc();
    let full = repeated(alloc, "let v = 1", 64, "+1", ";")?;
    is_answered(&rt, alloc, full.as_str(), 0, ENDED)?;
    let past = repeated(alloc, "let v = 1", 65, "+1", ";")?;
    is_answered(
        &rt,
        alloc,
        past.as_str(),
        5,
        "test: line 1 column 138: too deep\n",
    )
}

/// The 33rd `(` stands behind `let v = ` and 32 others.
#[test]
fn up_to_32_parentheses_are_open(rt: HostRuntime) -> Result<(), Fail> {
    let alloc = rt.alloc();
    let most = repeated(alloc, "let v = ", 32, "(", "1")?;
    let full = repeated(alloc, most.as_str(), 32, ")", ";")?;
    is_answered(&rt, alloc, full.as_str(), 0, ENDED)?;
    let past = repeated(alloc, "let v = ", 33, "(", "1")?;
    is_answered(
        &rt,
        alloc,
        past.as_str(),
        5,
        "test: line 1 column 41: too deep\n",
    )
}

/// So many lines, each of which makes a name known.
fn names(alloc: Global, count: u32, front: &str, back: &str) -> Result<String, AllocError> {
    let mut text = String::new(alloc);
    for k in 0..count {
        text.push_str(format!(in alloc; "{}{}{}\n", front, k, back)?.as_str())?;
    }
    Ok(text)
}

#[test]
fn up_to_256_variables_are_known(rt: HostRuntime) -> Result<(), Fail> {
    let alloc = rt.alloc();
    let full = names(alloc, 256, "let v", " = 0;")?;
    is_answered(&rt, alloc, full.as_str(), 0, ENDED)?;
    let past = names(alloc, 257, "let v", " = 0;")?;
    is_answered(
        &rt,
        alloc,
        past.as_str(),
        5,
        "test: line 257: too many names\n",
    )
}

/// 64 forks, and the ends of 65 threads.
#[test]
fn up_to_64_handles_are_known(rt: HostRuntime) -> Result<(), Fail> {
    let alloc = rt.alloc();
    let full = names(alloc, 64, "fork h", " { }")?;
    is_answered(
        &rt,
        alloc,
        full.as_str(),
        0,
        "circuit Add\nfinished at 0 after 129 actions, 0 records\n",
    )?;
    let past = names(alloc, 65, "fork h", " { }")?;
    is_answered(
        &rt,
        alloc,
        past.as_str(),
        5,
        "test: line 65: too many names\n",
    )
}

const QUEUE_TEST: &str = "poke reset = 1; step 1; poke reset = 0;
poke io.enq.valid = 1;
poke io.enq.bits = 5; expect io.enq.ready == 1; step 1;
poke io.enq.bits = 6; step 1;
poke io.enq.valid = 0; expect io.enq.ready == 0; step 3;
peek io.deq.bits; poke io.deq.ready = 1; step 1;
expect io.deq.bits == 6; step 1; expect io.deq.valid == 0;
";

const QUEUE_REPORT: &str = "circuit Q2
6 / 6 peek io.deq.bits = 5
finished at 8 after 19 actions, 1 records
";

const QUEUE_DRIVERS: &str = "reset 1;
fork p { enqueueSeq io.enq [5, 6, 7]; }
fork c { expectDequeueSeq io.deq [5, 6, 7]; }
join p;
join c;
";

/// Checks that each front of the test has a status from 0 to 5 on the queue, and a line that fits it.
fn each_front_is_answered(rt: &impl Abort, alloc: Global, test: &str) -> Result<(), Fail> {
    for len in 0..test.len() {
        let front = test.get(..len).unwrap_or("");
        let (status, put) = answered(alloc, &["run", "c", "t"], QUEUE, front)?;
        assert!(rt; status <= 5, "{len}");
        assert!(rt; (status == 5) == put.starts_with(b"test: "), "{len}");
        assert!(rt; (status < 4) == put.starts_with(b"circuit Q2\n"), "{len}");
    }
    Ok(())
}

#[test]
fn each_front_of_a_test_is_run_or_refused(rt: HostRuntime) -> Result<(), Fail> {
    assert!(rt; QUEUE_TEST.len() > 300 && QUEUE_TEST.len() < 400);
    each_front_is_answered(&rt, rt.alloc(), QUEUE_TEST)?;
    let (status, put) = answered(rt.alloc(), &["run", "c", "t"], QUEUE, QUEUE_TEST)?;
    assert_eq!(rt; status, 0);
    assert_eq!(rt; put.as_slice(), QUEUE_REPORT.as_bytes());
    Ok(())
}

#[test]
fn each_front_of_drivers_is_refused(rt: HostRuntime) -> Result<(), Fail> {
    each_front_is_answered(&rt, rt.alloc(), QUEUE_DRIVERS)?;
    let (status, put) = answered(rt.alloc(), &["run", "c", "t"], QUEUE, QUEUE_DRIVERS)?;
    assert_eq!(rt; status, 5);
    assert_eq!(rt; put.as_slice(), NOT_FIRST.as_bytes());
    Ok(())
}
