//! Circuits that are printed or refused, through the whole command.

use super::{ADDER, ADDER_REPORT, ADDER_TEST, NEVER, USAGE, desk, status_of};
use bench_desk::Lane;
use std::alloc::{AllocError, Global};
use std::test::Fail;
use tb_base::Memory;

const TWO_SPELLINGS: &str = "circuit C :
  module C :
    input a : UInt<1>
    output out : UInt<1>
    out <= a
    when a :
      skip
";

const WITH_RESET: &str = "circuit B :
  module B :
    input clock : Clock
    input reset : UInt<1>
    output io : { flip a : UInt<8>, b : UInt<8>}

    reg r : UInt<8>, clock with :
      reset => (reset, UInt<8>(\"h0\")) @[B.scala 5:14]
    r <= io.a
    io.b <= r
";

const WITH_RESET_PRINTED: &str = "circuit B :
  module B :
    input clock : Clock
    input reset : UInt<1>
    output io : { flip a : UInt<8>, b : UInt<8> }
    regreset r : UInt<8>, clock, reset, UInt<8>(0)
    connect r, io.a
    connect io.b, r
";

pub(super) const QUEUE: &str = "FIRRTL version 3.3.0
circuit Q2 :
  module Q2 : @[src/main/scala/Q2.scala 7:7]
    input clock : Clock @[src/main/scala/Q2.scala 7:7]
    input reset : UInt<1> @[src/main/scala/Q2.scala 7:7]
    output io : { flip enq : { flip ready : UInt<1>, valid : UInt<1>, bits : UInt<8>}, deq : { flip ready : UInt<1>, valid : UInt<1>, bits : UInt<8>}} @[src/main/scala/Q2.scala 8:14]

    regreset count : UInt<2>, clock, reset, UInt<2>(0h0) @[src/main/scala/Q2.scala 9:22]
    reg r0 : UInt<8>, clock
    reg r1 : UInt<8>, clock
    node full = eq(count, UInt<2>(0h2))
    node empty = eq(count, UInt<1>(0h0))
    node do_enq = and(io.enq.ready, io.enq.valid)
    node do_deq = and(io.deq.ready, io.deq.valid)
    connect io.enq.ready, eq(full, UInt<1>(0h0))
    connect io.deq.valid, eq(empty, UInt<1>(0h0))
    connect io.deq.bits, r0
    when do_deq :
      connect r0, r1
    when do_enq :
      node here = eq(count, do_deq)
      when here :
        connect r0, io.enq.bits
      else :
        connect r1, io.enq.bits
    node _up_T = add(count, do_enq)
    node up = tail(_up_T, 1)
    node _next_T = sub(up, do_deq)
    node next = tail(_next_T, 1)
    connect count, next
";

/// A text with its first piece of these bytes replaced.
pub(super) fn with(alloc: Global, text: &str, old: &str, new: &str) -> Result<String, AllocError> {
    let at = text.find(old).unwrap_or(text.len());
    let mut out = String::from_str(alloc, text.get(..at).unwrap_or(""))?;
    out.push_str(new)?;
    out.push_str(text.get(at + old.len()..).unwrap_or(""))?;
    Ok(out)
}

/// The status of `fmt` of a text, and what was put.
fn printed(alloc: Global, circuit: &str) -> Result<(u8, Vec<u8>), Memory> {
    let mut desk = desk(alloc, circuit, "", 4096, NEVER)?;
    let status = status_of(alloc, &["fmt", "c"], &mut desk)?;
    Ok((status, Vec::from_slice(alloc, desk.lane(Lane::Report))?))
}

/// The status of a run of the adder's test, and what was put.
fn run(alloc: Global, circuit: &str) -> Result<(u8, Vec<u8>), Memory> {
    let mut desk = desk(alloc, circuit, ADDER_TEST, 4096, NEVER)?;
    let status = status_of(alloc, &["run", "c", "t"], &mut desk)?;
    Ok((status, Vec::from_slice(alloc, desk.lane(Lane::Report))?))
}

#[test]
fn a_circuit_is_printed_in_its_plain_form(rt: HostRuntime) -> Result<(), Fail> {
    let alloc = rt.alloc();
    let one_spelling = with(alloc, TWO_SPELLINGS, "out <= a", "connect out, a")?;
    let rows = [
        (ADDER, ADDER),
        (TWO_SPELLINGS, one_spelling.as_str()),
        (WITH_RESET, WITH_RESET_PRINTED),
        (WITH_RESET_PRINTED, WITH_RESET_PRINTED),
    ];
    for (text, wanted) in rows {
        let (status, put) = printed(alloc, text)?;
        assert_eq!(rt; status, 0, "{text}");
        assert_eq!(rt; put.as_slice(), wanted.as_bytes(), "{text}");
    }
    Ok(())
}

#[test]
fn a_text_that_spells_no_circuit_is_refused_at_its_first_faulty_place(
    rt: HostRuntime,
) -> Result<(), Fail> {
    let alloc = rt.alloc();
    let cut = with(alloc, TWO_SPELLINGS, "      skip\n", "")?;
    let tab = with(alloc, TWO_SPELLINGS, "    out <=", "\tout <=")?;
    let wide = with(alloc, ADDER, "input a : UInt<8>", "input a : UInt<129>")?;
    let rows = [
        (cut.as_str(), "circuit: line 7 column 1: syntax\n"),
        (tab.as_str(), "circuit: line 5 column 1: syntax\n"),
        (
            wide.as_str(),
            "circuit: line 3 column 20: number too wide\n",
        ),
        (
            "circuit X :%[[{}]]\n",
            "circuit: line 1 column 12: unsupported annotation\n",
        ),
        ("", "circuit: line 1 column 1: syntax\n"),
    ];
    for (text, wanted) in rows {
        for (status, put) in [printed(alloc, text)?, run(alloc, text)?] {
            assert_eq!(rt; status, 4, "{text}");
            assert_eq!(rt; put.as_slice(), wanted.as_bytes(), "{text}");
        }
    }
    Ok(())
}

#[test]
fn a_circuit_that_breaks_a_rule_is_printed_and_not_run(rt: HostRuntime) -> Result<(), Fail> {
    let alloc = rt.alloc();
    let driven = with(alloc, ADDER, "connect out, add(a, b)", "connect a, b")?;
    let (status, put) = run(alloc, driven.as_str())?;
    assert_eq!(rt; status, 4);
    assert_eq!(rt; put.as_slice(), b"circuit: line 6: wrong flow\n".as_slice());
    let (status, put) = printed(alloc, driven.as_str())?;
    assert_eq!(rt; status, 0);
    assert_eq!(rt; put.as_slice(), driven.as_bytes());
    Ok(())
}

#[test]
fn a_circuit_that_is_left_open_is_printed_and_not_run(rt: HostRuntime) -> Result<(), Fail> {
    let alloc = rt.alloc();
    let skip = with(alloc, ADDER, "connect out, add(a, b)", "skip")?;
    let (status, put) = run(alloc, skip.as_str())?;
    assert_eq!(rt; status, 4);
    assert_eq!(rt;
        put.as_slice(),
        b"circuit: out is not initialised\n".as_slice()
    );
    let (status, put) = printed(alloc, skip.as_str())?;
    assert_eq!(rt; status, 0);
    assert_eq!(rt; put.as_slice(), skip.as_bytes());
    Ok(())
}

#[test]
fn a_circuit_has_at_most_so_many_bytes(rt: HostRuntime) -> Result<(), Fail> {
    let alloc = rt.alloc();
    let mut text = String::from_str(alloc, ADDER)?;
    for _k in 0..1_048_576 - ADDER.len() {
        text.push_str("\n")?;
    }
    let (status, put) = printed(alloc, text.as_str())?;
    assert_eq!(rt; status, 0);
    assert_eq!(rt; put.as_slice(), ADDER.as_bytes());
    let (status, put) = run(alloc, text.as_str())?;
    assert_eq!(rt; status, 0);
    assert_eq!(rt; put.as_slice(), ADDER_REPORT.as_bytes());
    text.push_str("\n")?;
    for (status, put) in [printed(alloc, text.as_str())?, run(alloc, text.as_str())?] {
        assert_eq!(rt; status, 4);
        assert_eq!(rt; put.as_slice(), b"circuit: too long\n".as_slice());
    }
    Ok(())
}

/// Every prefix whose length is a multiple of 4, and the whole.
#[test]
fn each_front_of_a_circuit_is_printed_or_refused(rt: HostRuntime) -> Result<(), Fail> {
    let alloc = rt.alloc();
    assert!(rt; QUEUE.len() < 1600);
    for part in 0..400 {
        let len = QUEUE.len().min(4 * part);
        let (status, put) = printed(alloc, QUEUE.get(..len).unwrap_or(""))?;
        assert!(rt; status == 0 || status == 4, "{len}");
        assert!(rt; (status == 4) == put.starts_with(b"circuit: "), "{len}");
    }
    let (status, _) = printed(alloc, QUEUE)?;
    assert_eq!(rt; status, 0);
    Ok(())
}

#[test]
fn words_of_fmt_and_check(rt: HostRuntime) -> Result<(), Fail> {
    let alloc = rt.alloc();
    let lines: [&[&str]; 4] = [
        &["fmt"],
        &["fmt", "c", "t"],
        &["check"],
        &["check", "c", "t"],
    ];
    for words in lines {
        let mut desk = desk(alloc, ADDER, "", 4096, NEVER)?;
        assert_eq!(rt; status_of(alloc, words, &mut desk)?, 64);
        assert_eq!(rt; desk.lane(Lane::Report), USAGE.as_bytes());
    }
    for command in ["fmt", "check"] {
        let mut desk = desk(alloc, ADDER, "", 4096, NEVER)?;
        assert_eq!(rt; status_of(alloc, &[command, "d"], &mut desk)?, 6);
        assert_eq!(rt; desk.lane(Lane::Report).len(), 0);
    }
    Ok(())
}

/// The adder with this line in place of its connect, the sixth line.
fn with_line(alloc: Global, line: &str) -> Result<String, AllocError> {
    with(alloc, ADDER, "connect out, add(a, b)", line)
}

#[test]
fn each_form_that_is_not_taken_has_its_word(rt: HostRuntime) -> Result<(), Fail> {
    let alloc = rt.alloc();
    let rows = [
        ("extmodule e :", "5: unsupported external module"),
        ("intmodule e :", "5: unsupported external module"),
        ("wire w : Analog<1>", "14: unsupported type"),
        ("wire w : AsyncReset", "14: unsupported type"),
        ("wire w : Probe<UInt<1>>", "14: unsupported type"),
        ("wire w : RWProbe<UInt<1>>", "14: unsupported type"),
        ("wire w : Integer", "14: unsupported type"),
        ("wire w : String", "14: unsupported type"),
        ("wire w : Bool", "14: unsupported type"),
        ("wire w : Path", "14: unsupported type"),
        ("wire w : List<Bool>", "14: unsupported type"),
        ("wire w : const UInt<1>", "14: unsupported type"),
        (
            "wire w : { f : { | A, B | } }",
            "20: unsupported enumeration",
        ),
        ("node n = asClock(a)", "14: unsupported operation"),
        ("node n = asAsyncReset(a)", "14: unsupported operation"),
        ("node n = not(validif(a, b))", "18: unsupported operation"),
        ("out <- a", "9: unsupported connect"),
        ("connect out <- a", "17: unsupported connect"),
        ("attach(a, b)", "5: unsupported connect"),
        ("layer l :", "5: unsupported statement"),
        ("layerblock l :", "5: unsupported statement"),
        ("define d = a", "5: unsupported statement"),
        ("propassign p, a", "5: unsupported statement"),
        ("mem m :", "5: unsupported memory"),
        ("cmem m : UInt<8>[4]", "5: unsupported memory"),
        ("smem m : UInt<8>[4]", "5: unsupported memory"),
        ("infer mport p = m[a], c", "5: unsupported memory"),
        ("read mport p = m[a], c", "5: unsupported memory"),
        ("write mport p = m[a], c", "5: unsupported memory"),
        ("rdwr mport p = m[a], c", "5: unsupported memory"),
        ("wire `w` : UInt<1>", "10: unsupported quoted name"),
    ];
    for (line, wanted) in rows {
        let text = with_line(alloc, line)?;
        let (status, put) = printed(alloc, text.as_str())?;
        assert_eq!(rt; status, 4, "{line}");
        let refusal = format!(in alloc; "circuit: line 6 column {}\n", wanted)?;
        assert_eq!(rt; put.as_slice(), refusal.as_bytes(), "{line}");
    }
    Ok(())
}

#[test]
fn words_of_forms_that_are_not_taken_are_names(rt: HostRuntime) -> Result<(), Fail> {
    let alloc = rt.alloc();
    let rows = [
        ("mem <= a", "connect mem, a"),
        ("mem is invalid", "invalidate mem"),
        ("extmodule.f <= a", "connect extmodule.f, a"),
        ("node asClock = validif", "node asClock = validif"),
        ("when <= attach", "connect when, attach"),
        ("else[3] <= UInt(0x10)", "connect else[3], UInt(16)"),
    ];
    for (line, plain) in rows {
        let (status, put) = printed(alloc, with_line(alloc, line)?.as_str())?;
        assert_eq!(rt; status, 0, "{line}");
        assert_eq!(rt;
            put.as_slice(),
            with_line(alloc, plain)?.as_bytes(),
            "{line}"
        );
    }
    Ok(())
}

/// A circuit of a module with so many `when` blocks in each other. The first of them is in line 5, at column 5.
fn nested(alloc: Global, blocks: usize) -> Result<String, AllocError> {
    let mut text = String::from_str(
        alloc,
        "circuit D :\n  module D :\n    input a : UInt<1>\n    output out : UInt<1>\n",
    )?;
    let mut indent = String::from_str(alloc, "    ")?;
    for _k in 0..blocks {
        text.push_str(indent.as_str())?;
        text.push_str("when a :\n")?;
        indent.push_str(" ")?;
    }
    text.push_str(indent.as_str())?;
    text.push_str("skip\n")?;
    Ok(text)
}

#[test]
fn each_limit_of_a_line_is_kept(rt: HostRuntime) -> Result<(), Fail> {
    let alloc = rt.alloc();
    let (status, _) = printed(alloc, nested(alloc, 256)?.as_str())?;
    assert_eq!(rt; status, 0);
    let (status, put) = printed(alloc, nested(alloc, 257)?.as_str())?;
    assert_eq!(rt; status, 4);
    assert_eq!(rt;
        put.as_slice(),
        b"circuit: line 261 column 261: too deep\n".as_slice()
    );
    let mut brackets = String::from_str(alloc, "node n = ")?;
    let mut suffixes = String::from_str(alloc, "node n = a")?;
    for _k in 0..65 {
        brackets.push_str("not(")?;
    }
    for _k in 0..33 {
        suffixes.push_str(".f")?;
    }
    // The 65th bracket is behind 9 bytes and 64 times `not(` and `not`, the 33rd suffix behind 10 bytes and 32 times `.f`.
    let rows = [(brackets, 4 + 9 + 64 * 4 + 4), (suffixes, 4 + 10 + 64 + 1)];
    for (line, column) in rows {
        let (status, put) = printed(alloc, with_line(alloc, line.as_str())?.as_str())?;
        assert_eq!(rt; status, 4);
        let refusal = format!(in alloc; "circuit: line 6 column {}: too deep\n", column)?;
        assert_eq!(rt; put.as_slice(), refusal.as_bytes());
    }
    Ok(())
}
