//! Circuits that are run, summed up, or refused by the stages behind the reading.

use super::circuits::{QUEUE, with};
use super::{ADDER, DELAY, NEVER, desk, status_of};
use bench_desk::Lane;
use std::alloc::{AllocError, Global};
use std::test::Fail;
use tb_base::Memory;

const WIDE: &str = "circuit W :
  module W :
    input a : UInt<128>
    input b : UInt<128>
    output out : UInt<128>
    connect out, add(a, b)
";

const WIDEST: &str = "circuit W :
  module W :
    input a : UInt<127>
    input b : UInt<127>
    input z : UInt<0>
    output out : UInt<128>
    connect out, add(a, b)
";

const WIDEST_TEST: &str = "poke a = 170141183460469231731687303715884105727;
poke b = 170141183460469231731687303715884105727;
peek out;
peek z;
";

const WIDEST_REPORT: &str = "circuit W
0 / 3 peek out = 340282366920938463463374607431768211454
0 / 4 peek z = 0
finished at 0 after 5 actions, 2 records
";

const GROWING: &str = "circuit G :
  module G :
    input clock : Clock
    output out : UInt<8>
    reg r : UInt, clock
    connect r, add(r, UInt<1>(1))
    connect out, r
";

const LEFT_OPEN: &str = "circuit N :
  module N :
    input a : UInt<1>
    output out : UInt<1>
    when a :
      connect out, UInt<1>(1)
";

const LOOP: &str = "circuit L :
  module L :
    input a : UInt<1>
    output out : UInt<1>
    wire w : UInt<1>
    connect w, xor(out, a)
    connect out, w
";

const INDEXED: &str = "circuit V :
  module V :
    input v : UInt<4>[3]
    input idx : UInt<2>
    output out : UInt<4>
    connect out, v[idx]
";

const INDEXED_TEST: &str = "poke v[2] = 7; poke idx = 2; peek out; poke idx = 3; peek out;";

const INDEXED_REPORT: &str = "circuit V
0 / 1 peek out = 7
0 / 1 peek out = 0
finished at 0 after 6 actions, 2 records
";

pub(super) const SIGNED: &str = "circuit S :
  module S :
    input a : SInt<4>
    output out : SInt<5>
    connect out, neg(a)
";

const SIGNED_REPORT: &str = "circuit S
0 / 1 peek out = -7
0 / 1 peek a = 7
0 / 1 expect out = -7 wanted 7
failed at 0 after 5 actions, 3 records
";

pub(super) const OVERRIDDEN: &str = "circuit Over :
  module Over :
    input a : UInt<8>
    input b : UInt<8>
    output out : UInt<8>
    connect out, a
    connect out, b
";

const ADDER_SUMMARY: &str = "circuit Add
ports 3 signals 3 registers 0
input a UInt<8>
input b UInt<8>
output out UInt<9> from a b
";

const OVERRIDDEN_SUMMARY: &str = "circuit Over
ports 3 signals 3 registers 0
input a UInt<8>
input b UInt<8>
output out UInt<8> from b
";

const DELAY_SUMMARY: &str = "circuit Delay
ports 2 signals 3 registers 1
input a UInt<8>
output out UInt<8>
";

const SIGNED_SUMMARY: &str = "circuit S
ports 2 signals 2 registers 0
input a SInt<4>
output out SInt<5> from a
";

const QUEUE_SUMMARY: &str = "circuit Q2
ports 7 signals 19 registers 3
input reset UInt<1>
output io.enq.ready UInt<1>
input io.enq.valid UInt<1>
input io.enq.bits UInt<8>
input io.deq.ready UInt<1>
output io.deq.valid UInt<1>
output io.deq.bits UInt<8>
";

/// The status of these words over a desk that holds the circuit as `c` and the test as `t`, and what was put.
pub(super) fn answered(
    alloc: Global,
    words: &[&str],
    circuit: &str,
    test: &str,
) -> Result<(u8, Vec<u8>), Memory> {
    let mut desk = desk(alloc, circuit, test, 4096, NEVER)?;
    let status = status_of(alloc, words, &mut desk)?;
    Ok((status, Vec::from_slice(alloc, desk.lane(Lane::Report))?))
}

#[test]
fn circuits_of_each_kind_are_run(rt: HostRuntime) -> Result<(), Fail> {
    let alloc = rt.alloc();
    let overridden = "circuit Over\n0 / 1 peek out = 0\nfinished at 0 after 3 actions, 1 records\n";
    let rows = [
        (WIDEST, WIDEST_TEST, 0, WIDEST_REPORT),
        (
            SIGNED,
            "poke a = 7; peek out; peek a; expect out == 7;",
            1,
            SIGNED_REPORT,
        ),
        (INDEXED, INDEXED_TEST, 0, INDEXED_REPORT),
        (OVERRIDDEN, "poke a = 1; peek out;", 0, overridden),
    ];
    for (circuit, test, status, report) in rows {
        let (found, put) = answered(alloc, &["run", "c", "t"], circuit, test)?;
        assert_eq!(rt; found, status, "{test}");
        assert_eq!(rt; put.as_slice(), report.as_bytes(), "{test}");
    }
    Ok(())
}

#[test]
fn a_circuit_is_summed_up(rt: HostRuntime) -> Result<(), Fail> {
    let alloc = rt.alloc();
    let rows = [
        (ADDER, ADDER_SUMMARY),
        (OVERRIDDEN, OVERRIDDEN_SUMMARY),
        (DELAY, DELAY_SUMMARY),
        (SIGNED, SIGNED_SUMMARY),
        (QUEUE, QUEUE_SUMMARY),
    ];
    for (circuit, summary) in rows {
        let (status, put) = answered(alloc, &["check", "c"], circuit, "")?;
        assert_eq!(rt; status, 0, "{summary}");
        assert_eq!(rt; put.as_slice(), summary.as_bytes(), "{summary}");
    }
    Ok(())
}

/// A circuit of so many inputs, and the adder's lines behind them.
fn with_inputs(alloc: Global, count: u32) -> Result<String, AllocError> {
    let mut inputs = String::new(alloc);
    for k in 0..count {
        inputs.push_str(format!(in alloc; "input p{} : UInt<1>\n    ", k)?.as_str())?;
    }
    inputs.push_str("input a :")?;
    with(alloc, ADDER, "input a :", inputs.as_str())
}

#[test]
fn each_stage_refuses_with_its_line(rt: HostRuntime) -> Result<(), Fail> {
    let alloc = rt.alloc();
    let many = with_inputs(alloc, 254)?;
    let below = with(alloc, ADDER, "add(a, b)", "bits(a, 8, 0)")?;
    let rows = [
        (WIDE, "circuit: line 6: too wide\n"),
        (GROWING, "circuit: line 5: too wide\n"),
        (LEFT_OPEN, "circuit: out is not initialised\n"),
        (LOOP, "circuit: loop out > w > out\n"),
        (many.as_str(), "circuit: too many ports\n"),
        (below.as_str(), "circuit: line 6: bad range\n"),
    ];
    for (circuit, refusal) in rows {
        for words in [["run", "c", "t"].as_slice(), ["check", "c"].as_slice()] {
            let (status, put) = answered(alloc, words, circuit, "")?;
            assert_eq!(rt; status, 4, "{refusal}");
            assert_eq!(rt; put.as_slice(), refusal.as_bytes(), "{refusal}");
        }
    }
    Ok(())
}

/// A circuit with a wire of so many elements, which is invalidated.
fn wire_of(alloc: Global, elements: u32) -> Result<String, AllocError> {
    format!(in alloc;
        "circuit D :\n  module D :\n    input a : UInt<1>\n    wire w : UInt<1>[{}]\n    invalidate w\n",
        elements
    )
}

/// A circuit with so many nodes, each of which reads a vector of 65,000 elements at a computed index.
fn reads_of(alloc: Global, nodes: u32) -> Result<String, AllocError> {
    let mut text = String::new(alloc);
    text.push_str("circuit D :\n  module D :\n    input i : UInt<16>\n")?;
    text.push_str("    wire v : UInt<1>[65000]\n    invalidate v\n")?;
    for k in 0..nodes {
        text.push_str(format!(in alloc; "    node n{} = v[i]\n", k)?.as_str())?;
    }
    Ok(text)
}

/// So many modules, of which each but the last has an instance of the next.
fn chain_of(alloc: Global, modules: u32) -> Result<String, AllocError> {
    let mut text = String::new(alloc);
    text.push_str("circuit m0 :\n")?;
    for k in 1..modules {
        text.push_str(format!(in alloc;
            "  module m{} :\n    inst c of m{}\n",
            k - 1,
            k
        )?.as_str())?;
    }
    text.push_str(format!(in alloc; "  module m{} :\n", modules.saturating_sub(1))?.as_str())?;
    Ok(text)
}

#[test]
fn large_circuits_are_taken_up_to_their_limits(rt: HostRuntime) -> Result<(), Fail> {
    let alloc = rt.alloc();
    let full = wire_of(alloc, 65_535)?;
    let past = wire_of(alloc, 65_536)?;
    let read = reads_of(alloc, 65)?;
    let chain = chain_of(alloc, 20_000)?;
    let rows = [
        (
            full.as_str(),
            0,
            "circuit D\nports 1 signals 65536 registers 0\ninput a UInt<1>\n",
        ),
        (past.as_str(), 4, "circuit: too many signals\n"),
        (read.as_str(), 4, "circuit: too many parts\n"),
        (
            chain.as_str(),
            0,
            "circuit m0\nports 0 signals 0 registers 0\n",
        ),
    ];
    for (circuit, wanted, text) in rows {
        let (status, put) = answered(alloc, &["check", "c"], circuit, "")?;
        assert_eq!(rt; status, wanted, "{text}");
        assert_eq!(rt; put.as_slice(), text.as_bytes(), "{text}");
    }
    Ok(())
}
