//! Threads of real texts, each run alone, for a circuit with one port, the input `a` of 8 bits.

use net_core::{PortInfo, PortTable, Signal};
use std::alloc::Global;
use std::test::Fail;
use tb_base::{Memory, Path, put, put_decimal, put_path};
use tl_check::{CoreTest, check_test};
use tl_code::{Code, ThreadState, compile};
use tl_prepare::{Act, Prepared, prepare};
use tl_text::read_test;
use tl_written::texts_spell_written_tests;

/// How many bytes a test text may have.
const TEXT_LIMIT: usize = 262_144;

/// The most acts of a thread that are told.
const MOST_ACTS: usize = 16;

/// The most threads that are told.
const MOST_THREADS: usize = 4;

fn table(alloc: Global) -> Result<PortTable, Memory> {
    let mut table = PortTable::new(alloc);
    let info = PortInfo {
        signal: Signal(0),
        input: true,
        signed: false,
        width: 8,
    };
    table.add(Vec::from_slice(alloc, b"a")?, info)?;
    Ok(table)
}

/// The code of a text, where it spells a test that keeps the rules and has no driver.
fn code_of(alloc: Global, text: &[u8]) -> Option<Code> {
    if text.len() > TEXT_LIMIT {
        return None;
    }
    let test = read_test(alloc, text).ok()?;
    texts_spell_written_tests();
    let ports = table(alloc).ok()?;
    let checked = check_test(alloc, &test, &ports).ok()?;
    let core = CoreTest::from_checked(checked)?;
    compile(alloc, &core).ok()
}

/// The word for an act.
fn word(act: &Act) -> &'static [u8] {
    match act {
        Act::Poke { .. } => b" poke",
        Act::Peek { .. } => b" peek",
        Act::Expect { .. } => b" expect",
        Act::Fork { .. } => b" fork",
        Act::Join { .. } => b" join",
        Act::Arrive { .. } => b" step",
        Act::JoinStep { .. } => b" joinstep",
        Act::Spend { .. } => b" spent at",
        Act::End => b" end",
    }
}

/// The number that is told of an act: of a poke and an expect the number, of a peek the slot, of a step the count, and of a thread that is
/// spent the line.
fn number(act: &Act) -> Option<u128> {
    match act {
        Act::Poke { raw, .. } => Some(*raw),
        Act::Peek { into, .. } => into.map(|slot| u128::from(slot)),
        Act::Expect { wanted, .. } => Some(*wanted),
        Act::Arrive { count, .. } => Some(*count),
        Act::Spend { line } => Some(u128::from(*line)),
        _ => None,
    }
}

/// The child that an act names.
fn child(act: &Act) -> Option<&Path> {
    match act {
        Act::Fork { child, .. } | Act::Join { child, .. } | Act::JoinStep { child, .. } => Some(
            child,
        ),
        _ => None,
    }
}

/// Puts an act: its word, and its number or its child.
fn put_act(alloc: Global, out: &mut Vec<u8>, act: &Act) -> Result<(), Memory> {
    put(out, word(act))?;
    if let Some(number) = number(act) {
        put(out, b" ")?;
        put_decimal(alloc, out, number)?;
    }
    if let Some(child) = child(act) {
        put(out, b" ")?;
        put_path(alloc, out, child)?;
    }
    Ok(())
}

/// Whether a thread takes no further act.
fn is_last(act: &Act) -> bool {
    match act {
        Act::Spend { line: _ } | Act::End => true,
        _ => false,
    }
}

/// The next action of a thread, where its state fits the code.
fn next_action(alloc: Global, code: &Code, thread: &ThreadState) -> Option<Prepared> {
    if !code.fits(thread) {
        return None;
    }
    prepare(alloc, code, thread).ok()
}

/// The first action of the root thread.
fn first_action(alloc: Global, code: &Code) -> Option<Prepared> {
    let root = code.root(alloc).ok()?;
    prepare(alloc, code, &root).ok()
}

/// Puts the acts of a thread that runs alone, up to its end, and collects its children. What a peek reads isn't kept.
fn put_thread(
    alloc: Global,
    code: &Code,
    first: ThreadState,
    out: &mut Vec<u8>,
    threads: &mut Vec<ThreadState>,
) -> Result<(), Memory> {
    put_path(alloc, out, &first.path)?;
    put(out, b":")?;
    let mut thread = first;
    for _ in 0..MOST_ACTS {
        let Some(prepared) = next_action(alloc, code, &thread) else {
            break;
        };
        put_act(alloc, out, prepared.act())?;
        if is_last(prepared.act()) {
            break;
        }
        let (_, _, next, child) = prepared.into_parts();
        if let Some(child) = child {
            threads.push(child)?;
        }
        thread = next;
    }
    put(out, b"\n")
}

/// What the threads of a test do, each run alone: first the root thread, then the others in the order in which they were forked.
fn told(alloc: Global, text: &[u8]) -> Option<Vec<u8>> {
    let code = code_of(alloc, text)?;
    let mut out = Vec::new(alloc);
    let mut threads = Vec::new(alloc);
    threads.push(code.root(alloc).ok()?).ok()?;
    for turn in 0..MOST_THREADS {
        let thread = match threads.as_slice().get(turn) {
            None => break,
            Some(thread) => thread.copy(alloc).ok()?,
        };
        put_thread(alloc, &code, thread, &mut out, &mut threads).ok()?;
    }
    Some(out)
}

#[test]
fn statements_act(rt: HostRuntime) -> Result<(), Fail> {
    for (text, acts) in [
        (b"".as_slice(), b"/: end\n".as_slice()),
        (
            b"repeat 3 { poke a = 1; }",
            b"/: poke 1 poke 1 poke 1 end\n",
        ),
        (b"repeat 0 { poke a = 1; }", b"/: end\n"),
        (
            b"let v = 0; while v < 3 { poke a = v; set v = v + 1; }",
            b"/: poke 0 poke 1 poke 2 end\n",
        ),
        (
            b"let v = 2; if v == 2 { poke a = 1; } else { poke a = 2; } if v < 2 { poke a = 3; } else { poke a = 4; }",
            b"/: poke 1 poke 4 end\n",
        ),
        (
            b"if 1 { if 0 { poke a = 1; } else { poke a = 2; } }",
            b"/: poke 2 end\n",
        ),
        (
            b"if 0 { if 0 { poke a = 1; } else { poke a = 2; } }",
            b"/: end\n",
        ),
        (
            b"let u = 0; let v = 0; peek a; peek a into v; expect a == 7 - 5; step 3;",
            b"/: peek peek 1 expect 2 step 3 end\n",
        ),
    ] {
        let told = told(rt.alloc(), text).ok_or("refused")?;
        assert_eq!(rt; told.as_slice(), acts);
    }
    Ok(())
}

#[test]
fn children_begin(rt: HostRuntime) -> Result<(), Fail> {
    let text = b"let v = 5; fork w { poke a = v; set v = 6; poke a = v; } poke a = v + 2;
fork u { fork x { } join x; } join u; joinstep w;";
    let told = told(rt.alloc(), text).ok_or("refused")?;
    assert_eq!(rt;
        told.as_slice(),
        b"/: fork /0 poke 7 fork /1 join /1 joinstep /0 end\n/0: poke 5 poke 6 end\n/1: fork /1/0 join /1/0 end\n/1/0: end\n".as_slice()
    );
    Ok(())
}

#[test]
fn threads_are_spent(rt: HostRuntime) -> Result<(), Fail> {
    for (text, acts) in [
        (
            b"poke a = 1;\nwhile 1 { }".as_slice(),
            b"/: poke 1 spent at 2\n".as_slice(),
        ),
        (b"repeat 65535 { }", b"/: end\n"),
        (b"repeat 65536 { }", b"/: spent at 1\n"),
        (
            b"repeat 65535 { } step 1; repeat 65535 { }",
            b"/: step 1 end\n",
        ),
    ] {
        let told = told(rt.alloc(), text).ok_or("refused")?;
        assert_eq!(rt; told.as_slice(), acts);
    }
    Ok(())
}

#[test]
fn a_spent_thread_stays(rt: HostRuntime) -> Result<(), Fail> {
    let alloc = rt.alloc();
    let code = code_of(alloc, b"while 1 { }").ok_or("refused")?;
    let spent = first_action(alloc, &code).ok_or("memory")?;
    assert_eq!(rt; spent.fetched().len(), 2);
    assert_eq!(rt; (spent.next().pc, spent.next().acts), (0, 1));
    assert!(rt; code.fits(spent.next()), "it can be prepared again");
    Ok(())
}

/// Whether the code of the other text has what is read for the first act of the one.
fn is_held(alloc: Global, one: &[u8], other: &[u8]) -> Option<bool> {
    let code = code_of(alloc, one)?;
    let prepared = first_action(alloc, &code)?;
    let others = code_of(alloc, other)?;
    Some(others.holds(prepared.fetched()))
}

#[test]
fn code_holds_what_was_read(rt: HostRuntime) -> Result<(), Fail> {
    let text = b"let v = 3; repeat v { } poke a = v;";
    for (other, wanted) in [
        (text.as_slice(), true),
        (b"let v = 3; repeat v { } poke a = v; step 1;", true),
        (b"let v = 3; repeat v { } poke a = v + 0;", false),
        (b"let v = 3;", false),
    ] {
        let held = is_held(rt.alloc(), text, other).ok_or("refused")?;
        assert_eq!(rt; held, wanted);
    }
    Ok(())
}

/// Whether a copy of the one text's code is the code of the other.
fn is_same(alloc: Global, one: &[u8], other: &[u8]) -> Option<bool> {
    let code = code_of(alloc, one)?;
    let copy = code.copy(alloc).ok()?;
    let others = code_of(alloc, other)?;
    Some(copy.same(&others))
}

#[test]
fn codes_are_compared(rt: HostRuntime) -> Result<(), Fail> {
    let text = b"let v = 1; fork w { poke a = v; }";
    for (other, wanted) in [
        (text.as_slice(), true),
        (b"let v = 1;  fork w { poke a = v; } // a comment", true),
        (b"let v = 1;\nfork w { poke a = v; }", false),
        (b"let v = 1; fork u { poke a = v; }", false),
    ] {
        let same = is_same(rt.alloc(), text, other).ok_or("refused")?;
        assert_eq!(rt; same, wanted);
    }
    Ok(())
}

/// The places of the instructions that are read for the first act, as they are listed.
fn places_read(alloc: Global, text: &[u8]) -> Option<Vec<u32>> {
    let code = code_of(alloc, text)?;
    let prepared = first_action(alloc, &code)?;
    let mut places = Vec::new(alloc);
    for fetched in prepared.fetched() {
        places.push(fetched.pc).ok()?;
    }
    Some(places)
}

/// In each turn the loop goes another way, at lower places than in the turn before.
#[test]
fn a_loop_goes_other_ways(rt: HostRuntime) -> Result<(), Fail> {
    let text = b"let v = 3;
while v {
  if v == 1 { set v = 0; } else { if v == 2 { set v = 1; } else { set v = 2; } }
}
poke a = v;";
    let places = places_read(rt.alloc(), text).ok_or("refused")?;
    assert_eq!(rt;
        places.as_slice(),
        [0, 1, 2, 3, 4, 5, 6, 7, 8, 9, 10].as_slice()
    );
    Ok(())
}

#[test]
fn each_place_is_listed_once(rt: HostRuntime) -> Result<(), Fail> {
    let text = b"let v = 0; while v < 20000 { set v = v + 1; } poke a = v; poke a = 0;";
    let places = places_read(rt.alloc(), text).ok_or("refused")?;
    assert_eq!(rt; places.as_slice(), [0, 1, 2, 3, 4].as_slice());
    Ok(())
}

/// Statements of most kinds.
const MIXED: &[u8] = b"let v = 3 * 4 + 1;
set v = v - 1;
if v < 3 { poke a = v; } else { expect a == 2; }
repeat 2 { peek a into v; step 1; }
fork w { while v { set v = v - v; } }
join w;
";

/// A text of so many bytes, or a few less.
fn long_text(alloc: Global, bytes: usize) -> Result<Vec<u8>, Memory> {
    let mut text = Vec::new(alloc);
    for _ in 0..bytes / MIXED.len() {
        put(&mut text, MIXED)?;
    }
    Ok(text)
}

/// The code of a text of so many bytes, or a few less.
fn long_code(alloc: Global, bytes: usize) -> Option<Code> {
    let text = long_text(alloc, bytes).ok()?;
    code_of(alloc, text.as_slice())
}

/// What the tests of long runs take beside their work.
#[test]
fn an_empty_test(rt: HostRuntime) -> Result<(), Fail> {
    let code = code_of(rt.alloc(), b"").ok_or("refused")?;
    assert_eq!(rt; code.placed().len(), 1);
    Ok(())
}

/// The number of a thread's tenth act.
fn tenth_number(alloc: Global, code: &Code) -> Option<u128> {
    let mut thread = code.root(alloc).ok()?;
    let mut last = None;
    for _ in 0..10 {
        let (_, act, next, _) = next_action(alloc, code, &thread)?.into_parts();
        last = number(&act);
        thread = next;
    }
    last
}

/// Ten acts, with nearly as many local statements before each as there may be: 655,341 of them.
#[test]
fn a_long_loop(rt: HostRuntime) -> Result<(), Fail> {
    let text = b"let v = 0; while 1 { repeat 32766 { set v = v + 1; } poke a = v; }";
    let code = code_of(rt.alloc(), text).ok_or("refused")?;
    let number = tenth_number(rt.alloc(), &code).ok_or("no number")?;
    assert_eq!(rt; number, 327_660);
    Ok(())
}

/// Ten acts, with 585,022 local statements before them: in each turn of the loop are two statements, and a third in each second.
#[test]
fn a_long_loop_of_statements(rt: HostRuntime) -> Result<(), Fail> {
    let text = b"let v = 0; let w = 0;
while 1 {
  repeat 13000 { set v = v + 1; set w = w * 3 + v; if v & 1 { set w = w ^ v; } }
  poke a = v;
}";
    let code = code_of(rt.alloc(), text).ok_or("refused")?;
    let number = tenth_number(rt.alloc(), &code).ok_or("no number")?;
    assert_eq!(rt; number, 130_000);
    Ok(())
}

/// A statement that goes two ways by each bit of `v`, so many bits deep, and at the end of each way counts in `w`.
fn ways(alloc: Global, bits: u32) -> Result<Vec<u8>, Memory> {
    let mut text = Vec::from_slice(alloc, b"set w=w+1;")?;
    for turn in 0..bits {
        let way = text;
        text = Vec::from_slice(alloc, b"if v>>")?;
        put_decimal(alloc, &mut text, u128::from(bits - 1 - turn))?;
        put(&mut text, b"&1{")?;
        put(&mut text, way.as_slice())?;
        put(&mut text, b"}else{")?;
        put(&mut text, way.as_slice())?;
        put(&mut text, b"}")?;
    }
    Ok(text)
}

/// The code of a loop that goes each of 4,096 ways once, which takes 61,443 local statements.
fn code_of_ways(alloc: Global) -> Option<Code> {
    let mut text = Vec::from_slice(alloc, b"let v=4096; let w=0; while v {").ok()?;
    put(&mut text, ways(alloc, 12).ok()?.as_slice()).ok()?;
    put(&mut text, b"set v=v-1;} poke a=w;").ok()?;
    code_of(alloc, text.as_slice())
}

/// The number of the first act, and how many instructions are read for it.
fn first_number(alloc: Global, code: &Code) -> Option<(u128, usize)> {
    let prepared = first_action(alloc, code)?;
    Some((number(prepared.act())?, prepared.fetched().len()))
}

/// Each instruction but the last one, the end, is read, and is listed once.
#[test]
fn a_loop_of_many_ways(rt: HostRuntime) -> Result<(), Fail> {
    let code = code_of_ways(rt.alloc()).ok_or("refused")?;
    let (number, count) = first_number(rt.alloc(), &code).ok_or("no number")?;
    assert_eq!(rt; number, 4096);
    assert_eq!(rt; code.placed().len().saturating_sub(count), 1);
    Ok(())
}

/// The first action is worked out twenty times; how many instructions are read for it.
fn prepared_again(alloc: Global, code: &Code) -> Option<usize> {
    let mut count = 0;
    for _ in 0..20 {
        count = first_action(alloc, code)?.fetched().len();
    }
    Some(count)
}

#[test]
fn a_loop_of_many_ways_again_and_again(rt: HostRuntime) -> Result<(), Fail> {
    let code = code_of_ways(rt.alloc()).ok_or("refused")?;
    let count = prepared_again(rt.alloc(), &code).ok_or("memory")?;
    assert_eq!(rt; code.placed().len().saturating_sub(count), 1);
    Ok(())
}

/// The code of a test without branches, whose one act comes behind so many local statements and one.
fn straight_code(alloc: Global, count: u32) -> Option<Code> {
    let mut text = Vec::from_slice(alloc, b"let v=0;\n").ok()?;
    for turn in 0..count {
        put(&mut text, b"set v=v+").ok()?;
        put_decimal(alloc, &mut text, u128::from(turn)).ok()?;
        put(&mut text, b";\n").ok()?;
    }
    put(&mut text, b"poke a=v;").ok()?;
    code_of(alloc, text.as_slice())
}

#[test]
fn a_straight_test(rt: HostRuntime) -> Result<(), Fail> {
    let code = straight_code(rt.alloc(), 15_000).ok_or("refused")?;
    let (number, count) = first_number(rt.alloc(), &code).ok_or("no number")?;
    assert_eq!(rt; (number, count), (112_492_500, 15_002));
    Ok(())
}

#[test]
fn a_straight_test_again_and_again(rt: HostRuntime) -> Result<(), Fail> {
    let code = straight_code(rt.alloc(), 15_000).ok_or("refused")?;
    let count = prepared_again(rt.alloc(), &code).ok_or("memory")?;
    assert_eq!(rt; count, 15_002);
    Ok(())
}

#[test]
fn half_a_straight_test(rt: HostRuntime) -> Result<(), Fail> {
    let code = straight_code(rt.alloc(), 7_500).ok_or("refused")?;
    let (number, count) = first_number(rt.alloc(), &code).ok_or("no number")?;
    assert_eq!(rt; (number, count), (28_121_250, 7_502));
    Ok(())
}

#[test]
fn half_a_straight_test_again_and_again(rt: HostRuntime) -> Result<(), Fail> {
    let code = straight_code(rt.alloc(), 7_500).ok_or("refused")?;
    let count = prepared_again(rt.alloc(), &code).ok_or("memory")?;
    assert_eq!(rt; count, 7_502);
    Ok(())
}

/// Compiles a test twenty times, and counts the instructions.
fn compiled_again(alloc: Global, test: &CoreTest) -> Option<usize> {
    let mut count = 0;
    for _ in 0..20 {
        count = compile(alloc, test).ok()?.placed().len();
    }
    Some(count)
}

/// A long test is read, checked and compiled.
#[test]
fn a_long_test(rt: HostRuntime) -> Result<(), Fail> {
    let code = long_code(rt.alloc(), TEXT_LIMIT).ok_or("refused")?;
    assert!(rt; code.placed().len() > 20_000);
    Ok(())
}

#[test]
fn half_a_long_test(rt: HostRuntime) -> Result<(), Fail> {
    let code = long_code(rt.alloc(), TEXT_LIMIT / 2).ok_or("refused")?;
    assert!(rt; code.placed().len() > 10_000);
    Ok(())
}

/// A long test is read and checked, and compiled 21 times.
#[test]
fn a_long_test_again_and_again(rt: HostRuntime) -> Result<(), Fail> {
    let code = long_code(rt.alloc(), TEXT_LIMIT).ok_or("refused")?;
    let count = compiled_again(rt.alloc(), code.test()).ok_or("memory")?;
    assert_eq!(rt; count, code.placed().len());
    Ok(())
}

#[test]
fn half_a_long_test_again_and_again(rt: HostRuntime) -> Result<(), Fail> {
    let code = long_code(rt.alloc(), TEXT_LIMIT / 2).ok_or("refused")?;
    let count = compiled_again(rt.alloc(), code.test()).ok_or("memory")?;
    assert_eq!(rt; count, code.placed().len());
    Ok(())
}
