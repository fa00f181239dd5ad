//! A text that is read and checked: what reading promises is what the check asks for.
ghost use Rattle.std.specs.Prelude.{◌≤◌, length};
ghost use Rattle.tl_written.specs.Written.{text_limit};

use net_core::{PortInfo, PortTable, Signal};
use std::alloc::Global;
use std::test::Fail;
use tb_base::Memory;
use tl_ast::print_test;
use tl_check::{CheckedTest, check_test};
use tl_text::read_test;
use tl_written::texts_spell_written_tests;

/// The test of a text, where it spells one that keeps the rules.
fn checked_test(alloc: Global, text: &[u8], ports: &PortTable) -> Option<CheckedTest>
    requires { length text.now ≤ text_limit }
{
    let Ok(test) = read_test(alloc, text) else {
        return None;
    };
    texts_spell_written_tests();
    check_test(alloc, &test, ports).ok()
}

/// One port, the input `a` of 4 bits.
fn table(alloc: Global) -> Result<PortTable, Memory> {
    let mut table = PortTable::new(alloc);
    let info = PortInfo {
        signal: Signal(0),
        input: true,
        signed: false,
        width: 4,
    };
    table.add(Vec::from_slice(alloc, b"a")?, info)?;
    Ok(table)
}

#[test]
fn a_text_is_read_and_checked(rt: HostRuntime) -> Result<(), Fail> {
    let ports = table(rt.alloc())?;
    let checked = checked_test(rt.alloc(), b"repeat 2 { poke a = 1 ; }", &ports).ok_or("refused")?;
    let printed = print_test(rt.alloc(), checked.test()).ok().ok_or("memory")?;
    assert_eq!(rt;
        printed.as_slice(),
        b"repeat 2 {\n  poke a = 1;\n}\n".as_slice()
    );
    Ok(())
}
