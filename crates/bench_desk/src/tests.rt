//! The desk over real files, which no contract sees into.
use crate::{Desk, FileDesk, Lane, Slot};
use std::test::Fail;
use std::{env, fs, process};

#[test]
fn a_file_that_was_made_is_read_back(rt: HostRuntime) -> Result<(), Fail> {
    let alloc = rt.alloc();
    let own = format!(in alloc; "bench-desk-{}", process::id(rt.process()))?;
    let path = env::temp_dir(&rt)?.join(alloc, own.as_str())?;
    let mut desk = FileDesk::new(&rt);
    let Ok(()) = desk.create(path.as_str()) else {
        panic!(rt; "the file was not made");
    };
    assert_eq!(rt; desk.put(Lane::Wave, b"some bytes"), Ok(10));
    let Ok(()) = desk.open_slot(Slot::Circuit, path.as_str()) else {
        panic!(rt; "the file was not opened");
    };
    let mut buf = [0u8; 16];
    let Ok(10) = desk.pull(Slot::Circuit, &mut buf) else {
        panic!(rt; "the bytes were not read");
    };
    assert_eq!(rt; &buf[..10], b"some bytes".as_slice());
    assert_eq!(rt; desk.pull(Slot::Circuit, &mut buf), Ok(0));
    fs::remove_file(&rt, path.as_str())?;
    assert!(rt; desk.open_slot(Slot::Test, path.as_str()).is_err());
    Ok(())
}
