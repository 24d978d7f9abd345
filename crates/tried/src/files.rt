use dxc_disk::{CountedDisk, Disk, DiskFault, FileDisk, write_and_sync};
use dxc_host::HostOpener;
use dxc_outside::{Frame, Lines, Opened, Opener, Put};
use std::fs;
use std::test::Fail;

const NAME: &str = "disk_test.jnl";

#[test]
fn a_file_keeps_what_was_written(rt: HostRuntime) -> Result<(), Fail> {
    let alloc = rt.alloc();
    let mut disk = CountedDisk::new(FileDisk::open(alloc, &rt, NAME)?);
    assert!(rt; write_and_sync(&mut disk, 0, b"abcdef") == Ok(()));
    assert!(rt; disk.length() == Ok(6));
    assert!(rt; disk.reads() == 1 && disk.writes() == 1 && disk.syncs() == 1);
    assert!(rt;
        FileDisk::open(alloc, &rt, NAME).is_err(),
        "it has one owner"
    );
    drop(disk);
    let mut again = FileDisk::open(alloc, &rt, NAME)?;
    let mut two = [0; 2];
    assert!(rt; again.read(2, &mut two) == Ok(()) && two == *b"cd");
    assert!(rt; again.read(5, &mut two) == Err(DiskFault));
    Ok(())
}

#[test]
fn who_only_looks_changes_no_file(rt: HostRuntime) -> Result<(), Fail> {
    let alloc = rt.alloc();
    let mut opener = HostOpener::new(rt, Vec::new(alloc));
    opener.only_look();
    let Opened::Open(mut disk) = opener.journal(alloc, "look_test.jnl") else {
        return Err("not opened".into());
    };
    let mut two = [0; 2];
    assert!(rt; write_and_sync(&mut disk, 0, b"abc") == Ok(()));
    assert!(rt; disk.read(1, &mut two) == Ok(()) && two == *b"bc");
    assert!(rt; disk.read(2, &mut two) == Err(DiskFault));
    assert!(rt; fs::read(&rt, "look_test.jnl").is_err());
    fs::write(&rt, "look_test.txt", b"a text")?;
    assert!(rt; matches!(opener.journal(alloc, "look_test.txt"), Opened::Failed));
    let refusal = opener.refusal().ok_or("nothing was refused")?;
    let told = format!(in alloc; "{refusal}")?;
    assert!(rt;
        told.as_str()
            == "look_test.txt: it holds something else than a journal or the beginning of one"
    );
    Ok(())
}

#[test]
fn frames_go_from_file_to_file(rt: HostRuntime) -> Result<(), Fail> {
    let alloc = rt.alloc();
    fs::write(&rt, "lines_test.in", b"abcdefgh")?;
    let mut opener = HostOpener::new(rt, Vec::new(alloc));
    let Opened::Open(mut lines) = opener.lines(alloc, "lines_test", 3) else {
        return Err("not opened".into());
    };
    let mut frame = [0u8; 3];
    assert!(rt; lines.read_frame(&mut frame) == Frame::Whole && frame == *b"abc");
    assert!(rt; lines.write_frame(&frame) == Put::Took(3));
    assert!(rt; lines.read_frame(&mut frame) == Frame::Whole);
    assert!(rt; lines.write_frame(&frame) == Put::Took(3));
    let written = fs::read(&rt, "lines_test.3.out")?;
    assert!(rt; written.as_slice() == b"abcdef".as_slice());
    assert!(rt;
        lines.read_frame(&mut frame) == Frame::Failed,
        "a rest of two bytes"
    );
    Ok(())
}
