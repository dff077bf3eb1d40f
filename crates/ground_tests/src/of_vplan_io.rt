// Each public call once, and the faults that come from outside.

use std::alloc::Global;
use std::fs;
use std::test::Fail;
use vplan_io::{
    Files, Folder, LoadFault, Shelf, Sink, Stream, SureShelf, SureTray, Tray, put_text, put_three,
};

/// Files with these names and bytes.
fn files(alloc: Global, named: &[(&str, &[u8])]) -> Result<Vec<(String, Vec<u8>)>, Fail> {
    let mut files = Vec::new(alloc);
    for (name, bytes) in named {
        files.push((
            String::from_str(alloc, name)?,
            Vec::from_slice(alloc, bytes)?,
        ))?;
    }
    Ok(files)
}

/// Whether the bytes are loaded, or none where the source fails.
fn gives(outcome: Result<Vec<u8>, LoadFault>, want: Option<&[u8]>) -> bool {
    match (outcome, want) {
        (Ok(bytes), Some(want)) => bytes.as_slice() == want,
        (Err(LoadFault::Failed), None) => true,
        _ => false,
    }
}

#[test]
fn second_load_fails(rt: HostRuntime) -> Result<(), Fail> {
    let alloc = rt.alloc();
    let files = files(alloc, &[("a", b"xyz"), ("b", b""), ("a", b"second")])?;
    let mut shelf = Shelf::new(files, vec![in alloc; 2]?);
    let loads: [(&str, Option<&[u8]>); 5] = [
        ("a", Some(b"xyz")),
        ("a", None),
        ("b", Some(b"")),
        ("c", None),
        ("a", Some(b"xyz")),
    ];
    for (name, want) in loads {
        assert!(rt; gives(shelf.load(alloc, name), want), "{name}");
    }
    Ok(())
}

#[test]
fn first_of_two_counts(rt: HostRuntime) -> Result<(), Fail> {
    let alloc = rt.alloc();
    let mut sure = SureShelf::new(files(alloc, &[("a", b"first"), ("a", b"second")])?);
    assert!(rt; gives(sure.load(alloc, "a"), Some(b"first")));
    assert!(rt; gives(sure.load(alloc, "c"), Some(b"")));
    Ok(())
}

#[test]
fn third_put_fails(rt: HostRuntime) -> Result<(), Fail> {
    let mut tray = Tray::with_room(rt.alloc(), 10, vec![in rt.alloc(); 3]?)?;
    for (bytes, taken) in [("ab", true), ("cd", true), ("x", false), ("ef", true)] {
        assert_eq!(rt; tray.put(bytes.as_bytes()).is_ok(), taken);
    }
    assert_eq!(rt; tray.bytes(), b"abcdef".as_slice());
    Ok(())
}

#[test]
fn text_in_pieces(rt: HostRuntime) -> Result<(), Fail> {
    let alloc = rt.alloc();
    let text = vec![in alloc; b'x'; 10_000]?;
    let mut tray = Tray::with_room(alloc, 20_000, vec![in alloc; 3]?)?;
    assert!(rt; put_text(&mut tray, text.as_slice()).is_err());
    assert_eq!(rt; tray.bytes().len(), 8192);
    let mut tray = Tray::with_room(alloc, 20_000, vec![in alloc; 1, 5]?)?;
    assert!(rt; put_text(&mut tray, b"").is_ok());
    assert!(rt; tray.put(b"").is_err());
    assert!(rt; put_text(&mut tray, text.as_slice()).is_ok());
    assert!(rt; tray.put(b"").is_err());
    assert_eq!(rt; tray.bytes(), text.as_slice());
    let mut sure = SureTray::new();
    assert!(rt; put_three(&mut sure, b"a", text.as_slice(), b"b").is_ok());
    Ok(())
}

#[test]
fn real_files(rt: HostRuntime) -> Result<(), Fail> {
    let alloc = rt.alloc();
    let text = vec![in alloc; b'x'; 5000]?;
    fs::write(&rt, "vplan_io_written", text.as_slice())?;
    let mut folder = Folder::new(&rt);
    let loaded = folder.load(alloc, "vplan_io_written");
    fs::remove_file(&rt, "vplan_io_written")?;
    assert!(rt; gives(loaded, Some(text.as_slice())));
    assert!(rt; gives(folder.load(alloc, "vplan_io_written"), None));
    assert!(rt; gives(folder.load(alloc, "/dev/null"), Some(b"")));
    assert!(rt; matches!(&folder.load(alloc, "/dev/zero"), Err(LoadFault::TooLong)));
    Ok(())
}

#[test]
fn stream_takes_until_full(rt: HostRuntime) {
    let mut space = [0u8; 4];
    let mut stream = Stream::new(space.as_mut_slice());
    assert!(rt; stream.put(b"abc").is_ok() && stream.put(b"").is_ok());
    assert!(rt; stream.put(b"de").is_err());
    assert_eq!(rt; space.as_slice(), b"abcd".as_slice());
}
