//! A log in a file.
use crate::log::helpers::{append, delete, has, opened, put};
use commit_log::{Log, LogFault, format};
use sector::FileSectors;
use std::fs::File;
use std::process::Abort;
use std::rt::Files;
use std::time::Clock;
use std::{env, fs, process};

/// The file, opened.
fn file<R: Abort + Files<File = File> + Clock>(rt: &R, path: &str) -> FileSectors {
    FileSectors::open(rt, path).expect(rt, "a file")
}

#[test]
fn a_file_is_written_closed_and_opened(rt: HostRuntime) {
    let alloc = rt.alloc();
    let name = format!(in alloc; "log-{}", process::id(rt.process())).expect(&rt, "memory");
    let folder = env::temp_dir(&rt).expect(&rt, "a folder");
    let path = folder.join(alloc, name.as_str()).expect(&rt, "memory");
    let path = path.as_str();
    let mut device = FileSectors::create(&rt, path, 16).expect(&rt, "made");
    format(&mut device).expect(&rt, "an empty log");
    let (mut log, map) = opened(&rt, device);
    assert_eq!(rt; map.len(), 0);
    assert_eq!(rt; append(&rt, &mut log, &put(&rt, b"a", b"1")), 0);
    let long = put(&rt, b"b", [7; 1000].as_slice());
    assert_eq!(rt; append(&rt, &mut log, &long), 1);
    assert_eq!(rt; append(&rt, &mut log, &delete(&rt, b"a")), 2);
    drop(log);
    let (log, map) = opened(&rt, file(&rt, path));
    assert_eq!(rt; (log.records(), log.used(), map.len()), (3, 10, 1));
    assert!(rt; has(&map, b"b", [7; 1000].as_slice()));
    drop(log);
    assert!(rt; fs::write(&rt, path, [0; 1024].as_slice()).is_ok());
    match Log::open(alloc, file(&rt, path)) {
        Ok(_) => assert!(rt; false, "opened"),
        Err(fault) => assert_eq!(rt; fault, LogFault::NotALog),
    }
    assert!(rt; fs::remove_file(&rt, path).is_ok());
}
