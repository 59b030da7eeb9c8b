//! A data file with one record, counted and copied.
ghost use Rattle.commit_log.specs.Format.{current};
ghost use Rattle.commit_log.specs.RecordFormat.{IsWriteSet};

use commands::{DONE, FAULT, SystemFiles, create};
use commit_log::Log;
use model::{Key, KeyRef, Write};
use sector::FileSectors;
use std::alloc::Global;
use std::fs::{self, File};
use std::net::Net;
use std::process::Abort;
use std::rt::Files;
use std::time::Clock;
use system::run;

/// Makes the file of this name, of four sectors, whose log has one record.
fn make<R: Files<File = File> + Clock + Abort + AllocGlobal>(rt: &R, name: &str) {
    let _ = fs::remove_file(rt, name);
    assert!(rt; create(&mut SystemFiles::new(rt), name, 4).is_ok());
    let device = FileSectors::open(rt, name).expect(rt, "a file");
    let (mut log, _) = Log::open(rt.alloc(), device).expect(rt, "a log");
    let writes = one_write(rt);
    assert!(rt; log.append(rt.alloc(), &writes) == Ok(0));
}

/// The write set that puts a to 1.
fn one_write<R: Abort + AllocGlobal>(rt: &R) -> Vec<Write>
    ensures { IsWriteSet current result.items }
{
    let key = KeyRef::new(b"a").expect(rt, "a key");
    let key = Key::from_ref(rt.alloc(), key).expect(rt, "memory");
    let value = b"1".to_vec(rt.alloc()).expect(rt, "memory");
    let mut writes = Vec::new(rt.alloc());
    writes
        .push(Write::new(key, Some(value)))
        .expect(rt, "memory");
    writes
}

/// Is a log of four sectors copied, with its counts, and refused as full before the new file is made where this may have three alone?
fn copies<R: Files<File = File> + Net + Clock>(rt: &R, alloc: Global, from: &str) -> bool {
    let to = "copied.data";
    let _ = fs::remove_file(rt, to);
    let mut out = Vec::new(alloc);
    let mut err = Vec::new(alloc);
    let few = [
        "ssikvd",
        "compact",
        "--from",
        from,
        "--to",
        to,
        "--sectors",
        "3",
    ];
    let input = b"".as_slice();
    let refused = run(rt, alloc, &few, input, &mut out, &mut err) == FAULT
        && err.as_slice() == b"ssikvd: log full\n".as_slice()
        && fs::remove_file(rt, to).is_err();
    let done = run(rt, alloc, &few[..6], input, &mut out, &mut err) == DONE
        && out.as_slice() == b"records 1 keys 1 sectors 4 of 4\n".as_slice();
    // Its name is taken now.
    let again = run(rt, alloc, &few[..6], input, &mut out, &mut err) == FAULT;
    refused && done && again && fs::remove_file(rt, to).is_ok()
}

/// A file of four sectors with one record is counted and copied.
#[test]
fn a_file_with_one_record(rt: HostRuntime) {
    let name = "one.data";
    make(&rt, name);
    let mut out = Vec::new(rt.alloc());
    let mut err = Vec::new(rt.alloc());
    let words = ["ssikvd", "check", "--data", name];
    let status = run(&rt, rt.alloc(), &words, b"".as_slice(), &mut out, &mut err);
    assert!(rt;
        status == DONE && out.as_slice() == b"records 1 keys 1 sectors 4 of 4\n".as_slice()
    );
    assert!(rt; copies(&rt, rt.alloc(), name));
    assert!(rt; fs::remove_file(&rt, name).is_ok());
}
