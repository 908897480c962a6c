//! Two runs of `report` by their words, over one file.

use crate::files::InFile;
use jt_cli::{Ended, Outside, Status, run_bare};
use jt_outside::{MemSink, MemSource, ScriptClock, ScriptDial, ScriptListen};
use jt_sql::SqlVault;
use jt_store::{MemKeeper, Vault};
use jt_value::{Memory, Octets, Seq};
use sql_tests::files::{make_folder, remove_folder};
use std::alloc::Global;
use std::sync::Wait;
use std::test::Fail;
use std::thread::Threads;

const WORDS: &str =
    "report --host localhost --port 9000 --phone 013912345678 --plate 4a54383038 --terminal 31323334353637 --tries 2";

/// A fix of 28 octets.
const FIX: &str = "00000000000000030000000106bc3e40000000000000240101000000";

fn words(alloc: Global) -> Result<Vec<String>, Memory> {
    let mut words = Vec::new(alloc);
    for word in WORDS.split(' ') {
        words.push(String::from_str(alloc, word)?)?;
    }
    Ok(words)
}

fn source(alloc: Global, text: &str) -> Result<MemSource, Memory> {
    let octets = Octets::from_vec(Vec::from_slice(alloc, text.as_bytes())?);
    Ok(MemSource::new(octets, Seq::new(alloc)))
}

/// What a run is over, with any vault.
type All<V> = Outside<MemSource, MemSink, ScriptDial, ScriptListen, ScriptClock, MemKeeper, V>;

// A dial and a listener without links, and a vault.
fn outside<V: Vault + Drop>(alloc: Global, text: &str, vault: V) -> Result<All<V>, Memory> {
    let source = source(alloc, text)?;
    let sink = MemSink::new(alloc, 8192, Seq::new(alloc))?;
    let dial = ScriptDial::new(alloc, Seq::new(alloc), Seq::new(alloc))?;
    let listen = ScriptListen::new(alloc, Seq::new(alloc), Seq::new(alloc))?;
    Ok(Outside {
        source,
        sink,
        dial,
        listen,
        clock: ScriptClock::new(Seq::new(alloc)),
        keeper: MemKeeper::new(alloc, 1000, Seq::new(alloc)),
        vault,
    })
}

// What a run with a vault ends with.
type AllEnded<V> = Ended<MemSource, MemSink, ScriptDial, ScriptListen, ScriptClock, MemKeeper, V>;

// Whether a run ended so and printed this.
fn is_so<V: Vault>(ended: &AllEnded<V>, status: Status, printed: &[u8]) -> bool {
    ended.status == status && ended.outside.sink.octets() == printed
}

// Whether a run over a vault ended so and printed this.
fn ends<R: Threads + Wait + Sync, V: Vault + Drop>(
    rt: &R,
    alloc: Global,
    vault: V,
    text: &str,
    status: Status,
    printed: &[u8],
) -> Result<bool, Memory> {
    let words = words(alloc)?;
    let outside = outside(alloc, text, vault)?;
    let ended = run_bare(rt, alloc, &words, outside);
    let is_so = is_so(&ended, status, printed);
    drop(ended);
    Ok(is_so)
}

// The same over the vault in a file.
fn ends_over<R: Threads + Wait + Sync, V: Vault + InFile>(
    rt: &R,
    files: &HostRuntime,
    path: &str,
    text: &str,
    status: Status,
    printed: &[u8],
) -> Result<bool, Memory> {
    let vault = V::at(files, path)?;
    ends(rt, files.alloc(), vault, text, status, printed)
}

// What the first run recorded is in the file that the second one opens.
#[test]
fn two_runs_of_report_over_one_file(rt: HostRuntime) -> Result<(), Fail> {
    make_folder(&rt, "report_test")?;
    let path = "report_test/terminal.db";
    let printed = b"try 1 dial\ntry 2 dial\naccepted=0 of 1\n".as_slice();
    for text in [FIX, ""] {
        assert!(rt;
            ends_over::<_, SqlVault<HostRuntime>>(&rt, &rt, path, text, Status::Unsent, printed)?
        );
    }
    remove_folder(&rt, "report_test")?;
    Ok(())
}
