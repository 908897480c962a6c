//! Copies of a store's files. The keepers are in memory: what they make of a real file is not tried here.

use crate::desk::{make_folder, text_of};
use dewfelt_commands::{Failed, Stores, copy, copy_store};
use jt_outside::MemSink;
use jt_store::MemKeeper;
use jt_value::{Memory, Seq};
use std::alloc::{AllocError, Global};
use std::test::Fail;
use std::{fs, io};

// Each file has a keeper with nothing in it.
#[derive(Drop)]
struct MemStores {
    alloc: Global,
}

impl Stores for MemStores {
    type Keeper = MemKeeper;

    fn at(&self, _path: &str) -> Result<MemKeeper, Memory> {
        Ok(MemKeeper::new(self.alloc, 100, Seq::new(self.alloc)))
    }
}

fn told(alloc: Global, given: Result<String, Failed>) -> Result<String, AllocError> {
    match given {
        Ok(text) => Ok(text),
        Err(failed) => {
            let number = failed.outcome.number();
            let text = failed.text.as_str();
            format!(in alloc; "{number} {text}")
        }
    }
}

// What `copy` of the folder says.
fn copied(rt: &HostRuntime, folder: &str, file: &str) -> Result<String, Memory> {
    let stores = MemStores { alloc: rt.alloc() };
    let mut err = MemSink::new(rt.alloc(), 4_096, Seq::new(rt.alloc()))?;
    Ok(told(rt.alloc(), copy(rt, &stores, folder, file, &mut err))?)
}

// How many files a folder has.
fn count(rt: &HostRuntime, folder: &str) -> io::Result<usize> {
    let mut count: usize = 0;
    for entry in fs::read_dir(rt, folder)? {
        let _entry = entry?;
        count = count.saturating_add(1);
    }
    Ok(count)
}

#[test]
fn a_file_and_its_log(rt: HostRuntime) -> Result<(), Fail> {
    make_folder(&rt, "pair")?;
    fs::write(&rt, "pair/a", "rows")?;
    fs::write(&rt, "pair/a-wal", "newest rows")?;
    copy_store(&rt, "pair/a", "pair/b")?;
    assert!(rt; text_of(&rt, "pair/b")?.as_str() == "rows");
    assert!(rt; text_of(&rt, "pair/b-wal")?.as_str() == "newest rows");
    fs::write(&rt, "pair/c", "others")?;
    copy_store(&rt, "pair/c", "pair/d")?;
    assert!(rt; text_of(&rt, "pair/d")?.as_str() == "others");
    assert!(rt; text_of(&rt, "pair/d-wal")?.as_str() == "none");
    fs::remove_dir_all(&rt, "pair")?;
    Ok(())
}

// A log that still has something in it would be lost with the copy's name.
#[test]
fn copies_without_a_service(rt: HostRuntime) -> Result<(), Fail> {
    make_folder(&rt, "whole")?;
    make_folder(&rt, "copies")?;
    fs::write(&rt, "whole/platform.db", "rows")?;
    fs::write(&rt, "whole/platform.db-wal", "a log that was emptied")?;
    let found = copied(&rt, "whole", "copies/a")?;
    assert!(rt; found.as_str() == "copies/a: 4 octets\n", "{found}");
    assert!(rt; text_of(&rt, "copies/a")?.as_str() == "rows");
    let found = copied(&rt, "whole", "copies/a")?;
    assert!(rt;
        found.as_str() == "21 copies/a: is there already: name a new file",
        "{found}"
    );
    fs::write(&rt, "copies/b-wal", "of another file")?;
    let found = copied(&rt, "whole", "copies/b")?;
    assert!(rt;
        found.as_str() == "21 copies/b-wal: is there already: name a new file",
        "{found}"
    );
    let log = vec![in rt.alloc(); b'x'; 568]?;
    fs::write(&rt, "whole/platform.db-wal", log.as_slice())?;
    let found = copied(&rt, "whole", "copies/c")?;
    assert!(rt;
        found.as_str() == "21 copies/c: the copy is not whole: is the disk full?",
        "{found}"
    );
    assert!(rt; count(&rt, "copies")? == 2);
    let found = copied(&rt, "whole", "copies/none/d")?;
    assert!(rt; found.as_str().starts_with("21 copies/none: "), "{found}");
    let found = copied(&rt, "whole", "copies/a/d")?;
    assert!(rt; found.as_str() == "21 copies/a: is no folder", "{found}");
    fs::remove_dir_all(&rt, "whole")?;
    fs::remove_dir_all(&rt, "copies")?;
    Ok(())
}
