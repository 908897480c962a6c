//! An office in memory, and folders to try it in.

use dewfelt_commands::{Forgot, Lists, Office};
use jt_store::{Registered, StoreError};
use jt_value::{Edition, Octets, Phone};
use std::alloc::{AllocError, Global};
use std::{fs, io};

/// A phone of twelve digits that ends in these two.
pub(crate) fn phone(last: u8) -> Phone {
    Phone {
        edition: Edition::E2019,
        digits: [0, 0, 0, 0, 1, 0x39, 0, 0, 0, last],
    }
}

/// The phone that a fleet binds.
pub(crate) const BOUND: u8 = 0x77;

/// The phone at which the store fails.
pub(crate) const FAULT: u8 = 0x99;

/// An office over phones that end in these digits, which rise. Each has its last digits as its plate and as its terminal id.
#[derive(Drop)]
pub(crate) struct Desk {
    rt: HostRuntime,
    lasts: Vec<u8>,
    pub is_stopped: bool,
}

impl Desk {
    pub(crate) fn new(rt: HostRuntime, lasts: &[u8]) -> Result<Desk, AllocError> {
        let lasts = Vec::from_slice(rt.alloc(), lasts)?;
        Ok(Desk {
            rt,
            lasts,
            is_stopped: false,
        })
    }
}

fn registered(alloc: Global, last: u8) -> Result<Registered, AllocError> {
    let plate = format!(in alloc; "B{last:02x}")?;
    let terminal = format!(in alloc; "T{last:02x}")?;
    Ok(Registered {
        plate: Octets::from_vec(plate.into_bytes()),
        terminal: Octets::from_vec(terminal.into_bytes()),
    })
}

impl Lists for Desk {
    fn next_registered(
        &mut self,
        alloc: Global,
        after: Option<&Phone>,
    ) -> Result<Option<(Phone, Registered)>, StoreError> {
        let behind = match after {
            Some(phone) => phone.digits[9],
            None => 0,
        };
        match self.lasts.iter().find(|last| **last > behind) {
            Some(last) if *last == FAULT => Err(StoreError::Failed),
            Some(last) => Ok(Some((phone(*last), registered(alloc, *last)?))),
            None => Ok(None),
        }
    }
}

impl Office for Desk {
    fn forget(&mut self, _alloc: Global, phone: &Phone) -> Result<Forgot, StoreError> {
        let last = phone.digits[9];
        if last == FAULT {
            return Err(StoreError::Failed);
        }
        if last == BOUND {
            return Ok(Forgot::Bound);
        }
        match self.lasts.iter().position(|one| *one == last) {
            Some(place) => {
                self.lasts.remove(place);
                Ok(Forgot::Gone)
            }
            None => Ok(Forgot::NotRegistered),
        }
    }

    fn copy(&mut self, to: &str) -> io::Result<()> {
        fs::write(&self.rt, to, "a copy")
    }

    fn stop(&mut self) {
        self.is_stopped = true;
    }
}

/// Makes a folder with nothing in it.
pub(crate) fn make_folder(rt: &HostRuntime, folder: &str) -> io::Result<()> {
    let _ = fs::remove_dir_all(rt, folder);
    fs::create_dir(rt, folder)
}

/// The text of a file; `none` where it is not there.
pub(crate) fn text_of(rt: &HostRuntime, path: &str) -> io::Result<String> {
    match fs::read_to_string(rt, path) {
        Ok(text) => Ok(text),
        Err(_) => Ok(String::from_str(rt.alloc(), "none")?),
    }
}
