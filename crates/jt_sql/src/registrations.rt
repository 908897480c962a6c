//! The table of registrations. Each call is a part of a transaction.

ghost use Rattle.std.specs.Option.{option_copied, option_map};
ghost use Rattle.std.specs.Prelude.{IfOk, IfSome, IsTrue};
ghost use Rattle.jt_store.specs.Tables.{IsBehind};
ghost use Rattle.jt_value.specs.Sameness.{key_of};

use crate::asking::{change, one_row, value};
use crate::phones::phone_of;
use crate::refused::Refused;
use jt_store::Registered;
use jt_value::{Edition, Octets, Phone};
use sqlite::{Alter, Row, Transaction, params};

const READ: &str = "SELECT plate, terminal FROM registered WHERE phone = ?1";

const PLATE_OWNER: &str = "SELECT phone FROM registered WHERE plate = ?1";

const TERMINAL_OWNER: &str = "SELECT phone FROM registered WHERE terminal = ?1";

const FIRST: &str = "SELECT plate, terminal, phone FROM registered ORDER BY phone LIMIT 1";

const BEHIND: &str =
    "SELECT plate, terminal, phone FROM registered WHERE phone > ?1 ORDER BY phone LIMIT 1";

const SET: &str = "INSERT INTO registered (phone, plate, terminal) VALUES (?1, ?2, ?3) \
     ON CONFLICT (phone) DO UPDATE SET plate = excluded.plate, terminal = excluded.terminal";

const REMOVE: &str = "DELETE FROM registered WHERE phone = ?1";

/// What is kept under a phone's octets.
pub(crate) fn read<S: Alter>(
    work: &mut Transaction<'_, S>,
    phone: &[u8],
) -> Result<Option<Registered>, Refused> {
    let Some(row) = one_row(work, READ, params![phone])? else {
        return Ok(None);
    };
    Ok(Some(registered_in(&row)?))
}

// The plate and the terminal id in the two columns.
fn registered_in(row: &Row) -> Result<Registered, Refused> {
    let plate = Octets::from_vec(value(row, 0)?);
    let terminal = Octets::from_vec(value(row, 1)?);
    Ok(Registered { plate, terminal })
}

// The phone of 2019 with the digits in the one row that is found, if one is.
fn owner<S: Alter>(
    work: &mut Transaction<'_, S>,
    sql: &str,
    name: &[u8],
) -> Result<Option<Phone>, Refused> {
    let Some(row) = one_row(work, sql, params![name])? else {
        return Ok(None);
    };
    let digits: Vec<u8> = value(&row, 0)?;
    Ok(Some(phone_of(Edition::E2019, digits.as_slice())?))
}

/// The phone of 2019 with the digits of the one that has this plate.
pub(crate) fn plate_owner<S: Alter>(
    work: &mut Transaction<'_, S>,
    plate: &[u8],
) -> Result<Option<Phone>, Refused> {
    owner(work, PLATE_OWNER, plate)
}

/// The phone of 2019 with the digits of the one that has this terminal id.
pub(crate) fn terminal_owner<S: Alter>(
    work: &mut Transaction<'_, S>,
    terminal: &[u8],
) -> Result<Option<Phone>, Refused> {
    owner(work, TERMINAL_OWNER, terminal)
}

// The first phone behind this one, or the first of all, as one of 2019, and what it is registered with.
fn first_behind<S: Alter>(
    work: &mut Transaction<'_, S>,
    after: Option<&Phone>,
) -> Result<Option<(Phone, Registered)>, Refused> {
    let found = match after {
        Some(phone) => one_row(work, BEHIND, params![phone.digits.as_slice()])?,
        None => one_row(work, FIRST, &[])?,
    };
    let Some(row) = found else {
        return Ok(None);
    };
    let registered = registered_in(&row)?;
    let digits: Vec<u8> = value(&row, 2)?;
    let phone = phone_of(Edition::E2019, digits.as_slice())?;
    Ok(Some((phone, registered)))
}

fn is_behind(after: Option<&Phone>, phone: &Phone) -> bool
    ensures { IsTrue result →
        IsBehind (option_map key_of (option_copied after.entry)) (key_of phone.now) }
{
    match after {
        Some(after) => after
            .digits
            .as_slice()
            .cmp(&phone.digits.as_slice())
            .is_lt(),
        None => true,
    }
}

/// The same. A phone that does not stand behind is refused.
pub(crate) fn next<S: Alter>(
    work: &mut Transaction<'_, S>,
    after: Option<&Phone>,
) -> Result<Option<(Phone, Registered)>, Refused>
    ensures { IfOk result (λ found. IfSome found (λ one.
        IsBehind (option_map key_of (option_copied after.entry)) (key_of one.0))) }
{
    let Some((phone, registered)) = first_behind(work, after)? else {
        return Ok(None);
    };
    if is_behind(after, &phone) {
        Ok(Some((phone, registered)))
    } else {
        Err(Refused::Failed)
    }
}

/// Sets or replaces what is kept under a phone's octets.
pub(crate) fn set<S: Alter>(
    work: &mut Transaction<'_, S>,
    phone: &[u8],
    registered: &Registered,
) -> Result<(), Refused> {
    let plate = registered.plate.as_slice();
    let terminal = registered.terminal.as_slice();
    change(work, SET, params![phone, plate, terminal])?;
    Ok(())
}

/// Removes what is kept under a phone's octets, if there is anything.
pub(crate) fn remove<S: Alter>(work: &mut Transaction<'_, S>, phone: &[u8]) -> Result<(), Refused> {
    change(work, REMOVE, params![phone])?;
    Ok(())
}
