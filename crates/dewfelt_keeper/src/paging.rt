//! Pages of registrations.

ghost use Rattle.std.specs.Option.{option_copied, option_map};
ghost use Rattle.std.specs.Prelude.{◌≡◌, ◌+◌, IfOk, IfSome, length};
ghost use Rattle.jt_store.specs.Tables.{Reads};
ghost use Rattle.jt_value.specs.Sameness.{key_of};
ghost use Rattle.dewfelt_keeper.specs.Registries.{AddsNext, IsPage};

use jt_store::{Registered, Registrations, StoreError};
use jt_value::{Phone, Seq};
use std::alloc::Global;

// Puts the registration behind this phone's at the end of a page. Its phone, if there is one.
fn add_next<K: Registrations>(
    alloc: Global,
    keeper: &mut K,
    last: Option<&Phone>,
    page: &mut Seq<(Phone, Registered)>,
) -> Result<Option<Phone>, StoreError>
    ensures answer { Reads (K.tables keeper.old) (K.tables keeper.new) (λ t found.
        AddsNext t.registered (option_map key_of (option_copied last.entry))
        page.old page.new found) result }
    ensures more { IfOk result (λ found.
        IfSome found (λ _. length page.new ≡ length page.old + 1)) }
{
    match keeper.next_registered(alloc, last) {
        Ok(Some((phone, registered))) => {
            page.push((phone, registered))?;
            Ok(Some(phone))
        }
        Ok(None) => Ok(None),
        Err(error) => Err(error),
    }
}

// The registrations behind this phone's, or from the first one on, at most so many.
pub(crate) fn page_of<K: Registrations>(
    alloc: Global,
    keeper: &mut K,
    after: Option<&Phone>,
    most: usize,
) -> Result<Seq<(Phone, Registered)>, StoreError>
    ensures { Reads (K.tables keeper.old) (K.tables keeper.new) (λ t page.
        IsPage t.registered (option_map key_of (option_copied after.entry)) most page) result }
{
    let mut page = Seq::new(alloc);
    let mut last = after.copied();
    while page.len() < most {
        match add_next(alloc, keeper, last.as_ref(), &mut page) {
            Ok(Some(phone)) => last = Some(phone),
            Ok(None) => return Ok(page),
            Err(error) => return Err(error),
        }
    }
    Ok(page)
}
