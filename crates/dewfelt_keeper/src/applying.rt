//! A fleet that is applied to the registrations of a keeper.

ghost use Rattle.std.specs.Option.{option_copied, option_map};
ghost use Rattle.std.specs.Prelude.{◌≡◌, IfOk, OnErr, OnOk};
ghost use Rattle.jt_store.specs.Tables.{IsTrimmed, MayRegister, WhereKnown};
ghost use Rattle.jt_value.specs.Sameness.{key_of};
ghost use Rattle.dewfelt_keeper.specs.Rules.{AreBehind, AreForgotten, AreListed, Becomes, IsApplied, IsOnTheWay};
ghost use Rattle.dewfelt_keeper.specs.Sweeps.{AreAllowed, BindsAll, BindsNext, BindsSome, ForgetsAll, ForgetsNext, ForgetsSome, Stays, left_allowed, listed_if, with_own_or};

use dewfelt_fleet::Fleet;
use jt_store::{Keeper, Registered, Registrations, StoreError};
use jt_value::{Phone, Seq};
use std::alloc::Global;

// Removes a phone's registration where the fleet does not allow it. The phone is put behind those that are forgotten first.
fn forget_unallowed<K: Keeper>(
    alloc: Global,
    keeper: &mut K,
    fleet: &Fleet,
    phone: &Phone,
    registered: &Registered,
    forgotten: &mut Seq<Phone>,
) -> Result<(), StoreError>
    ensures ok { OnOk result (Becomes (K.tables keeper.old) (K.tables keeper.new)
        (λ old now. now ≡ left_allowed fleet.now (key_of phone.now) registered.now old)) }
    ensures listed { OnOk result (forgotten.new
        ≡ listed_if fleet.now phone.now registered.now forgotten.old) }
    ensures err { OnErr result (K.tables keeper.new ≡ K.tables keeper.old) }
    ensures behind { AreBehind forgotten.old forgotten.new }
{
    if fleet.allows(phone, registered) {
        return Ok(());
    }
    forgotten.push(*phone)?;
    keeper.unregister(alloc, phone)
}

// Looks at the first registration behind this phone's, and removes it where the fleet does not allow it. The phone that was looked
// at, if there is one.
fn forget_next<K: Registrations>(
    alloc: Global,
    keeper: &mut K,
    fleet: &Fleet,
    after: Option<&Phone>,
    forgotten: &mut Seq<Phone>,
) -> Result<Option<Phone>, StoreError>
    ensures ok { IfOk result (λ found. Becomes (K.tables keeper.old) (K.tables keeper.new)
        (ForgetsNext fleet.now (option_map key_of (option_copied after.entry)) found
        forgotten.old forgotten.new)) }
    ensures err { OnErr result (K.tables keeper.new ≡ K.tables keeper.old) }
    ensures behind { AreBehind forgotten.old forgotten.new }
{
    match keeper.next_registered(alloc, after) {
        Ok(None) => Ok(None),
        Ok(Some((phone, registered))) => {
            match forget_unallowed(alloc, keeper, fleet, &phone, &registered, forgotten) {
                Ok(()) => Ok(Some(phone)),
                Err(error) => Err(error),
            }
        }
        Err(error) => Err(error),
    }
}

// Removes the registrations that the fleet does not allow.
fn forget_others<K: Registrations>(
    alloc: Global,
    keeper: &mut K,
    fleet: &Fleet,
    forgotten: &mut Seq<Phone>,
) -> Result<(), StoreError>
    ensures ok { OnOk result (Becomes (K.tables keeper.old) (K.tables keeper.new)
        (ForgetsAll fleet.now forgotten.old forgotten.new)) }
    ensures err { OnErr result (Becomes (K.tables keeper.old) (K.tables keeper.new)
        (ForgetsSome fleet.now)) }
    ensures listed { Becomes (K.tables keeper.old) (K.tables keeper.new)
        (AreListed forgotten.new) }
    ensures behind { AreBehind forgotten.old forgotten.new }
{
    let mut after = None;
    for _ in 0..u64::MAX {
        match forget_next(alloc, keeper, fleet, after.as_ref(), forgotten)? {
            Some(phone) => after = Some(phone),
            None => return Ok(()),
        }
    }
    Err(StoreError::Full(u64::MAX))
}

// Registers a phone as it is bound, if it is not registered.
fn register_own<K: Keeper>(
    alloc: Global,
    keeper: &mut K,
    phone: &Phone,
    own: &Registered,
) -> Result<(), StoreError>
    requires trimmed { IsTrimmed own.now.terminal }
    requires may { WhereKnown (K.tables keeper.old)
        (λ t. MayRegister t.registered (key_of phone.now) own.now) }
    ensures ok { OnOk result (Becomes (K.tables keeper.old) (K.tables keeper.new)
        (λ old now. now ≡ with_own_or (key_of phone.now) own.now old)) }
    ensures err { OnErr result (K.tables keeper.new ≡ K.tables keeper.old) }
{
    match keeper.registered(alloc, phone) {
        Ok(Some(_registered)) => Ok(()),
        Ok(None) => keeper.register(alloc, phone, own),
        Err(error) => Err(error),
    }
}

// Looks at the first vehicle behind this phone's, and registers its phone, if it is not registered. The phone that was looked at, if
// there is one.
fn register_next<K: Keeper>(
    alloc: Global,
    keeper: &mut K,
    fleet: &Fleet,
    after: Option<&Phone>,
) -> Result<Option<Phone>, StoreError>
    requires { WhereKnown (K.tables keeper.old) (AreAllowed fleet.now) }
    ensures ok { IfOk result (λ found. Becomes (K.tables keeper.old) (K.tables keeper.new)
        (BindsNext fleet.now (option_map key_of (option_copied after.entry)) found)) }
    ensures err { OnErr result (K.tables keeper.new ≡ K.tables keeper.old) }
{
    match fleet.next_bound(after) {
        Some((phone, own)) => match register_own(alloc, keeper, &phone, own) {
            Ok(()) => Ok(Some(phone)),
            Err(error) => Err(error),
        },
        None => Ok(None),
    }
}

// Registers the vehicles' phones.
fn register_bound<K: Keeper>(alloc: Global, keeper: &mut K, fleet: &Fleet) -> Result<(), StoreError>
    requires { WhereKnown (K.tables keeper.old) (AreAllowed fleet.now) }
    ensures ok { OnOk result (Becomes (K.tables keeper.old) (K.tables keeper.new)
        (BindsAll fleet.now)) }
    ensures err { OnErr result (Becomes (K.tables keeper.old) (K.tables keeper.new)
        (BindsSome fleet.now)) }
    ensures stays { Becomes (K.tables keeper.old) (K.tables keeper.new) Stays }
{
    let mut after = None;
    for _ in 0..u64::MAX {
        match register_next(alloc, keeper, fleet, after.as_ref())? {
            Some(phone) => after = Some(phone),
            None => return Ok(()),
        }
    }
    Err(StoreError::Full(u64::MAX))
}

// Brings the registrations in line with the fleet.
pub(crate) fn settle<K: Registrations>(
    alloc: Global,
    keeper: &mut K,
    fleet: &Fleet,
    forgotten: &mut Seq<Phone>,
) -> Result<(), StoreError>
    ensures ok { OnOk result (Becomes (K.tables keeper.old) (K.tables keeper.new)
        (IsApplied fleet.now)) }
    ensures err { OnErr result (Becomes (K.tables keeper.old) (K.tables keeper.new)
        (IsOnTheWay fleet.now)) }
    ensures listed { Becomes (K.tables keeper.old) (K.tables keeper.new)
        (AreListed forgotten.new) }
    ensures forgotten { OnOk result (WhereKnown (K.tables keeper.old)
        (λ t. AreForgotten fleet.now t forgotten.old forgotten.new)) }
    ensures behind { AreBehind forgotten.old forgotten.new }
{
    forget_others(alloc, keeper, fleet, forgotten)?;
    register_bound(alloc, keeper, fleet)
}
