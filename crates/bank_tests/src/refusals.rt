//! Banks that aren't made.

use super::openings::{configs_of, holds};
use bank_core::{Bank, BankFault};
use set_events::{Method, SetConfig};
use std::alloc::Global;
use std::test::Fail;

/// A bank of these sets, with so many users each, is refused so.
fn is_refused(
    alloc: Global,
    configs: &[SetConfig],
    users: u16,
    fault: BankFault,
    number: u8,
) -> Result<(), Fail> {
    match Bank::create(alloc, configs, users) {
        Ok(_) => Err(Fail::from("it was made")),
        Err(found) => holds(found == fault && found.number() == number),
    }
}

#[test]
fn a_bank_has_1_to_64_users(rt: HostRuntime) -> Result<(), Fail> {
    let configs = configs_of(rt.alloc(), 1, 1, Method::Basic, 2, 1)?;
    is_refused(rt.alloc(), &configs, 0, BankFault::Users, 2)?;
    is_refused(rt.alloc(), &configs, 65, BankFault::Users, 2)?;
    holds(Bank::create(rt.alloc(), &configs, 1).is_ok())?;
    holds(Bank::create(rt.alloc(), &configs, 64).is_ok())
}

#[test]
fn a_bank_has_1_to_16_sets(rt: HostRuntime) -> Result<(), Fail> {
    let most = configs_of(rt.alloc(), 16, 1, Method::Basic, 2, 1)?;
    let more = configs_of(rt.alloc(), 17, 1, Method::Basic, 2, 1)?;
    is_refused(rt.alloc(), &[], 1, BankFault::Sets, 3)?;
    is_refused(rt.alloc(), &more, 1, BankFault::Sets, 3)?;
    holds(Bank::create(rt.alloc(), &most, 1).is_ok())
}

/// A set of the wide profile, of this number.
fn wide_config(set: u16) -> Result<SetConfig, Fail> {
    match SetConfig::new_wide(set, 1, 2, 1, 0x80, Method::Basic) {
        Ok(config) => Ok(config),
        Err(_) => Err(Fail::from("refused")),
    }
}

/// A set of the narrow profile.
fn narrow_config() -> Result<SetConfig, Fail> {
    match SetConfig::new(0, 1, 2, 1, 0x80, Method::Basic) {
        Ok(config) => Ok(config),
        Err(_) => Err(Fail::from("refused")),
    }
}

/// Each set's profile is looked at, and last.
#[test]
fn a_bank_has_no_wide_set(rt: HostRuntime) -> Result<(), Fail> {
    let narrow = narrow_config()?;
    let wide = wide_config(1)?;
    let most = [wide; 17];
    is_refused(rt.alloc(), &[wide], 1, BankFault::Wide, 6)?;
    is_refused(rt.alloc(), &[narrow, wide], 1, BankFault::Wide, 6)?;
    is_refused(rt.alloc(), &[wide, narrow], 64, BankFault::Wide, 6)?;
    is_refused(rt.alloc(), &[wide], 0, BankFault::Users, 2)?;
    is_refused(rt.alloc(), &most, 1, BankFault::Sets, 3)
}

#[test]
fn users_are_tested_first(rt: HostRuntime) -> Result<(), Fail> {
    is_refused(rt.alloc(), &[], 0, BankFault::Users, 2)
}
