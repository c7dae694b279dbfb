//! A library that is filled to its last place.
use crate::{LibErr, Library};
use px_table::Table;
use px_terms::Sequence;
use std::alloc::Global;
use std::rt::HostRuntime;

/// Returns a table without steps, with `params` parameters.
fn table(alloc: Global, params: u32) -> Result<Table, LibErr> {
    let made = Table::without_sorts(
        alloc,
        params,
        Sequence::from_vec(Vec::new(alloc)),
        Sequence::from_vec(Vec::new(alloc)),
        0,
        Sequence::from_vec(Vec::new(alloc)),
        Sequence::from_vec(Vec::new(alloc)),
    );
    match made {
        Ok(table) => Ok(table),
        Err(_) => Err(LibErr::NoMemory),
    }
}

#[test]
fn thirty_two_tables(rt: HostRuntime) -> Result<(), LibErr> {
    let mut library = Library::new(rt.alloc());
    for name in 0..32u32 {
        library.learn(name, table(rt.alloc(), name)?)?;
    }
    assert!(&rt; library.learn(7, table(rt.alloc(), 7)?) == Err(LibErr::Duplicate));
    assert!(&rt; library.learn(32, table(rt.alloc(), 32)?) == Err(LibErr::Full));
    assert!(&rt; library.tables().len() == 32);
    assert!(&rt; library.find(32).is_none());
    match library.find(7) {
        Some(found) => assert!(&rt; found.params == 7),
        None => assert!(&rt; false),
    }
    Ok(())
}
