//! Words that are taken are read where there is memory, and others aren't.
use crate::{Order, order_of};
use px_base::NoMemory;
use std::alloc::Global;
use std::rt::HostRuntime;

/// Returns whether the words order this.
fn orders(alloc: Global, words: &[&str], order: Option<Order>) -> Result<bool, NoMemory> {
    Ok(order_of(alloc, words)? == order)
}

#[test]
fn words_alone_are_read(rt: HostRuntime) -> Result<(), NoMemory> {
    assert!(&rt; orders(rt.alloc(), &["run"], Some(Order::Run))?);
    assert!(&rt; orders(rt.alloc(), &["check"], Some(Order::Check))?);
    Ok(())
}

#[test]
fn demo_is_read_with_its_numbers(rt: HostRuntime) -> Result<(), NoMemory> {
    let alloc = rt.alloc();
    let least = Some(Order::Demo { rooms: 3, seed: 0 });
    assert!(&rt; orders(alloc, &["demo", "3", "0"], least)?);
    let most = Some(Order::Demo {
        rooms: 12,
        seed: 2_147_483_647,
    });
    assert!(&rt; orders(alloc, &["demo", "0000000012", "2147483647"], most)?);
    Ok(())
}

#[test]
fn other_words_order_nothing(rt: HostRuntime) -> Result<(), NoMemory> {
    let alloc = rt.alloc();
    assert!(&rt; orders(alloc, &["demo", "3", "-1"], None)?);
    assert!(&rt; orders(alloc, &["demo", "3", "00000000000"], None)?);
    assert!(&rt; orders(alloc, &["--", "run"], None)?);
    assert!(&rt; orders(alloc, &["help"], None)?);
    Ok(())
}
