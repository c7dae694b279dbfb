//! Names of each kind, and texts that are names or aren't.
use crate::{Kind, NameErr, Names, is_name, split_first, starts_name};
use std::rt::HostRuntime;

#[test]
fn names_are_numbered_within_their_kind(rt: HostRuntime) {
    let mut names = Names::new(rt.alloc()).expect(&rt, "ample memory");
    assert!(&rt; names.declare(Kind::Object, "ROBOT") == Ok(0));
    assert!(&rt; names.declare(Kind::Object, "室_1") == Ok(1));
    assert!(&rt; names.declare(Kind::Operator, "ROBOT") == Ok(0));
    assert!(&rt; names.declare(Kind::Object, "ROBOT") == Err(NameErr::Duplicate));
    assert!(&rt; names.declare(Kind::Object, "1st") == Err(NameErr::BadName));
    assert!(&rt; names.find(Kind::Object, "室_1") == Some(1));
    assert!(&rt; names.find(Kind::Operator, "室_1").is_none());
    assert!(&rt; names.text(Kind::Object, 1) == "室_1");
    assert!(&rt; names.count(Kind::Object) == 2);
    assert!(&rt; names.count(Kind::Result) == 0);
}

#[test]
fn a_kind_is_full_at_its_limit(rt: HostRuntime) {
    let mut names = Names::new(rt.alloc()).expect(&rt, "ample memory");
    for number in 0..Kind::Result.limit() {
        let name = format!(in rt.alloc(); "é{number}").expect(&rt, "ample memory");
        assert!(&rt; names.declare(Kind::Result, name.as_str()) == Ok(number));
    }
    assert!(&rt; names.declare(Kind::Result, "another") == Err(NameErr::Full));
    assert!(&rt; names.declare(Kind::Result, "é7") == Err(NameErr::Duplicate));
    assert!(&rt; names.declare(Kind::Predicate, "another") == Ok(0));
}

#[test]
fn letters_of_any_script_make_names(rt: HostRuntime) {
    assert!(&rt; is_name("Ärger_2"));
    assert!(&rt; is_name("_"));
    assert!(&rt; !is_name(""));
    assert!(&rt; !is_name("a-b"));
    assert!(&rt; !is_name("2a"));
    assert!(&rt; starts_name('ß'));
    assert!(&rt; !starts_name('?'));
    match split_first("日本") {
        Some((first, rest)) => assert!(&rt; first == '日' && rest == "本"),
        None => assert!(&rt; false),
    }
}
