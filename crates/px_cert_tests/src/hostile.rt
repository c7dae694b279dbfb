//! Texts that mean no good.
use crate::first_bad::first_bad;
use std::rt::HostRuntime;

#[test]
fn number_of_twenty_digits(rt: HostRuntime) {
    assert!(&rt;
        first_bad(
            rt.alloc(),
            b"planex certificate 1\nobjects 18446744073709551616\n"
        ) == 2
    );
    assert!(&rt;
        first_bad(
            rt.alloc(),
            b"planex certificate 1\nobjects 1 18446744073709551617\n"
        ) == 2
    );
}

#[test]
fn line_of_a_megabyte(rt: HostRuntime) {
    let zeros = "0".repeat(rt.alloc(), 1_048_576).expect(&rt, "memory");
    let text = format!(in rt.alloc(); "planex certificate 1\nobjects {zeros}\n").expect(
        &rt, "memory",
    );
    assert!(&rt; first_bad(rt.alloc(), text.as_bytes()) == 2);
    let nines = "9".repeat(rt.alloc(), 1_048_576).expect(&rt, "memory");
    let text = format!(in rt.alloc(); "planex certificate 1\nobjects {nines}\n").expect(
        &rt, "memory",
    );
    assert!(&rt; first_bad(rt.alloc(), text.as_bytes()) == 2);
}

#[test]
fn lines_end_in_a_line_feed(rt: HostRuntime) {
    assert!(&rt; first_bad(rt.alloc(), b"planex certificate 1\r\nobjects 0\r\n") == 1);
    assert!(&rt; first_bad(rt.alloc(), b"") == 1);
    assert!(&rt; first_bad(rt.alloc(), b"planex certificate 1") == 1);
}

#[test]
fn bytes_are_plain(rt: HostRuntime) {
    assert!(&rt; first_bad(rt.alloc(), b"planex certificate 1\nobjects \xe2\x82\x81\n") == 2);
    assert!(&rt; first_bad(rt.alloc(), b"planex certificate 1\nobjects 0\x00\n") == 2);
}
