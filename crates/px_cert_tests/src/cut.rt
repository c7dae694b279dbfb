//! A certificate with all that one may have, cut at each place: want of memory isn't told where it ends early.
use crate::first_bad::first_bad;
use std::rt::HostRuntime;

/// The lines of a certificate with each form of line, of term and of proof.
const LINES: [&str; 16] = [
    "planex certificate 1\n",
    "objects 2 0 1\n",
    "predicates 2 0 1\n",
    "axioms 1\n",
    "axiom 1 3 1 0 0 1 v0 1 0\n",
    "operators 1\n",
    "operator 1 1\n",
    "pre 1 1 v0\n",
    "delete 1 1 $\n",
    "add 1 1 o0\n",
    "table 1 1\n",
    "goal 1 2 0 1 v1\n",
    "steps 1\n",
    "step 0 v0\n",
    "row 1 f 0 0 1 v0\n",
    "row 2 s 0 0 o0 f 1 0 1 o0 a 0 f 1 0 1 o0\n",
];

/// It is bad in the line in which it ends, and in which a byte comes that no certificate has.
#[test]
fn a_cut_certificate_is_bad_where_it_ends(rt: HostRuntime) {
    let alloc = rt.alloc();
    let mut prefix: Vec<u8> = Vec::new(alloc);
    for (place, line) in LINES.iter().enumerate() {
        for byte in line.as_bytes() {
            assert!(&rt; first_bad(alloc, &prefix) == place as u32 + 1);
            prefix.push(b'?').expect(&rt, "memory");
            assert!(&rt; first_bad(alloc, &prefix) == place as u32 + 1);
            prefix.pop();
            prefix.push(*byte).expect(&rt, "memory");
        }
    }
    assert!(&rt; first_bad(alloc, &prefix) == 0);
}
