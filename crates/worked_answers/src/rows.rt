//! Texts with all that is found in them by a certificate and without one, written out by hand: no program finds anything by a certificate.

use super::found::finds;
use std::test::Fail;

/// Each rule leads to the other end of what is left, so that of sweeps in either order each finds one more.
const TO_AND_FRO: &str =
    "a = x\nb = w\nc = v\nd = u\ne = t\nf = s\ng = r\nh = q\ni = p\nj = o\nk = n\nl = m\nm = \"x\"\nn = l\no = k\np = j\nq = i\nr = h\ns = g\nt = f\nu = e\nv = d\nw = c\nx = b\nz = z";

#[test]
fn with_a_certificate_and_without(rt: HostRuntime) -> Result<(), Fail> {
    assert!(rt;
        finds(
            rt.alloc(),
            "a = b\nA = \"x\" / c\nb = a b\nd =/ d",
            "0:0-0:1 2 unproductive rule a generates nothing\n1:0-1:1 1 duplicate rule A is already defined\n1:10-1:11 1 undefined undefined rule c\n\
             2:0-2:1 2 unproductive rule b generates nothing\n3:0-3:1 2 no-base no earlier definition of d\n\
             3:0-3:1 2 unproductive rule d generates nothing\n"
        )?
    );
    assert!(rt;
        finds(
            rt.alloc(),
            "a = 3*2\"x\" / %x39-30",
            "0:0-0:1 2 unproductive rule a generates nothing\n0:4-0:7 2 empty-repeat repeat with minimum above maximum\n0:13-0:20 2 empty-range range with low above high\n"
        )?
    );
    // Of what leads to a faulty block not all is known.
    assert!(rt;
        finds(
            rt.alloc(),
            "a = b\nb = c\nc = ?",
            "2:4-2:5 1 syntax bad character\n"
        )?
    );
    assert!(rt;
        finds(
            rt.alloc(),
            TO_AND_FRO,
            "24:0-24:1 2 unproductive rule z generates nothing\n"
        )?
    );
    Ok(())
}
