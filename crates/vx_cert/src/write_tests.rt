//! A certificate that is written.

use crate::{CertBody, Certificate, Pair, write_cert};
use std::test::Fail;
use vx_clock::{DayNo, Expiry, Root};

const LINE: &str =
    "{\"date\":\"2014-10-17\",\"k0\":2000000,\"kind\":\"k0\",\"line\":14,\"pair\":[2000000,0],\"root\":\"SPX\",\"time\":\"08:30\",\"v\":1}\n";

#[test]
fn writes_a_level_certificate(rt: HostRuntime) -> Result<(), Fail> {
    let certificate = Certificate {
        v: 1,
        line: 14,
        time: 510,
        body: CertBody::K0 {
            expiry: Expiry {
                root: Root::Spx,
                date: DayNo(16_360),
            },
            pair: Pair {
                strike: 2_000_000,
                d: 0,
            },
            k0: 2_000_000,
        },
    };
    let mut out = Vec::new(rt.alloc());
    write_cert(rt.alloc(), &certificate, &mut out)?;
    assert_eq!(rt; out.as_slice(), LINE.as_bytes());
    Ok(())
}
