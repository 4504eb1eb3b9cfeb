//! Certificates that are read, and lines that are none.

use crate::{CertBody, CertFault, CertRow, CertRows, Pair, read_cert, write_cert};
use std::test::Fail;
use vx_clock::{DayNo, Expiry, Root};

const LEVEL: &str =
    "{\"date\":\"2014-10-17\",\"k0\":2000000,\"kind\":\"k0\",\"line\":14,\"pair\":[2000000,0],\"root\":\"SPX\",\"time\":\"08:30\",\"v\":1}";

#[test]
fn reads_a_level_certificate(rt: HostRuntime) -> Result<(), Fail> {
    let certificate = read_cert(rt.alloc(), LEVEL.as_bytes())?;
    assert_eq!(rt; certificate.v, 1);
    assert_eq!(rt; certificate.line, 14);
    assert_eq!(rt; certificate.time, 510);
    let expiry = Expiry {
        root: Root::Spx,
        date: DayNo(16_360),
    };
    let pair = Pair {
        strike: 2_000_000,
        d: 0,
    };
    match certificate.body {
        CertBody::K0 {
            expiry: read_expiry,
            pair: read_pair,
            k0,
        } => {
            assert_eq!(rt; read_expiry, expiry);
            assert_eq!(rt; read_pair, pair);
            assert_eq!(rt; k0, 2_000_000);
        }
        _ => return Err(Fail::from("another kind")),
    }
    Ok(())
}

/// Each of these is the line of `LEVEL` with spaces, or with its keys in another order.
#[test]
fn reads_other_spellings(rt: HostRuntime) -> Result<(), Fail> {
    let cases: [&str; 2] = [
        "{\"date\": \"2014-10-17\", \"k0\": 2000000, \"kind\": \"k0\", \"line\": 14, \"pair\": [2000000, 0], \"root\": \"SPX\", \"time\": \"08:30\", \"v\": 1}",
        "{\"v\":1,\"kind\":\"k0\",\"line\":14,\"time\":\"08:30\",\"root\":\"SPX\",\"date\":\"2014-10-17\",\"pair\":[2000000,0],\"k0\":2000000}",
    ];
    for line in cases {
        let certificate = read_cert(rt.alloc(), line.as_bytes())?;
        let mut written = Vec::new(rt.alloc());
        write_cert(rt.alloc(), &certificate, &mut written)?;
        written.pop();
        assert_eq!(rt; written.as_slice(), LEVEL.as_bytes());
    }
    Ok(())
}

#[test]
fn names_the_first_field_at_fault(rt: HostRuntime) {
    let cases: [(&str, CertFault); 12] = [
        ("", CertFault::Syntax),
        ("{", CertFault::Syntax),
        ("[]", CertFault::Field(1)),
        ("{}", CertFault::Field(1)),
        ("{\"v\":3}", CertFault::Field(1)),
        ("{\"v\":1.0}", CertFault::Field(1)),
        ("{\"v\":1}", CertFault::Field(2)),
        ("{\"v\":1,\"kind\":\"k1\"}", CertFault::Field(2)),
        ("{\"v\":1,\"kind\":\"k0\",\"line\":0}", CertFault::Field(3)),
        (
            "{\"v\":1,\"kind\":\"k0\",\"line\":14,\"time\":\"24:00\"}",
            CertFault::Field(4),
        ),
        (
            "{\"v\":1,\"kind\":\"single\",\"line\":14,\"time\":\"08:30\",\"term\":[]}",
            CertFault::Field(5),
        ),
        (
            "{\"v\":1,\"kind\":\"single\",\"line\":14,\"time\":\"08:30\",\"term\":{}}",
            CertFault::Field(501),
        ),
    ];
    for (line, fault) in cases {
        assert_eq!(rt; read_cert(rt.alloc(), line.as_bytes()).err(), Some(fault));
    }
}

#[test]
fn keeps_rows_in_order(rt: HostRuntime) -> Result<(), Fail> {
    let row = CertRow {
        strike: 1_900_000,
        d: 200_000,
        q4: 4_000,
        lo: 1,
        hi: 2,
    };
    let mut rows = CertRows::new(rt.alloc());
    assert_eq!(rt; rows.items().len(), 0);
    assert_eq!(rt; rows.push(row), Ok(()));
    assert_eq!(rt; rows.items().first().copied(), Some(row));
    Ok(())
}
