//! Runs of `check` with certificates of the level: the sample one, one for each test that it can fail, and
//! levels of the other root, of version 2 and where call and put differ.

use crate::certificates::{Changed, expect_answers};
use crate::fixtures::{
    DECLARED, EARLIER, END, FEED, LEVEL, LEVEL_OUT, LISTED, QUOTED, Row, TICK, TWO_EXPIRIES,
    expect_row_by_pieces,
};
use std::process::Abort;
use std::test::Fail;
use vx_cli::Exit;

// Certificates of the level over the sample feed.
const LEVELS: [Row; 8] = [
    Row {
        feed: &[DECLARED, LISTED, QUOTED, TICK, END],
        certs: &[LEVEL],
        out: LEVEL_OUT,
        exit: Exit::Done,
        said: "",
    },
    Row {
        feed: &[DECLARED, LISTED, QUOTED, TICK, END],
        certs: &[
            "{\"date\":\"2014-10-17\",\"k0\":1900000,\"kind\":\"k0\",\"line\":14,\"pair\":[2000000,0],\"root\":\"SPX\",\"time\":\"08:30\",\"v\":1}\n",
        ],
        out: "NO,1,A9\nEND,1,0,1\n",
        exit: Exit::SaidNo { count: 1 },
        said: "",
    },
    Row {
        feed: &[DECLARED, LISTED, QUOTED, TICK, END],
        certs: &[
            "{\"date\":\"2014-10-17\",\"k0\":2000000,\"kind\":\"k0\",\"line\":14,\"pair\":[2000000,1],\"root\":\"SPX\",\"time\":\"08:30\",\"v\":1}\n",
        ],
        out: "NO,1,A7\nEND,1,0,1\n",
        exit: Exit::SaidNo { count: 1 },
        said: "",
    },
    Row {
        feed: &[DECLARED, LISTED, QUOTED, TICK, END],
        certs: &[EARLIER],
        out: "NO,1,A1\nEND,1,0,1\n",
        exit: Exit::SaidNo { count: 1 },
        said: "",
    },
    Row {
        feed: &[DECLARED, LISTED, QUOTED, TICK, END],
        certs: &[
            "{\"date\":\"2014-10-17\",\"k0\":2000000,\"kind\":\"k0\",\"line\":14,\"pair\":[2000000,0],\"root\":\"SPX\",\"time\":\"08:31\",\"v\":1}\n",
        ],
        out: "NO,1,A1\nEND,1,0,1\n",
        exit: Exit::SaidNo { count: 1 },
        said: "",
    },
    Row {
        feed: &[DECLARED, LISTED, QUOTED, TICK, END],
        certs: &[
            "{\"date\":\"2014-10-24\",\"k0\":2000000,\"kind\":\"k0\",\"line\":14,\"pair\":[2000000,0],\"root\":\"SPX\",\"time\":\"08:30\",\"v\":1}\n",
        ],
        out: "NO,1,A2\nEND,1,0,1\n",
        exit: Exit::SaidNo { count: 1 },
        said: "",
    },
    Row {
        feed: &[DECLARED, LISTED, QUOTED, TICK, END],
        certs: &[
            "{\"date\":\"2014-10-17\",\"k0\":2000000,\"kind\":\"k0\",\"line\":16,\"pair\":[2000000,0],\"root\":\"SPX\",\"time\":\"08:30\",\"v\":1}\n",
        ],
        out: "NO,1,A1\nEND,1,0,1\n",
        exit: Exit::SaidNo { count: 1 },
        said: "",
    },
    Row {
        feed: &[DECLARED, LISTED, QUOTED, TICK, END],
        certs: &[LEVEL, LEVEL, LEVEL],
        out: "YES,1,08:30,2000.000\nYES,2,08:30,2000.000\nYES,3,08:30,2000.000\nEND,3,3,0\n",
        exit: Exit::Done,
        said: "",
    },
];

#[test]
fn level_certificates_get_their_answers(rt: HostRuntime) -> Result<(), Fail> {
    for row in LEVELS.iter() {
        expect_row_by_pieces(&rt, rt.alloc(), row)?;
    }
    Ok(())
}

// The certificate of the level with changes, over the sample feed.
const CHANGED: [Changed; 6] = [
    Changed {
        changes: &[("\"v\":1", "\"v\":2")],
        out: "YES,1,08:30,2000.000",
    },
    Changed {
        changes: &[("\"v\":1", "\"v\":3")],
        out: "NO,1,field-1",
    },
    Changed {
        changes: &[
            (
                "{\"date\":\"2014-10-17\",",
                "{ \"v\": 1 , \"root\" : \"SPX\",",
            ),
            (",\"root\":\"SPX\"", "  , \"date\" : \"2014-10-17\""),
            (",\"v\":1}", " }"),
        ],
        out: "YES,1,08:30,2000.000",
    },
    Changed {
        changes: &[("\"root\":\"SPX\"", "\"root\":\"SPXW\"")],
        out: "NO,1,A2",
    },
    Changed {
        changes: &[("{\"date\"", "{\"note\":1,\"date\"")],
        out: "NO,1,field-0",
    },
    Changed {
        changes: &[("[2000000,0]", "[2000000,0,0]")],
        out: "NO,1,field-7",
    },
];

// The same over the feed of two expiries.
const OF_SPXW: [Changed; 2] = [
    Changed {
        changes: &[
            ("2014-10-17", "2014-10-24"),
            ("\"line\":14", "\"line\":26"),
            ("\"SPX\"", "\"SPXW\""),
        ],
        out: "YES,1,08:30,2000.000",
    },
    Changed {
        changes: &[("\"line\":14", "\"line\":26"), ("\"SPX\"", "\"SPXW\"")],
        out: "NO,1,A2",
    },
];

// The quotes at 2000 differ by a point: the forward is 2001, or 1999 where the put is dearer.
const DEARER_CALL: [&str; 5] = [
    DECLARED,
    LISTED,
    QUOTED,
    "Q,08:30,SPX   141017C02000000,51.00,51.00\n",
    "V,08:30\nEND,14\n",
];

const DEARER_PUT: [&str; 5] = [
    DECLARED,
    LISTED,
    QUOTED,
    "Q,08:30,SPX   141017P02000000,51.00,51.00\n",
    "V,08:30\nEND,14\n",
];

const AT_2001: [Changed; 2] = [
    Changed {
        changes: &[
            ("\"line\":14", "\"line\":15"),
            ("[2000000,0]", "[2000000,200]"),
        ],
        out: "YES,1,08:30,2000.000",
    },
    Changed {
        changes: &[("\"line\":14", "\"line\":15")],
        out: "NO,1,A7",
    },
];

const AT_1999: [Changed; 2] = [
    Changed {
        changes: &[
            ("\"k0\":2000000", "\"k0\":1900000"),
            ("\"line\":14", "\"line\":15"),
            ("[2000000,0]", "[2000000,-200]"),
        ],
        out: "YES,1,08:30,1900.000",
    },
    Changed {
        changes: &[
            ("\"line\":14", "\"line\":15"),
            ("[2000000,0]", "[2000000,-200]"),
        ],
        out: "NO,1,A9",
    },
];

#[test]
fn changed_levels_get_their_answers(rt: HostRuntime) -> Result<(), Fail> {
    expect_answers(&rt, rt.alloc(), &FEED, &[LEVEL], &CHANGED)?;
    expect_answers(&rt, rt.alloc(), &TWO_EXPIRIES, &[LEVEL], &OF_SPXW)?;
    expect_answers(&rt, rt.alloc(), &DEARER_CALL, &[LEVEL], &AT_2001)?;
    expect_answers(&rt, rt.alloc(), &DEARER_PUT, &[LEVEL], &AT_1999)
}
