//! Runs of `check` with certificates of the single figure, the index and the opening: the sample ones as
//! they are and in version 2, and one for each way to be refused.

use crate::certificates::{Changed, INDEX, OPENING, SINGLE, expect_answers};
use crate::fixtures::{FEED, OPENING_FEED, TWO_EXPIRIES};
use std::process::Abort;
use std::test::Fail;

// The sample certificate of the single figure with one change.
const SINGLES: [Changed; 39] = [
    Changed {
        changes: &[],
        out: "YES,1,08:30,20.66",
    },
    // The forms and ranges of the fields.
    Changed {
        changes: &[("\"v\":1", "\"v\":0")],
        out: "NO,1,field-1",
    },
    Changed {
        changes: &[("\"line\":14", "\"line\":0")],
        out: "NO,1,field-3",
    },
    Changed {
        changes: &[("\"minutes\":43200", "\"minutes\":\"43200\"")],
        out: "NO,1,field-503",
    },
    Changed {
        changes: &[("\"rate\":0", "\"rate\":25000001")],
        out: "NO,1,field-504",
    },
    Changed {
        changes: &[("\"rate\":0", "\"rate\":-5000001")],
        out: "NO,1,field-504",
    },
    Changed {
        changes: &[("\"0\",\"0\"],[", "\"0\"],[")],
        out: "NO,1,field-505",
    },
    Changed {
        changes: &[("\"rows\":[[", "\"rows\":[],\"s\":[[")],
        out: "NO,1,field-511",
    },
    Changed {
        changes: &[("4000,\"319368837841231\",", "4000,")],
        out: "NO,1,field-511",
    },
    Changed {
        changes: &[("\"term\":{", "\"term\":{\"note\":1,")],
        out: "NO,1,field-500",
    },
    Changed {
        changes: &[("{\"cents\"", "{\"note\":1,\"cents\"")],
        out: "NO,1,field-0",
    },
    Changed {
        changes: &[
            (
                "\"49200884714673446\"",
                "\"100000000000000000000000000000000000000\"",
            ),
            (
                "\"49200884714673520\"",
                "\"100000000000000000000000000000000000000\"",
            ),
        ],
        out: "NO,1,field-6",
    },
    // The tick.
    Changed {
        changes: &[("\"line\":14", "\"line\":13")],
        out: "NO,1,A1",
    },
    Changed {
        changes: &[("\"line\":14", "\"line\":15")],
        out: "NO,1,A1",
    },
    Changed {
        changes: &[("\"line\":14", "\"line\":16")],
        out: "NO,1,A1",
    },
    Changed {
        changes: &[("\"root\":\"SPX\"", "\"root\":\"SPXW\"")],
        out: "NO,1,A2",
    },
    Changed {
        changes: &[("\"minutes\":43200", "\"minutes\":43201")],
        out: "NO,1,A3",
    },
    Changed {
        changes: &[("\"rate\":0", "\"rate\":1")],
        out: "NO,1,A4",
    },
    Changed {
        changes: &[("\"rate\":0", "\"rate\":-1")],
        out: "NO,1,A4",
    },
    // The exponential.
    Changed {
        changes: &[("\"v\":1", "\"v\":2")],
        out: "NO,1,A5",
    },
    Changed {
        changes: &[
            ("[[\"1152921504606846976\"", "[[\"1152921504606846977\""),
            ("],[\"1152921504606846976\"", "],[\"1152921504606846977\""),
        ],
        out: "NO,1,A5",
    },
    Changed {
        changes: &[(
            "\"e\":[\"1152921504606846976\"",
            "\"e\":[\"1152921504606846977\"",
        )],
        out: "NO,1,A6",
    },
    // The level.
    Changed {
        changes: &[("[2000000,0]", "[1900000,0]")],
        out: "NO,1,A7",
    },
    Changed {
        changes: &[(
            "\"f\":[\"2305843009213693952000000\"",
            "\"f\":[\"2305843009213693952000001\"",
        )],
        out: "NO,1,A8",
    },
    Changed {
        changes: &[("\"k0\":2000000", "\"k0\":1900000")],
        out: "NO,1,A9",
    },
    Changed {
        changes: &[("\"g\":[\"0\"", "\"g\":[\"-1\"")],
        out: "NO,1,A10",
    },
    // The strip.
    Changed {
        changes: &[
            (
                "[1900000,200000,4000,\"319368837841231\",\"319368837841232\"]",
                "[]",
            ),
            (
                "[2100000,200000,4000,\"261433447756654\",\"261433447756655\"]",
                "[1900000,200000,4000,\"319368837841231\",\"319368837841232\"]",
            ),
            (
                "[]",
                "[2100000,200000,4000,\"261433447756654\",\"261433447756655\"]",
            ),
        ],
        out: "NO,1,A11",
    },
    Changed {
        changes: &[("1900000,200000,4000", "1900000,200000,4001")],
        out: "NO,1,A11",
    },
    Changed {
        changes: &[("\"319368837841232\"", "\"319368837841231\"")],
        out: "NO,1,A12",
    },
    Changed {
        changes: &[("\"2021954166356443\"", "\"2021954166356444\"")],
        out: "NO,1,A13",
    },
    Changed {
        changes: &[
            (
                "\"4043908332712886\"",
                "\"-85070591730234615865843651857942052863\"",
            ),
            (
                "\"4043908332712892\"",
                "\"-85070591730234615865843651857942052863\"",
            ),
        ],
        out: "NO,1,A14",
    },
    // The figure.
    Changed {
        changes: &[("\"49200884714673446\"", "\"49200884714673447\"")],
        out: "NO,1,A15",
    },
    Changed {
        changes: &[("\"20657919\",\"20657920\"", "\"20657920\",\"20657919\"")],
        out: "NO,1,A16",
    },
    Changed {
        changes: &[("\"cents\":2066", "\"cents\":2065")],
        out: "NO,1,A16",
    },
    Changed {
        changes: &[("\"20657919\",\"20657920\"", "\"20657819\",\"20658020\"")],
        out: "NO,1,A16",
    },
    Changed {
        changes: &[("\"20657919\",\"20657920\"", "\"20657869\",\"20657970\"")],
        out: "YES,1,08:30,20.66",
    },
    // What is no matter: blanks, and the order of keys.
    Changed {
        changes: &[
            ("{\"cents\":2066,", "{ \"time\" : \"08:30\",\"v\":1 , "),
            (",\"time\":\"08:30\",\"v\":1,\"x\"", ",\"cents\":2066,\"x\""),
        ],
        out: "YES,1,08:30,20.66",
    },
    Changed {
        changes: &VERSION_2,
        out: "YES,1,08:30,20.66",
    },
    Changed {
        changes: &[("\"time\":\"08:30\"", "\"time\":\"08:31\"")],
        out: "NO,1,A1",
    },
];

// The numbers of the sample certificate in version 2.
const VERSION_2: [(&str, &str); 19] = [
    ("\"v\":1", "\"v\":2"),
    ("1152921504606846976", "4611686018427387904"),
    ("1152921504606846976", "4611686018427387904"),
    ("1152921504606846976", "4611686018427387904"),
    ("1152921504606846976", "4611686018427387904"),
    ("2305843009213693952000000", "9223372036854775808000000"),
    ("2305843009213693952000000", "9223372036854775808000000"),
    ("319368837841231", "1277475351364927"),
    ("319368837841232", "1277475351364928"),
    ("1441151880758558", "5764607523034234"),
    ("1441151880758559", "5764607523034235"),
    ("261433447756654", "1045733791026618"),
    ("261433447756655", "1045733791026619"),
    ("2021954166356443", "8087816665425779"),
    ("2021954166356446", "8087816665425782"),
    ("4043908332712886", "16175633330851558"),
    ("4043908332712892", "16175633330851564"),
    ("49200884714673446", "196803538858693955"),
    ("49200884714673520", "196803538858694029"),
];

// The certificate of the index with one change; a test must hold for both terms before the next is made.
const INDEXES: [Changed; 12] = [
    Changed {
        changes: &[],
        out: "YES,1,08:30,20.66",
    },
    Changed {
        changes: &[("\"days\":30", "\"days\":1001")],
        out: "NO,1,field-5",
    },
    Changed {
        changes: &[("\"near\":{", "\"near\":{\"note\":1,")],
        out: "NO,1,field-600",
    },
    Changed {
        changes: &[("\"next\":{", "\"next\":{\"note\":1,")],
        out: "NO,1,field-700",
    },
    Changed {
        changes: &[("\"days\":30", "\"days\":29")],
        out: "NO,1,A1",
    },
    Changed {
        changes: &[("\"line\":26", "\"line\":25")],
        out: "NO,1,A1",
    },
    Changed {
        changes: &[
            ("\"near\"", "\"other\""),
            ("\"next\"", "\"near\""),
            ("\"other\"", "\"next\""),
        ],
        out: "NO,1,A2",
    },
    Changed {
        changes: &[("\"minutes\":53670", "\"minutes\":53671")],
        out: "NO,1,A3",
    },
    Changed {
        changes: &[(
            "\"minutes\":53670,\"pair\":[2000000,0],\"rate\":0",
            "\"minutes\":53670,\"pair\":[2000000,0],\"rate\":1",
        )],
        out: "NO,1,A4",
    },
    Changed {
        changes: &[(
            "\"k0\":2000000,\"minutes\":53670",
            "\"k0\":1900000,\"minutes\":53670",
        )],
        out: "NO,1,A9",
    },
    Changed {
        changes: &[
            ("\"319368837841232\"", "\"319368837841231\""),
            (
                "\"SPXW\",\"rows\":[[1900000,200000,4000",
                "\"SPXW\",\"rows\":[[1900000,200000,4001",
            ),
        ],
        out: "NO,1,A11",
    },
    Changed {
        changes: &[("\"49200884714673520\"", "\"49200884714673519\"")],
        out: "NO,1,A15",
    },
];

// The certificate of the opening with one change.
const OPENINGS: [Changed; 8] = [
    Changed {
        changes: &[],
        out: "YES,1,08:30,20.66",
    },
    Changed {
        changes: &[("\"line\":15", "\"line\":14")],
        out: "NO,1,A1",
    },
    Changed {
        changes: &[("\"kind\":\"soq\"", "\"kind\":\"single\"")],
        out: "NO,1,A1",
    },
    Changed {
        changes: &[("\"root\":\"SPX\"", "\"root\":\"SPXW\"")],
        out: "NO,1,A2",
    },
    Changed {
        changes: &[("\"minutes\":43200", "\"minutes\":43201")],
        out: "NO,1,A3",
    },
    Changed {
        changes: &[("\"rate\":0", "\"rate\":1")],
        out: "NO,1,A4",
    },
    Changed {
        changes: &VERSION_2,
        out: "YES,1,08:30,20.66",
    },
    // The later trade of the put at 1900 has no part in the opening.
    Changed {
        changes: &[("1900000,200000,4000", "1900000,200000,4800")],
        out: "NO,1,A11",
    },
];

#[test]
fn single_figures_get_their_answers(rt: HostRuntime) -> Result<(), Fail> {
    expect_answers(&rt, rt.alloc(), &FEED, &SINGLE, &SINGLES)
}

#[test]
fn indexes_get_their_answers(rt: HostRuntime) -> Result<(), Fail> {
    expect_answers(&rt, rt.alloc(), &TWO_EXPIRIES, &INDEX, &INDEXES)
}

#[test]
fn openings_get_their_answers(rt: HostRuntime) -> Result<(), Fail> {
    expect_answers(&rt, rt.alloc(), &OPENING_FEED, &OPENING, &OPENINGS)
}
