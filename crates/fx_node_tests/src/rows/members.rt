//! Nets that are put in turn, and how many members the set has then.
use crate::benches::members::{Shown, Step};

type Row = (&'static str, Option<Step>, Shown);

pub const ROWS: &[Row] = &[
    ("a set of nothing", Some(Step::Begin), Some(0)),
    ("one address", Some(Step::Nets(&["0.0.0.7/32"])), Some(1)),
    (
        "the address twice, and a net",
        Some(Step::Nets(&["0.0.0.7/32", "0.0.0.7/32", "0.0.0.0/1"])),
        Some(2),
    ),
    (
        "all addresses, as two halves, and one half",
        Some(Step::Nets(&["0.0.0.0/0", "0.0.0.0/1"])),
        Some(2),
    ),
    ("one half", Some(Step::Nets(&["0.0.0.0/1"])), Some(1)),
    ("no net", Some(Step::Nets(&[])), Some(0)),
    ("all goes", Some(Step::End), None),
];
