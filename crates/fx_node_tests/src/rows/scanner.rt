//! The policies, profiles and sets after each step, and that the sink is told of a set only as its use begins or ends.
use crate::benches::scanner::{Shown, Step};

type Row = (&'static str, Option<Step>, Shown);

pub const ROWS: &[Row] = &[
    // A set stands while some rule uses it.
    (
        "a policy uses the set",
        Some(Step::Policy(true, false)),
        ([1, 0, 1], 1),
    ),
    (
        "a profile uses it too",
        Some(Step::Profile(true)),
        ([1, 1, 1], 1),
    ),
    ("the policy goes", Some(Step::NoPolicy), ([0, 1, 1], 1)),
    (
        "the policy that is gone goes",
        Some(Step::NoPolicy),
        ([0, 1, 1], 1),
    ),
    (
        "the profile uses it no more",
        Some(Step::Profile(false)),
        ([0, 1, 0], 2),
    ),
    (
        "the profile uses it again",
        Some(Step::Profile(true)),
        ([0, 1, 1], 3),
    ),
    (
        "the profile is missing",
        Some(Step::Missing),
        ([0, 1, 0], 4),
    ),
    ("the profile goes", Some(Step::NoProfile), ([0, 0, 0], 4)),
    (
        "the profile that is gone goes",
        Some(Step::NoProfile),
        ([0, 0, 0], 4),
    ),
    // A set of old and new rules is not told again.
    (
        "a scanner for rules that are replaced",
        None,
        ([0, 0, 0], 0),
    ),
    (
        "two rules use the set",
        Some(Step::Policy(true, true)),
        ([1, 0, 1], 1),
    ),
    (
        "the same two rules",
        Some(Step::Policy(true, true)),
        ([1, 0, 1], 1),
    ),
    (
        "one of them",
        Some(Step::Policy(false, true)),
        ([1, 0, 1], 1),
    ),
    (
        "none of them",
        Some(Step::Policy(false, false)),
        ([1, 0, 0], 2),
    ),
    ("one again", Some(Step::Policy(false, true)), ([1, 0, 1], 3)),
    ("a missing profile", Some(Step::Missing), ([1, 1, 1], 3)),
    ("the last rule goes", Some(Step::NoPolicy), ([0, 1, 0], 4)),
];
