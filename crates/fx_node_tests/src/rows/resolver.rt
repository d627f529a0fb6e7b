//! An endpoint's lists after each step, and that the sink is told only where they change.
use crate::benches::resolver::{Shown, Step};

type Row = (&'static str, Option<Step>, Shown);

pub const ROWS: &[Row] = &[
    // Policies are listed in order where they apply.
    ("a policy is to apply", Some(Step::Pair(0)), ("", 0)),
    (
        "an endpoint",
        Some(Step::Endpoint("cali1")),
        ("cali1 |;", 1),
    ),
    (
        "the policy",
        Some(Step::On(0, "t", None)),
        ("cali1 t(0)|t(0);", 2),
    ),
    (
        "another is to apply",
        Some(Step::Pair(2)),
        ("cali1 t(0)|t(0);", 2),
    ),
    (
        "the other one",
        Some(Step::On(2, "t", None)),
        ("cali1 t(0,2)|t(0,2);", 3),
    ),
    (
        "a policy that doesn't apply",
        Some(Step::On(1, "t", None)),
        ("cali1 t(0,2)|t(0,2);", 3),
    ),
    (
        "it applies",
        Some(Step::Pair(1)),
        ("cali1 t(0,1,2)|t(0,1,2);", 4),
    ),
    (
        "the last gets an order",
        Some(Step::On(2, "t", Some(9))),
        ("cali1 t(2,0,1)|t(2,0,1);", 5),
    ),
    (
        "a lower order that moves nothing",
        Some(Step::On(2, "t", Some(8))),
        ("cali1 t(2,0,1)|t(2,0,1);", 5),
    ),
    // Tiers are in order.
    ("a resolver for tiers", None, ("", 0)),
    (
        "an endpoint for tiers",
        Some(Step::Endpoint("cali1")),
        ("cali1 |;", 1),
    ),
    ("one is to apply", Some(Step::Pair(0)), ("cali1 |;", 1)),
    ("two are to apply", Some(Step::Pair(1)), ("cali1 |;", 1)),
    (
        "a policy in a tier",
        Some(Step::On(0, "s", None)),
        ("cali1 s(0)|s(0);", 2),
    ),
    (
        "a policy in another tier",
        Some(Step::On(1, "t", None)),
        ("cali1 s(0)t(1)|s(0)t(1);", 3),
    ),
    (
        "that tier gets an order",
        Some(Step::Tier("t", Some(7))),
        ("cali1 t(1)s(0)|t(1)s(0);", 4),
    ),
    (
        "a lower one that moves nothing",
        Some(Step::Tier("t", Some(6))),
        ("cali1 t(1)s(0)|t(1)s(0);", 4),
    ),
    (
        "both tiers at one order",
        Some(Step::Tier("s", Some(6))),
        ("cali1 s(0)t(1)|s(0)t(1);", 5),
    ),
    (
        "a tier goes",
        Some(Step::NoTier("s")),
        ("cali1 t(1)s(0)|t(1)s(0);", 6),
    ),
    (
        "a tier that wasn't there goes",
        Some(Step::NoTier("u")),
        ("cali1 t(1)s(0)|t(1)s(0);", 6),
    ),
    // Tiers pass at their ends. A change of what a tier does at its end alone tells the endpoints in whose lists it
    // stands, and no other.
    ("a resolver for ends", None, ("", 0)),
    (
        "an endpoint for ends",
        Some(Step::Endpoint("cali1")),
        ("cali1 |;", 1),
    ),
    ("one applies", Some(Step::Pair(0)), ("cali1 |;", 1)),
    (
        "its tier isn't defined",
        Some(Step::On(0, "s", None)),
        ("cali1 s(0)|s(0);", 2),
    ),
    (
        "a tier that isn't listed passes",
        Some(Step::PassingTier("t", None)),
        ("cali1 s(0)|s(0);", 2),
    ),
    (
        "its tier passes",
        Some(Step::PassingTier("s", None)),
        ("cali1 s/pass(0)|s/pass(0);", 3),
    ),
    (
        "and gets an order",
        Some(Step::PassingTier("s", Some(7))),
        ("cali1 s/pass(0)|s/pass(0);", 3),
    ),
    (
        "it passes no more",
        Some(Step::Tier("s", Some(7))),
        ("cali1 s(0)|s(0);", 4),
    ),
    (
        "it passes again",
        Some(Step::PassingTier("s", Some(7))),
        ("cali1 s/pass(0)|s/pass(0);", 5),
    ),
    (
        "it is defined no more",
        Some(Step::NoTier("s")),
        ("cali1 s(0)|s(0);", 6),
    ),
    // What goes is listed no more.
    ("a resolver for what goes", None, ("", 0)),
    ("the first is to apply", Some(Step::Pair(0)), ("", 0)),
    ("the second is to apply", Some(Step::Pair(1)), ("", 0)),
    (
        "the first without an endpoint",
        Some(Step::On(0, "t", None)),
        ("", 0),
    ),
    (
        "the second without an endpoint",
        Some(Step::On(1, "t", None)),
        ("", 0),
    ),
    (
        "the endpoint of both",
        Some(Step::Endpoint("cali1")),
        ("cali1 t(0,1)|t(0,1);", 1),
    ),
    (
        "the second for packets to it only",
        Some(Step::ToItOnly(1, "t")),
        ("cali1 t(0,1)|t(0);", 2),
    ),
    (
        "the second goes",
        Some(Step::Off(1)),
        ("cali1 t(0)|t(0);", 3),
    ),
    (
        "another interface",
        Some(Step::Endpoint("cali2")),
        ("cali2 t(0)|t(0);", 4),
    ),
    (
        "the same interface",
        Some(Step::Endpoint("cali2")),
        ("cali2 t(0)|t(0);", 4),
    ),
    (
        "the first applies no more",
        Some(Step::Pair(0)),
        ("cali2 |;", 5),
    ),
    ("the endpoint goes", Some(Step::NoEndpoint), ("", 5)),
];
