//! How many tests a put calls for: those of the selectors whose need the labels meet, and none where labels stay.
use crate::benches::label_index::{Shown, Step};

type Row = (&'static str, Option<Step>, Shown);

/// One selector of each kind of need.
const EACH_NEED: &[&str] = &[
    "a == \"1\"",
    "a in {\"1\",\"2\"}",
    "has(b)",
    "has(b) && a == \"2\"",
    "a != \"1\"",
];

// How many of these need nothing that a label lacks is counted by hand.
pub const ROWS: &[Row] = &[
    // An item matches while its parent has the label.
    (
        "one selector",
        Some(Step::Selectors(&["a == \"1\""])),
        (0, &[]),
    ),
    (
        "a parent with its label",
        Some(Step::Parent("a", "1")),
        (0, &[]),
    ),
    (
        "an item inherits it",
        Some(Step::Item(None)),
        (1, &["a == \"1\""]),
    ),
    ("the parent goes", Some(Step::NoParent), (1, &[])),
    // What was put is removed.
    ("an index for what goes", None, (0, &[])),
    (
        "a selector to go",
        Some(Step::Selectors(&["a == \"1\""])),
        (0, &[]),
    ),
    ("a parent", Some(Step::Parent("a", "1")), (0, &[])),
    (
        "an item to go",
        Some(Step::Item(None)),
        (1, &["a == \"1\""]),
    ),
    ("the item goes", Some(Step::NoItem), (1, &[])),
    (
        "the selector goes",
        Some(Step::NoSelector("a == \"1\"")),
        (1, &[]),
    ),
    // A thousand selectors of one label, and one that needs nothing: two tests.
    ("an index for a thousand", None, (0, &[])),
    ("a thousand selectors", Some(Step::Roles), (0, &[])),
    (
        "one that needs nothing",
        Some(Step::Selectors(&["!has(x)"])),
        (0, &[]),
    ),
    (
        "two of a thousand",
        Some(Step::Item(Some(("role", "r5")))),
        (2, &["role == \"r5\"", "!has(x)"]),
    ),
    // A parent whose label changes.
    ("an index for zones", None, (0, &[])),
    (
        "two zones",
        Some(Step::Selectors(&["zone == \"a\"", "zone == \"b\""])),
        (0, &[]),
    ),
    ("an item without labels", Some(Step::Item(None)), (0, &[])),
    (
        "its parent in a zone",
        Some(Step::Parent("zone", "a")),
        (1, &["zone == \"a\""]),
    ),
    (
        "the parent moves",
        Some(Step::Parent("zone", "b")),
        (2, &["zone == \"b\""]),
    ),
    (
        "the parent stays",
        Some(Step::Parent("zone", "b")),
        (2, &["zone == \"b\""]),
    ),
    // As many tests as the labels meet needs, and none where they stay.
    ("an index for a 1", None, (0, &[])),
    (
        "selectors for a 1",
        Some(Step::Selectors(EACH_NEED)),
        (0, &[]),
    ),
    (
        "a 1",
        Some(Step::Item(Some(("a", "1")))),
        (3, &["a == \"1\"", "a in {\"1\", \"2\"}"]),
    ),
    (
        "a 1 again",
        Some(Step::Item(Some(("a", "1")))),
        (3, &["a == \"1\"", "a in {\"1\", \"2\"}"]),
    ),
    ("an index for a 2", None, (0, &[])),
    (
        "selectors for a 2",
        Some(Step::Selectors(EACH_NEED)),
        (0, &[]),
    ),
    (
        "a 2",
        Some(Step::Item(Some(("a", "2")))),
        (3, &["a in {\"1\", \"2\"}", "a != \"1\""]),
    ),
    (
        "a 2 again",
        Some(Step::Item(Some(("a", "2")))),
        (3, &["a in {\"1\", \"2\"}", "a != \"1\""]),
    ),
    ("an index for a 3", None, (0, &[])),
    (
        "selectors for a 3",
        Some(Step::Selectors(EACH_NEED)),
        (0, &[]),
    ),
    (
        "a 3",
        Some(Step::Item(Some(("a", "3")))),
        (1, &["a != \"1\""]),
    ),
    (
        "a 3 again",
        Some(Step::Item(Some(("a", "3")))),
        (1, &["a != \"1\""]),
    ),
    ("an index for b 1", None, (0, &[])),
    (
        "selectors for b 1",
        Some(Step::Selectors(EACH_NEED)),
        (0, &[]),
    ),
    (
        "b 1",
        Some(Step::Item(Some(("b", "1")))),
        (2, &["has(b)", "a != \"1\""]),
    ),
    (
        "b 1 again",
        Some(Step::Item(Some(("b", "1")))),
        (2, &["has(b)", "a != \"1\""]),
    ),
    ("an index for c 1", None, (0, &[])),
    (
        "selectors for c 1",
        Some(Step::Selectors(EACH_NEED)),
        (0, &[]),
    ),
    (
        "c 1",
        Some(Step::Item(Some(("c", "1")))),
        (1, &["a != \"1\""]),
    ),
    (
        "c 1 again",
        Some(Step::Item(Some(("c", "1")))),
        (1, &["a != \"1\""]),
    ),
];
