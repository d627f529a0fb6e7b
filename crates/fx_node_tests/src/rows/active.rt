//! What is needed while the endpoint is there, and when all is removed.
use crate::benches::active::{Shown, Step};

type Row = (&'static str, Option<Step>, Shown);

pub const ROWS: &[Row] = &[
    (
        "an endpoint and what it needs",
        Some(Step::Come),
        (true, Some(true), 1),
    ),
    (
        "the policy goes, and the profile that is listed",
        Some(Step::Go),
        (false, Some(false), 0),
    ),
    (
        "the endpoint goes",
        Some(Step::NoEndpoint),
        (false, None, 0),
    ),
];
