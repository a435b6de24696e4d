//! Where a name or a pointer leads.

use bcs_decode_parts::PathStep;
use bcs_decode_parts::here::Reached;

/// Where a name or a pointer leads in a value.
#[derive(Drop)]
pub struct Led<'r, 'a> {
    /// The steps of PATH to the same part. If the name or pointer leads nowhere, neither do these steps.
    pub path: Vec<PathStep>,
    /// If it leads nowhere, its first step that does.
    pub nowhere: Option<DeadEnd<'r, 'a>>,
}

/// The first step of a name or a pointer that leads nowhere.
#[derive(Drop)]
pub struct DeadEnd<'r, 'a> {
    /// The number of the step, from 1.
    pub number: u64,
    /// Its text.
    pub step: String,
    /// Where the steps before it lead.
    pub at: Reached<'r, 'a>,
    /// Whether the pointer is in an entry of the map there, `[key, value]`.
    pub in_entry: bool,
}
