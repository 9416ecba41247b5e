// Findings: what a report lists, and what checking a model answers.
#![tactic(auto)]

// The total of the full list, and how many of its records were kept.
#[derive(Clone, Copy, Debug, PartialEq, Eq)]
pub struct Totals {
    pub total: u64,
    pub kept: u64,
}
