//! What is left of a sub-run: of a call of a definition that was run by itself. A *token* marks a part of the program's term that runs.

use orc_rules::value::Value;

/// All that is left of a sub-run: a token on the value that the call yields.
#[derive(Clone, Copy)]
pub struct Yield {
    /// The token's mark: the number by which the sub-run's own journal names it, not that of the enclosing run.
    pub mark: u64,
    /// The value that the call yields.
    pub value: Value,
}
