//! What the calls of a ledger read and never change: the program and the answers.

ghost use Rattle.std.specs.Prelude.{◌≡◌};

use orc_graph::Graph;
use orc_log::Run;
use orc_rules::answers::Answers;
use std::marker::PhantomData;

/// The nodes of a run's program, and the table that answers its calls. That they are those of the run `P` is a ghost fact (`its_graph`, `its_sites`)
/// that goes with them.
#[derive(Drop)]
pub struct Inputs<'a, P: Run> {
    /// The nodes of the program, and the lists of operands of its calls.
    pub graph: &'a Graph,
    /// What each site answers, and after how much time.
    pub answers: &'a Answers,
    // Names the run, for contracts alone.
    run: PhantomData<P>,
    pub ghost its_graph: { graph.now ≡ P.listing },
    pub ghost its_sites: { answers.now.sites ≡ P.sites },
}

impl<'a, P: Run> Inputs<'a, P> {
    /// The graph and the table of a run. The caller proves that both are those of the run `P` (the clauses `graph` and `answers`).
    #[inline(always)]
    pub fn new(graph: &'a Graph, answers: &'a Answers) -> Inputs<'a, P>
        requires graph { graph.now ≡ P.listing }
        requires answers { answers.now.sites ≡ P.sites }
        ensures graph { result.graph.now ≡ graph.now }
        ensures answers { result.answers.now ≡ answers.now }
    {
        Inputs {
            graph,
            answers,
            run: PhantomData,
        }
    }
}
