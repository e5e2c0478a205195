//! What the rules of Orc say of a run's end: whether a token can use a rule, and whether the term has halted. A *token* marks a part of the program's
//! term that runs, in a *slot* of the table of tokens. A *place* is where a journal has led: a term with its tokens, pending calls and cells, at a
//! time. `IsAt` says that the records' journal has led to a place, and `erase` gives the place's term without the marks of its tokens. `P` names the
//! run: `P.listing` is its program, where `code` gives the term of a node, and `P.sites` the table of its sites.

ghost use Rattle.std.specs.Prelude.{◌≡◌, ◌≤◌, ◌↔◌, true, IfSome};
ghost use Rattle.orc_rules.specs.Nodes.{code, definitions};
ghost use Rattle.orc_rules.specs.Idle.{can_move};
ghost use Rattle.orc_rules.specs.Term.{Halted};
ghost use Rattle.orc_rules.specs.Marked.{erase};
ghost use Rattle.orc_rules.specs.Timed.{IsQuiet};
ghost use Rattle.orc_rules.specs.Journal.{Place, moment};
ghost use Rattle.orc_ledger_spec.specs.Records.{context};
ghost use Rattle.orc_ledger_spec.specs.Answers.{IsAt};
ghost use Rattle.orc_ledger_spec.specs.Doing.{term_of, what_of};
ghost use Rattle.orc_ledger_spec.specs.Next.{members, numbers_of};
ghost use Rattle.orc_ledger_spec.specs.Whole.{is_rule};

use crate::inputs::Inputs;
use crate::ledger::Ledger;
use orc_frames::Action;
use orc_graph::Node;
use orc_log::Run;
use orc_rules::limits::MOST_FRAMES;
use orc_tables::{Standing, Token};

impl<P: Run> Ledger<P> {
    // Whether a token uses a rule of Orc next: the token neither waits nor makes a move of marks, which is an entry that uses no rule (`end`, `fork`,
    // `seq` or `other`). The contract speaks of `true` alone.
    fn is_at_rule(&self, inputs: &Inputs<'_, P>, token: &Token) -> bool
        ensures { result ≡ true → is_rule (what_of (code P.listing) (definitions P.listing) self.now token.now) ≡ true }
    {
        // `what` gives the token's action: what the token does next.
        match self.what(inputs, token) {
            Action::Halt | Action::Fork | Action::Seq | Action::Other | Action::Wait(_) => false,
            Action::Prune
            | Action::Def
            | Action::Void
            | Action::Publish(_)
            | Action::Send(_)
            | Action::Bind(_, _)
            | Action::Call => true,
        }
    }

    // The token as it would be on the first part of its term (f of `f | g`, `f >x> g` and `f ; g`): if that part can use a rule, so can the term.
    // None for a term of another form, and for a token on a value.
    fn first_part(&self, inputs: &Inputs<'_, P>, token: Token) -> Option<Token>
        ensures { IfSome result (λ part. can_move (definitions P.listing) (term_of (code P.listing) self.now part) ≡ true → can_move (definitions P.listing) (term_of (code P.listing) self.now token) ≡ true) }
    {
        // A token on a value is at no node: it has no parts.
        let Standing::At(node, scope) = token.standing else {
            return None;
        };
        match inputs.graph.node(node as usize) {
            Node::Par(first, _) | Node::Seq(first, _, _) | Node::Other(first, _) => Some(Token {
                serial: token.serial,
                standing: Standing::At(first, scope),
                step: token.step,
            }),
            _ => None,
        }
    }

    // Whether a token can use a rule now, or could after moves of marks (entries that use no rule) into the first parts of its term. `token` is what
    // a slot holds: in a free slot its serial is 0, and the answer is false.
    fn uses_rule(&self, inputs: &Inputs<'_, P>, token: &Token) -> bool
        ensures there { result ≡ true → 1 ≤ token.now.serial }
        ensures rule { result ≡ true → can_move (definitions P.listing) (term_of (code P.listing) self.now token.now) ≡ true }
    {
        if token.serial == 0 {
            return false;
        }
        let mut inner = *token;
        // Goes inwards to the innermost first part. The bound only makes the loop end; any large number would do. If first parts nest deeper, the
        // answer is false, whatever the term can do.
        for _inwards in 0..MOST_FRAMES {
            match self.first_part(inputs, inner) {
                Some(part) => inner = part,
                None => break,
            }
        }
        self.is_at_rule(inputs, &inner)
    }

    /// Whether some token can use a rule of Orc, if need be after moves of marks (entries that use no rule) alone. If so the run isn't quiet: the
    /// clause says that no place at which the records are is quiet. If not, nothing is promised: the function looks at each token, but of the token's
    /// term only at the first parts (the left sides).
    pub fn can_use_rule(&self, inputs: &Inputs<'_, P>) -> bool
        ensures { result ≡ true → (p : Place) → IsAt P.listing P.sites self.now p → IsQuiet (context P.listing P.sites) (moment p) → ⊥ }
    {
        for token in self.tokens.slots() {
            if self.uses_rule(inputs, token) {
                return true;
            }
        }
        false
    }

    /// Whether the program's own group, number 0, has no members: no token, no pending call and no open side is left. The term has halted then, by
    /// the rules.
    pub fn has_halted(&self) -> bool
        ensures empty { result ≡ true ↔ (members (numbers_of self.now) self.now 0 ≡ 0) }
        ensures halted { result ≡ true → (p : Place) → IsAt P.listing P.sites self.now p → Halted (erase p.marked) }
    {
        // Shows the prover the invariant; nothing runs.
        let _time = &self.time;
        self.is_empty(0)
    }
}
