//! Publications that a `>x>` takes: the token goes on at a copy of the right side. Its group is that in which the `>x>` stands, perhaps another one.
//! A *group* is what runs in one right side of a `<x<`, one left side of a `;`, or the whole program; a *pass* stands for a token in its group, and
//! an *idle* one names no group. `found` has what the book has found of the token: its record in the ledger (`its`), what it does next, its group and
//! how many tokens of that are *out*, that is, with workers. `births` has passes that the worker lends, `groups` the words, which are atomic counters
//! of passes. `P` names the run and its table of words, for contracts alone. In contracts `SpendsIdle` says that no idle pass is used and the new
//! token has the old one's pass, or that the last idle one is used and the old token's pass is added to `out.leave`; `HaveCome` says which passes the
//! tokens have that are added to `out.born`. A pass that is *left* is counted no more.

ghost use Rattle.std.specs.Prelude.{◌≡◌, ◌≤◌, ◌+◌, ◌++◌, ◌∷◌, [], ℕ, MatchResult, List, vec_len, vec_capacity, IfErr, OnOk};
ghost use Rattle.orc_rules.specs.Nodes.{code, definitions};
ghost use Rattle.orc_ledger_spec.specs.Doing.{what_of};
ghost use Rattle.orc_book.specs.Refusals.{HasFound, IsRefusedStep};
ghost use Rattle.orc_tables.specs.Steps.{group_at};
ghost use Rattle.orc_tables.specs.Tokens.{IsHeld};
ghost use Rattle.orc_word.specs.declared.view.View.{View};
ghost use Rattle.orc_book.specs.Held.{KeepsWords, HasStayed, AreBorn};
ghost use Rattle.orc_book.specs.Feeding.{IsFedBy};
ghost use Rattle.orc_book.specs.Stepping.{HasStepped, HaveCome, AreLeft, SpendsIdle};

use crate::book::Book;
use crate::lookup::Found;
use crate::out::{Births, StepOut};
use crate::post::{enter_at, out_in, set_out};
use crate::token::{BookFault, Refused, Token, fault_of};
use orc_ledger::{Action, Taker, stands};
use orc_log::Run;
use orc_rules::value::Value;
use orc_tables::Token as Record;
use orc_word::{Groups, Naming};

/// What a token publishes into a `>x>`, and what the ledger knows of that `>x>` (`Taker::SeqLeft`).
#[derive(Clone, Copy)]
pub(crate) struct Fed {
    pub value: Value,
    /// The number of the variable.
    pub name: u32,
    /// The node of the right side.
    pub right: u32,
    /// The ledger's number of the scope of the whole `f >x> g`: it says what each variable but x means in the right side.
    pub scope: usize,
    /// The ledger's number of the step that encloses the `>x>`. A *step* enters the left side of a `>x>` or a `;`, or the right side of a `<x<`.
    pub outer: usize,
}

impl<P: Run + Naming> Book<P> {
    // What the token with the record `its` publishes into a `>x>`: this value, and what the ledger knows of that `>x>`.
    fn fed_by(&self, its: Record, value: Value) -> Fed
        requires held { (slot : ℕ) × IsHeld self.now.ledger.slots slot its }
        requires next { what_of (code P.listing) (definitions P.listing) self.now.ledger its ≡ Action.Send value }
        ensures fed { IsFedBy P.listing self.now.ledger its result }
    {
        match self.ledger.taker_of(its) {
            Taker::SeqLeft(name, right, scope, outer) => Fed {
                value,
                name,
                right,
                scope,
                outer,
            },
            // The token's next action is Send, so a `>x>` takes the value.
            Taker::Whole => unreachable!(),
            Taker::PruneRight(_, _) => unreachable!(),
        }
    }

    // Publishes the token's value into the `>x>` that takes it: a token on a copy of the right side is out in its place, and is added to `out`, which
    // has room for it. If the `>x>` is in another group, an idle pass of `births` (it names no group yet) enters that group for the new token, and
    // the old token's own pass is added to `out.leave`. Refused as Short if it needs an idle pass and the last of `births` names a group or there is
    // none, else as Full, Limit or Memory, as the ledger refuses the entry. In the contract `HasStepped` says that the token has taken its action,
    // and that the tokens which come of it are in `out.born`; `KeepsWords` says that each word stands for what it did and the same tokens are kept.
    pub(crate) fn send(
        &mut self,
        groups: &Groups<P>,
        token: Token<P>,
        found: Found,
        value: Value,
        births: &mut Births<P>,
        out: &mut StepOut<P>,
    ) -> Result<(), Refused<Token<P>>>
        requires found { HasFound P.listing self.old token found }
        requires next { found.what ≡ Action.Send value }
        requires tokens { vec_len out.old.born + 2 ≤ vec_capacity out.old.born }
        requires passes { vec_len out.old.leave + 1 ≤ vec_capacity out.old.leave }
        ensures done { OnOk result (HasStepped P.listing self.old token out.old.born.items out.new.born.items self.new) }
        ensures stands { KeepsWords self.old self.new }
        ensures born { OnOk result (AreBorn out.old.born.items out.new.born.items self.new) }
        ensures leave { OnOk result (AreLeft out.old.leave.items out.new.leave.items) }
        ensures same { births.new.same ≡ births.old.same }
        ensures idle { MatchResult result (λ _. SpendsIdle token.pass births.old.idle.items births.new.idle.items out.old.leave.items out.new.leave.items out.old.born.items out.new.born.items) (λ _. births.new.idle.items ≡ births.old.idle.items) }
        ensures cancelled { out.new.cancelled ≡ out.old.cancelled }
        ensures refused { IfErr result (λ r. HasStayed self.old self.new × (r.back ≡ token) × (out.new.born.items ≡ out.old.born.items) × (out.new.leave.items ≡ out.old.leave.items)) }
        ensures why { IfErr result (λ r. IsRefusedStep P.listing self.old token births.old.same.items births.old.idle.items r.why) }
    {
        let fed = self.fed_by(found.its, value);
        // The group in which the `>x>` stands.
        let round = self.ledger.group_of(fed.outer);
        if round == found.group {
            self.send_within(token, found, fed, out)
        } else {
            self.send_across(groups, token, found, fed, round, births, out)
        }
    }

    // What `send` does where the `>x>` stands in the token's group: the new token has the token's slot and pass. `fed` is the value, and that `>x>`.
    // In the contract `HasStepped` says that the token has taken its action, and that the tokens which come of it are in `out.born`; `KeepsWords`
    // says that each word stands for what it did and the same tokens are kept.
    fn send_within(
        &mut self,
        token: Token<P>,
        found: Found,
        fed: Fed,
        out: &mut StepOut<P>,
    ) -> Result<(), Refused<Token<P>>>
        requires found { HasFound P.listing self.old token found }
        requires fed { IsFedBy P.listing self.old.ledger found.its fed }
        requires round { group_at self.old.ledger.steps fed.outer ≡ found.group }
        requires tokens { vec_len out.old.born + 2 ≤ vec_capacity out.old.born }
        ensures done { OnOk result (HasStepped P.listing self.old token out.old.born.items out.new.born.items self.new) }
        ensures stands { KeepsWords self.old self.new }
        ensures born { OnOk result (AreBorn out.old.born.items out.new.born.items self.new) }
        ensures come { OnOk result (HaveCome out.old.born.items out.new.born.items (token.pass ∷ [])) }
        ensures leave { out.new.leave ≡ out.old.leave }
        ensures cancelled { out.new.cancelled ≡ out.old.cancelled }
        ensures refused { IfErr result (λ r. (self.new ≡ self.old) × (r.back ≡ token) × (out.new.born ≡ out.old.born)) }
        ensures why { (same : List View) → (idle : List View) → IfErr result (λ r. IsRefusedStep P.listing self.old token same idle r.why) }
    {
        // A law: it shows the prover that the journal leads to a term, which the records describe. Nothing runs.
        stands(&self.ledger);
        match self.ledger.send(
            token.slot, found.its, fed.value, fed.name, fed.right, fed.scope, fed.outer,
        ) {
            Ok(()) => {
                let born = self.born(token.slot, token.pass);
                out.born.push_reserved(born);
                Ok(())
            }
            Err(fault) => Err(Refused {
                why: fault_of(fault),
                back: token,
            }),
        }
    }

    // What `send` does where the `>x>` of `fed` stands in another group, `round`: the new token has the token's slot and an idle pass that enters
    // `round`. The token's own pass is to be left. In the contract `HasStepped` says that the token has taken its action, and that the tokens which
    // come of it are in `out.born`; `KeepsWords` says that each word stands for what it did and the same tokens are kept.
    fn send_across(
        &mut self,
        groups: &Groups<P>,
        token: Token<P>,
        found: Found,
        fed: Fed,
        round: u32,
        births: &mut Births<P>,
        out: &mut StepOut<P>,
    ) -> Result<(), Refused<Token<P>>>
        requires found { HasFound P.listing self.old token found }
        requires fed { IsFedBy P.listing self.old.ledger found.its fed }
        requires round { round ≡ group_at self.old.ledger.steps fed.outer }
        requires other { round ≡ found.group → ⊥ }
        requires tokens { vec_len out.old.born + 2 ≤ vec_capacity out.old.born }
        requires passes { vec_len out.old.leave + 1 ≤ vec_capacity out.old.leave }
        ensures done { OnOk result (HasStepped P.listing self.old token out.old.born.items out.new.born.items self.new) }
        ensures stands { KeepsWords self.old self.new }
        ensures born { OnOk result (AreBorn out.old.born.items out.new.born.items self.new) }
        ensures leave { OnOk result (AreLeft out.old.leave.items out.new.leave.items) }
        ensures same { births.new.same ≡ births.old.same }
        ensures idle { MatchResult result (λ _. (v : View) × (births.old.idle.items ≡ births.new.idle.items ++ v ∷ []) × (out.new.leave.items ≡ out.old.leave.items ++ token.pass ∷ []) × ((w : View) × HaveCome out.old.born.items out.new.born.items (w ∷ []))) (λ _. births.new.idle.items ≡ births.old.idle.items) }
        ensures cancelled { out.new.cancelled ≡ out.old.cancelled }
        ensures refused { IfErr result (λ r. (self.new ≡ self.old) × (r.back ≡ token) × (out.new.born ≡ out.old.born) × (out.new.leave ≡ out.old.leave)) }
        ensures why { IfErr result (λ r. IsRefusedStep P.listing self.old token births.old.same.items births.old.idle.items r.why) }
    {
        let Some(idle) = births.take_idle() else {
            let why = BookFault::Short;
            return Err(Refused { why, back: token });
        };
        // A law: it shows the prover that the journal leads to a term, which the records describe. Nothing runs.
        stands(&self.ledger);
        match self.ledger.send(
            token.slot, found.its, fed.value, fed.name, fed.right, fed.scope, fed.outer,
        ) {
            Ok(()) => {
                // For the prover alone: the number of all tokens, the new one too, is a `usize`, and no more are out. So `out_there + 1` doesn't
                // overflow.
                let _tokens = self.ledger.token_count();
                // The token's old group has one token fewer out.
                set_out(&mut self.posts, found.group, found.out - 1);
                let out_there = out_in(&self.posts, round);
                // `enter_at` lets the idle pass name that group, beside a pass that the book holds, and notes that one more of its tokens is out. The
                // book holds such a pass: the token's own group is a member of that group, or of one right inside it, and so on.
                let Ok(pass) = enter_at(groups, &mut self.posts, round, out_there + 1, idle) else {
                    unreachable!()
                };
                let born = self.born(token.slot, pass);
                out.born.push_reserved(born);
                out.leave.push_reserved(token.pass);
                Ok(())
            }
            Err(fault) => {
                // There is room, since the pass was taken from this list.
                births.idle.push_reserved(idle);
                Err(Refused {
                    why: fault_of(fault),
                    back: token,
                })
            }
        }
    }
}
