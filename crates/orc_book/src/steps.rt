//! A token's next move, where that needs nothing but passes: all but a publication of the program, a bind, a call of a site and a wait, which have
//! calls of their own. A token that is *out* is with a worker, with a *pass*: that stands for the token in its group (what runs in one right side of
//! a `<x<`, one left side of a `;`, or the whole program), whose *word*, an atomic counter, counts the passes. An *idle* pass names no group.
//! `births` has passes that the worker lends; `out` gets what comes of the move. `found` has what the book has found of the token: its record, what
//! it does next and its group. `inputs` has the program and the table of what sites answer, `groups` has the words. `P` names the run and its table
//! of words, for contracts alone. A pass that is *left* is counted no more.

ghost use Rattle.std.specs.Prelude.{◌≡◌, ◌≤◌, ◌+◌, ◌⊎◌, ◌++◌, ◌∷◌, [], List, vec_len, vec_capacity, IfErr, MatchResult, OnErr, OnOk};
ghost use Rattle.orc_book.specs.Held.{HasStayed, KeepsWords, AreBorn};
ghost use Rattle.orc_book.specs.Refusals.{is_end, is_opening, HasFound, IsRefusedMove, IsRefusedStep, IsUnopened};
ghost use Rattle.orc_word.specs.declared.view.View.{View};
ghost use Rattle.orc_ledger_spec.specs.Moves.{IsHindered};
ghost use Rattle.orc_book.specs.Stepping.{HasSpent, HasStepped, HaveCome, HaveOpened, AreBack, AreLeft};

use crate::book::Book;
use crate::lookup::Found;
use crate::out::{Births, StepOut};
use crate::token::{BookFault, Refused, Token};
use orc_ledger::{Action, Inputs};
use orc_log::Run;
use orc_word::{Groups, Naming};

impl<P: Run + Naming> Book<P> {
    /// Moves a token that is out, if its next action (`view`) is Halt or Void (it ends), Fork (at a `|`), Seq (at a `>x>`), Def (it enters a
    /// definition's body), Send (it publishes into a `>x>`), Prune (at a `<x<`) or Other (at a `;`): its record goes, and the tokens that come in its
    /// place are out. `births` lends passes; the move needs no more of them than `view` says, and what it doesn't use stays there. Tokens and passes
    /// to leave are added to `out`.
    ///
    /// Refused as Gone if the token isn't out, as Wrong if it does something else next, as Short if `births` lacks a pass that the move needs, as
    /// Full or Limit if the move is over a limit, as Full also if a group is to be opened and no word is free, as Live if the free word is still
    /// named, and as Memory if memory is refused. Then the records are as they were, and `back` is the token.
    ///
    /// In the contract `marks` has, by slots, the serials of the kept tokens, `HasStepped` says that the token has taken its action, and that the
    /// tokens which come of it are in `out.born`, `HaveOpened` that each word stands for what it did, but that a free one may stand for a new group,
    /// `HasSpent` which of the lent passes are used and which are to be left, `AreBack` that the last idle pass at most has become another,
    /// `HasStayed` that nothing has changed but room for passes.
    pub fn step(
        &mut self,
        groups: &Groups<P>,
        inputs: &Inputs<'_, P>,
        token: Token<P>,
        births: &mut Births<P>,
        out: &mut StepOut<P>,
    ) -> Result<(), Refused<Token<P>>>
        ensures done { OnOk result (HasStepped P.listing self.old token out.old.born.items out.new.born.items self.new) }
        ensures stands { HaveOpened P.listing self.old token self.new.stands }
        ensures marks { self.new.marks ≡ self.old.marks }
        ensures born { OnOk result (AreBorn out.old.born.items out.new.born.items self.new) }
        ensures leave { OnOk result (AreLeft out.old.leave.items out.new.leave.items) }
        ensures spent { OnOk result (HasSpent P.listing self.old token (record { same = births.old.same.items; idle = births.old.idle.items; leave = out.old.leave.items }) (record { same = births.new.same.items; idle = births.new.idle.items; leave = out.new.leave.items }) out.old.born.items out.new.born.items) }
        ensures back { OnErr result ((births.new.same.items ≡ births.old.same.items) × AreBack births.old.idle.items births.new.idle.items) }
        ensures cancelled { out.new.cancelled ≡ out.old.cancelled }
        ensures refused { IfErr result (λ r. HasStayed self.old self.new × (r.back ≡ token) × (out.new.born.items ≡ out.old.born.items) × (out.new.leave.items ≡ out.old.leave.items)) }
        ensures why { IfErr result (λ r. IsUnopened P.listing self.old token P.table.words is_opening r.why ⊎ IsRefusedStep P.listing self.old token births.old.same.items births.old.idle.items r.why) }
    {
        let found = match self.find(inputs, &token) {
            Ok(found) => found,
            Err(why) => return Err(Refused { why, back: token }),
        };
        // Room for what comes of any move, before anything changes.
        let Ok(()) = out.reserve() else {
            let why = BookFault::Memory;
            return Err(Refused { why, back: token });
        };
        match found.what {
            Action::Halt | Action::Void => self.step_end(inputs, token, found, out),
            Action::Seq | Action::Def => self.step_on(inputs, token, found, out),
            Action::Fork => self.step_fork(inputs, token, found, births, out),
            Action::Prune => self.step_prune(groups, inputs, token, found, births, out),
            Action::Other => self.step_other(groups, inputs, token, found, births, out),
            Action::Send(value) => self.send(groups, token, found, value, births, out),
            // Publish, Bind, Call and Wait have calls of their own.
            _ => {
                let why = BookFault::Wrong;
                Err(Refused { why, back: token })
            }
        }
    }

    // This and the functions below are the arms of `step`. Each takes the passes that it needs from `births`, and gives back those that a refused
    // move doesn't use: there is room, since they came from there. What comes of the move is added to `out`, which has room for it. Refused as `step`
    // is.
    //
    // The token ends at `stop` or void, and its pass is added to `out.leave`, to be left. In the contract `HasStepped` says that the token has taken
    // its action, and that the tokens which come of it are in `out.born`; `KeepsWords` says that each word stands for what it did and the same tokens
    // are kept.
    fn step_end(
        &mut self,
        inputs: &Inputs<'_, P>,
        token: Token<P>,
        found: Found,
        out: &mut StepOut<P>,
    ) -> Result<(), Refused<Token<P>>>
        requires found { HasFound P.listing self.old token found }
        requires next { (found.what ≡ Action.Halt) ⊎ (found.what ≡ Action.Void) }
        requires passes { vec_len out.old.leave + 1 ≤ vec_capacity out.old.leave }
        ensures done { OnOk result (HasStepped P.listing self.old token out.old.born.items out.new.born.items self.new) }
        ensures stands { KeepsWords self.old self.new }
        ensures born { out.new.born ≡ out.old.born }
        ensures leave { OnOk result (AreLeft out.old.leave.items out.new.leave.items) }
        ensures left { OnOk result (out.new.leave.items ≡ out.old.leave.items ++ token.pass ∷ []) }
        ensures cancelled { out.new.cancelled ≡ out.old.cancelled }
        ensures refused { IfErr result (λ r. (self.new ≡ self.old) × (r.back ≡ token) × (out.new.leave ≡ out.old.leave)) }
        ensures why { IfErr result (λ r. IsRefusedMove P.listing self.old token is_end (IsHindered P.listing self.old.ledger) r.why) }
    {
        match self.end_found(inputs, token, found) {
            Ok(pass) => {
                out.leave.push_reserved(pass);
                Ok(())
            }
            Err(refused) => Err(refused),
        }
    }

    // An arm of `step`: the token enters a `>x>` or a body, and the one in its place is added to `out`. It needs no lent pass, so the clause *why*
    // holds whatever was lent. In the contract `HasStepped` says that the token has taken its action, and that the tokens which come of it are in
    // `out.born`, `HaveCome` with which passes; `KeepsWords` says that each word stands for what it did and the same tokens are kept.
    fn step_on(
        &mut self,
        inputs: &Inputs<'_, P>,
        token: Token<P>,
        found: Found,
        out: &mut StepOut<P>,
    ) -> Result<(), Refused<Token<P>>>
        requires found { HasFound P.listing self.old token found }
        requires next { (found.what ≡ Action.Seq) ⊎ (found.what ≡ Action.Def) }
        requires tokens { vec_len out.old.born + 2 ≤ vec_capacity out.old.born }
        ensures done { OnOk result (HasStepped P.listing self.old token out.old.born.items out.new.born.items self.new) }
        ensures stands { KeepsWords self.old self.new }
        ensures born { OnOk result (AreBorn out.old.born.items out.new.born.items self.new) }
        ensures come { OnOk result (HaveCome out.old.born.items out.new.born.items (token.pass ∷ [])) }
        ensures leave { out.new.leave ≡ out.old.leave }
        ensures cancelled { out.new.cancelled ≡ out.old.cancelled }
        ensures refused { IfErr result (λ r. (self.new ≡ self.old) × (r.back ≡ token) × (out.new.born ≡ out.old.born)) }
        ensures why { (same : List View) → (idle : List View) → IfErr result (λ r. IsRefusedStep P.listing self.old token same idle r.why) }
    {
        match self.go_on_found(inputs, token, found) {
            Ok(born) => {
                out.born.push_reserved(born);
                Ok(())
            }
            Err(refused) => Err(refused),
        }
    }

    // An arm of `step`: the token becomes one on each side of a `|`, with its pass and the last of `births.same`, another pass to its group. A
    // refused move gives that pass back: there is room, since it was taken from `births`. Refused as Short if no such pass was lent, else as `step`
    // says. In the contract `HasStepped` says that the token has taken its action, and that the tokens which come of it are in `out.born`, `HaveCome`
    // with which passes; `KeepsWords` says that each word stands for what it did and the same tokens are kept.
    fn step_fork(
        &mut self,
        inputs: &Inputs<'_, P>,
        token: Token<P>,
        found: Found,
        births: &mut Births<P>,
        out: &mut StepOut<P>,
    ) -> Result<(), Refused<Token<P>>>
        requires found { HasFound P.listing self.old token found }
        requires next { found.what ≡ Action.Fork }
        requires tokens { vec_len out.old.born + 2 ≤ vec_capacity out.old.born }
        ensures done { OnOk result (HasStepped P.listing self.old token out.old.born.items out.new.born.items self.new) }
        ensures stands { KeepsWords self.old self.new }
        ensures born { OnOk result (AreBorn out.old.born.items out.new.born.items self.new) }
        ensures leave { out.new.leave ≡ out.old.leave }
        ensures same { MatchResult result (λ _. (v : View) × (births.old.same.items ≡ births.new.same.items ++ v ∷ []) × HaveCome out.old.born.items out.new.born.items (token.pass ∷ v ∷ [])) (λ _. births.new.same.items ≡ births.old.same.items) }
        ensures idle { births.new.idle ≡ births.old.idle }
        ensures cancelled { out.new.cancelled ≡ out.old.cancelled }
        ensures refused { IfErr result (λ r. (self.new ≡ self.old) × (r.back ≡ token) × (out.new.born ≡ out.old.born)) }
        ensures why { IfErr result (λ r. IsRefusedStep P.listing self.old token births.old.same.items births.old.idle.items r.why) }
    {
        let Some(same) = births.take_same(token.pass.group()) else {
            let why = BookFault::Short;
            return Err(Refused { why, back: token });
        };
        match self.fork_found(inputs, token, found, same) {
            Ok((one, two)) => {
                out.born.push_reserved(one);
                out.born.push_reserved(two);
                Ok(())
            }
            Err(refused) => {
                let (token, same) = refused.back;
                births.same.push_reserved(same);
                Err(Refused {
                    why: refused.why,
                    back: token,
                })
            }
        }
    }

    // An arm of `step`: a pruning opens. The book keeps the last of `births.same`, a pass to the token's group, for the new group, and the last of
    // `births.idle` opens that group's word. A refused move gives both passes back: there is room, since they were taken from `births`. Refused as
    // Short if such a pass wasn't lent, else as `step` says. In the contract `marks` has, by slots, the serials of the kept tokens, `HasStepped` says
    // that the token has taken its action, and that the tokens which come of it are in `out.born`, `HaveCome` with which passes, `HaveOpened` that a
    // free word may stand for a new group.
    fn step_prune(
        &mut self,
        groups: &Groups<P>,
        inputs: &Inputs<'_, P>,
        token: Token<P>,
        found: Found,
        births: &mut Births<P>,
        out: &mut StepOut<P>,
    ) -> Result<(), Refused<Token<P>>>
        requires found { HasFound P.listing self.old token found }
        requires next { found.what ≡ Action.Prune }
        requires tokens { vec_len out.old.born + 2 ≤ vec_capacity out.old.born }
        ensures done { OnOk result (HasStepped P.listing self.old token out.old.born.items out.new.born.items self.new) }
        ensures stands { HaveOpened P.listing self.old token self.new.stands }
        ensures marks { self.new.marks ≡ self.old.marks }
        ensures born { OnOk result (AreBorn out.old.born.items out.new.born.items self.new) }
        ensures come { OnOk result ((v : View) × HaveCome out.old.born.items out.new.born.items (token.pass ∷ v ∷ [])) }
        ensures leave { out.new.leave ≡ out.old.leave }
        ensures same { MatchResult result (λ _. (v : View) × (births.old.same.items ≡ births.new.same.items ++ v ∷ [])) (λ _. births.new.same.items ≡ births.old.same.items) }
        ensures idle { MatchResult result (λ _. (v : View) × (births.old.idle.items ≡ births.new.idle.items ++ v ∷ [])) (λ _. AreBack births.old.idle.items births.new.idle.items) }
        ensures cancelled { out.new.cancelled ≡ out.old.cancelled }
        ensures refused { IfErr result (λ r. HasStayed self.old self.new × (r.back ≡ token) × (out.new.born ≡ out.old.born)) }
        ensures why { IfErr result (λ r. IsUnopened P.listing self.old token P.table.words is_opening r.why ⊎ IsRefusedStep P.listing self.old token births.old.same.items births.old.idle.items r.why) }
    {
        let Some(same) = births.take_same(token.pass.group()) else {
            let why = BookFault::Short;
            return Err(Refused { why, back: token });
        };
        let Some(idle) = births.take_idle() else {
            // No idle pass was lent: the other pass goes back to its list.
            births.same.push_reserved(same);
            let why = BookFault::Short;
            return Err(Refused { why, back: token });
        };
        match self.prune_found(groups, inputs, token, found, same, idle) {
            Ok((one, two)) => {
                out.born.push_reserved(one);
                out.born.push_reserved(two);
                Ok(())
            }
            Err(refused) => {
                let (token, same, idle) = refused.back;
                births.same.push_reserved(same);
                births.idle.push_reserved(idle);
                Err(Refused {
                    why: refused.why,
                    back: token,
                })
            }
        }
    }

    // An arm of `step`: the token enters the left side of an otherwise. Its own pass is kept for the new group, and the last of `births.idle` opens
    // that group's word. A refused move gives the idle pass back: there is room, since it was taken from `births`. Refused as Short if no idle pass
    // was lent, else as `step` says. In the contract `marks` has, by slots, the serials of the kept tokens, `HasStepped` says that the token has
    // taken its action, and that the tokens which come of it are in `out.born`, `HaveCome` with which passes, `HaveOpened` that a free word may stand
    // for a new group.
    fn step_other(
        &mut self,
        groups: &Groups<P>,
        inputs: &Inputs<'_, P>,
        token: Token<P>,
        found: Found,
        births: &mut Births<P>,
        out: &mut StepOut<P>,
    ) -> Result<(), Refused<Token<P>>>
        requires found { HasFound P.listing self.old token found }
        requires next { found.what ≡ Action.Other }
        requires tokens { vec_len out.old.born + 2 ≤ vec_capacity out.old.born }
        ensures done { OnOk result (HasStepped P.listing self.old token out.old.born.items out.new.born.items self.new) }
        ensures stands { HaveOpened P.listing self.old token self.new.stands }
        ensures marks { self.new.marks ≡ self.old.marks }
        ensures born { OnOk result (AreBorn out.old.born.items out.new.born.items self.new) }
        ensures come { OnOk result ((v : View) × HaveCome out.old.born.items out.new.born.items (v ∷ [])) }
        ensures leave { out.new.leave ≡ out.old.leave }
        ensures same { births.new.same ≡ births.old.same }
        ensures idle { MatchResult result (λ _. (v : View) × (births.old.idle.items ≡ births.new.idle.items ++ v ∷ [])) (λ _. AreBack births.old.idle.items births.new.idle.items) }
        ensures cancelled { out.new.cancelled ≡ out.old.cancelled }
        ensures refused { IfErr result (λ r. HasStayed self.old self.new × (r.back ≡ token) × (out.new.born ≡ out.old.born)) }
        ensures why { IfErr result (λ r. IsUnopened P.listing self.old token P.table.words is_opening r.why ⊎ IsRefusedStep P.listing self.old token births.old.same.items births.old.idle.items r.why) }
    {
        let Some(idle) = births.take_idle() else {
            let why = BookFault::Short;
            return Err(Refused { why, back: token });
        };
        match self.other_found(groups, inputs, token, found, idle) {
            Ok(born) => {
                out.born.push_reserved(born);
                Ok(())
            }
            Err(refused) => {
                let (token, idle) = refused.back;
                births.idle.push_reserved(idle);
                Err(Refused {
                    why: refused.why,
                    back: token,
                })
            }
        }
    }
}
