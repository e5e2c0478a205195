//! A run so far: its journal, and the marked term to which the journal leads. That term is what is left of the program's term after the journal's
//! entries. A *cancel* is the entry which says that a bind has dropped a pending call.

ghost use Rattle.std.specs.Prelude.{◌≡◌, ◌↔◌, ◌<◌, ◌++◌, ◌∷◌, [], ℕ, true, IfOk, OnOk, OnErr, vec_len, vec_capacity};
ghost use Rattle.orc_rules.specs.Journal.{Place, moment};
ghost use Rattle.orc_outcome.specs.Outcome.{IsPlayed};
ghost use Rattle.orc_rules.specs.Nodes.{Listing, code, definitions};
ghost use Rattle.orc_rules.specs.Sites.{Table};
ghost use Rattle.orc_rules.specs.Timed.{Context, IsQuiet};
ghost use Rattle.orc_rules.specs.Trace.{published};
ghost use Rattle.orc_checker.specs.Checker.{Spells};
ghost use Rattle.orc_reference.specs.Stories.{IsReached, Grows, HasEnded};

use orc_checker::{Marked, Side};
use orc_journal::{Journal, Version};
use orc_outcome::{End, Played, Summary};
use orc_rules::answers::Answers;
use orc_rules::entry::{Entry, RuleFault};
use orc_rules::program::Program;
use orc_rules::value::Value;
use std::alloc::{AllocError, Global};
use std::marker::Model;

/// A run so far.
#[derive(Drop)]
pub struct History {
    // The program's term after the journal, as the checker keeps it. It, `published` and the journal change together or not at all (`record`).
    marked: Marked,
    // All that the journal publishes, in order.
    published: Vec<Value>,
    journal: Journal,
}

impl Model for History {
    ghost use Rattle.orc_reference.specs.Stories.{Story};

    ghost Value = { Story };

    ghost view = { λ h. record { marked = h.marked; published = h.published.items; journal = h.journal } };
}

// Adds the value that an entry publishes, if it publishes one. There is room, so the push can't be refused, and `prove!` shows that.
fn note(values: &mut Vec<Value>, entry: &Entry)
    requires { vec_len values.old < vec_capacity values.old }
    ensures { values.new.items ≡ values.old.items ++ published (entry.now ∷ []) }
{
    if let Entry::Publish(_, value) = entry {
        let pushed = values.push(*value);
        prove!(pushed.is_ok());
    }
}

impl History {
    /// The run of a program before its first entry. The error is refused memory. In contracts `IsReached` says that the run has come to so many
    /// entries by the rules, cancels not counted, and that no cancel is due.
    pub fn new(alloc: Global, program: &Program) -> Result<History, AllocError>
        ensures { (t : Table) → IfOk result (IsReached program.now t 0) }
    {
        Ok(History {
            // True: cancels follow each bind, as in the second version of journals.
            marked: Marked::new(alloc, program, true)?,
            published: Vec::new(alloc),
            journal: Journal::new(alloc, Version::Two),
        })
    }

    /// Adds an entry, if the rules allow it next. The fault is Memory, or the reason for which the rules refuse it. After a fault nothing has
    /// changed. `Grows` says that the entry leads on by the rules from wherever the run stood, and that the run has it then.
    pub fn record(
        &mut self,
        program: &Program,
        answers: &Answers,
        entry: &Entry,
    ) -> Result<(), RuleFault>
        ensures grows { OnOk result (Grows program.now answers.now entry.now self.old self.new) }
        ensures refused { OnErr result (self.new ≡ self.old) }
    {
        // All that can be refused comes before the term's step, and the journal's entry is taken back if that is refused.
        if self.published.try_reserve(1).is_err() {
            return Err(RuleFault::Memory);
        }
        let so_far = self.journal.len();
        if self.journal.push(entry).is_err() {
            return Err(RuleFault::Memory);
        }
        if let Err(fault) = self.marked.step(program, answers, entry) {
            self.journal.truncate(so_far);
            return Err(fault);
        }
        note(&mut self.published, entry);
        Ok(())
    }

    /// The marked term to which the journal leads.
    pub fn marked(&self) -> &Marked
        ensures { result.now ≡ self.now.marked }
    {
        &self.marked
    }

    /// The first side found that has halted, so that its otherwise or its cell can go on: a left side of an otherwise, or a right side of a pruning.
    /// None if there is none. The run doesn't change.
    pub fn halted_side(&mut self) -> Option<Side>
        ensures { self.new ≡ self.old }
    {
        self.marked.halted_side()
    }

    /// Whether the run is quiet: it hasn't halted, no rule can be used, and no tick is possible. The run doesn't change.
    pub fn is_quiet(&mut self, program: &Program) -> bool
        // It is what the rules call quiet, of any program with these definitions at a place that the marked term spells.
        ensures quiet { (x : Context) (p : Place) → x.definitions ≡ definitions program.now → Spells x (code program.now) self.old.marked p → (result ≡ true) ↔ IsQuiet x (moment p) }
        ensures same { self.new ≡ self.old }
    {
        self.marked.is_quiet(program)
    }

    /// The result of the run, which has ended so: its end, counts and time, its publications, and its journal.
    pub fn played(self, end: End) -> Played
        // If the run has ended so within a limit, the result is that of a run of the program (`IsPlayed` of orc_outcome).
        ensures played { (l : Listing) (t : Table) (limit : ℕ) → HasEnded l t limit self end → IsPlayed l t limit result.summary result.published.items result.journal }
        ensures end { result.summary.end ≡ end }
    {
        let History {
            marked,
            published,
            journal,
        } = self;
        Played {
            summary: Summary {
                end,
                entries: journal.len() as u64,
                now: marked.now(),
                published: published.len() as u64,
            },
            published,
            journal: Some(journal),
        }
    }
}
