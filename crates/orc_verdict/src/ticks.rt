//! Whether a tick is allowed. A tick lets time pass until a pending call is due. A run is Quiet if it hasn't halted, no rule can be used, and no tick
//! is possible. `marked` is the marked term: what is left of the program's term after the first entries of a journal, with its calls and the time.

ghost use Rattle.std.specs.Prelude.{◌≡◌, ◌<◌, false, Some};
ghost use Rattle.std.specs.Bool.{Decides};
ghost use Rattle.orc_rules.specs.Journal.{Place, moment};
ghost use Rattle.orc_rules.specs.Nodes.{code, definitions};
ghost use Rattle.orc_rules.specs.Timed.{Context, IsTick};
ghost use Rattle.orc_checker.specs.Checker.{Spells};

use orc_checker::Marked;
use orc_rules::laws::tests_are_right;
use orc_rules::program::Program;

/// Whether nothing moves (`moves` is false), and `t` is the next due time and later than `now`; `due` is None where no pending call is ever due.
fn may_tick(moves: bool, due: Option<u64>, now: u64, t: u64) -> bool
    ensures { Decides result ((moves ≡ false) × (due ≡ Some t) × (now < t)) }
{
    match due {
        Some(next) => !moves && next == t && now < t,
        None => false,
    }
}

/// Whether a tick to time `t` is allowed. The term stays the same.
pub(crate) fn can_tick(marked: &mut Marked, program: &Program, t: u64) -> bool
    ensures tick { (x : Context) (p : Place) → x.definitions ≡ definitions program.now → Spells x (code program.now) marked.old p → Decides result (IsTick x (moment p) t) }
    ensures same { marked.new ≡ marked.old }
{
    // A law that the prover is shown: the tests for halted, quiet and ticks are right. Nothing runs.
    tests_are_right();
    let due = marked.next_due();
    let now = marked.now();
    let moves = marked.can_move(program);
    may_tick(moves, due, now, t)
}
