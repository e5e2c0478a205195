//! The cells for which a call waits. An operand is a name or a value, and a *scope* says by number what names stand for: a value, a cell, or void,
//! which never has a value. A *cell* stands for the x of an opened `f <x< g`, and is unbound until g publishes or halts.
//!
//! `scopes` and `cells` are those of the run: scope n is the n-th item of `scopes` (scope 0 has no names), and `cells` says by number what a cell has
//! become (item 0 is no cell). In contracts `env_of cells scopes n` is what the names of scope n mean, `closed` puts that for the operands, and
//! `cells_among` lists the unbound cells among them, in order.

ghost use Rattle.std.specs.Prelude.{◌≡◌, OnOk};
ghost use Rattle.orc_env.specs.Names.{AreOrdered};
ghost use Rattle.orc_env.specs.Scopes.{env_of};
ghost use Rattle.orc_frames.specs.Awaiting.{cells_among};
ghost use Rattle.orc_frames.specs.Doing.{closed};

use orc_env::{Bound, StoredScope, meaning};
use orc_indexes::{push_within, reserve};
use orc_rules::param::Operand;
use std::alloc::AllocError;

/// Writes the numbers of the unbound cells that these operands mean in the scope with the number `scope` over `listed`, in the operands' order, each
/// as often as it occurs. The error is refused memory; what is listed isn't known then. The contract asks that each scope extends one of a lower
/// number (`AreOrdered`).
pub fn list_cells(
    scopes: &[StoredScope],
    cells: &[Bound],
    operands: &[Operand],
    scope: usize,
    listed: &mut Vec<u64>,
) -> Result<(), AllocError>
    requires { AreOrdered scopes.now }
    ensures listed { OnOk result (listed.new.items ≡ cells_among (closed (env_of cells.now scopes.now scope) operands.now)) }
{
    listed.clear();
    for operand in operands {
        match meaning(scopes, cells, *operand, scope) {
            Some(Bound::Cell(cell)) => {
                reserve(listed)?;
                push_within(listed, cell);
            }
            // A value and a void operand aren't waited for, and for a name that isn't bound nothing ever comes.
            Some(Bound::Is(_)) => {}
            Some(Bound::Void) => {}
            None => {}
        }
    }
    Ok(())
}
