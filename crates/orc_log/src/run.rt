//! What belongs to a run, as contracts name it.

use std::marker::Brand;

/// A run, for contracts: its program, its table of sites, the limit of its entries, and whether its journal is held whole. All of this is
/// ghost, so a type that is generic over a `Run` carries no bytes for it.
pub trait Run {
    ghost use Rattle.orc_rules.specs.Nodes.{Listing};
    ghost use Rattle.orc_rules.specs.Sites.{Site};
    ghost use Rattle.std.specs.Prelude.{ℕ, Bool, List};

    // The program: its nodes, the lists of operands, the definitions and the node of the main term.
    ghost listing: { Listing };

    // The table that answers calls.
    ghost sites: { List Site };

    // The most entries that the journal is to have, cancels not counted.
    ghost limit: { ℕ };

    // Whether all of the journal is held to the end.
    ghost keeps: { Bool };
}

// A caller passes `Brand` as its run, and its proof picks the members for that call. The values below only complete the `impl`.
impl Run for Brand {
    ghost use Rattle.std.specs.Prelude.{true, []};

    ghost listing = { record { nodes = []; lists = []; routines = []; root = 0 } };

    ghost sites = { [] };

    ghost limit = { 0 };

    ghost keeps = { true };
}
