//! A type that names one table of words: so no pass of one table is used on the words of another. Types and contracts alone need it; no code runs by
//! it.
use std::marker::Brand;

/// Names one table of group words by a type. Words, supplies and passes with the same name in their types are of the same table.
pub trait Naming {
    ghost use Rattle.atomic_table.specs.Seated.{TableId};

    // The table's identity, with how many words it has.
    ghost table: { TableId };
}

// `Brand` is for the caller that makes a table: it calls a function that is generic in the name, and picks the table at that call. By itself it names
// none (`no_table`).
impl Naming for Brand {
    ghost use Rattle.orc_word.specs.Words.{no_table};

    ghost table = { no_table };
}
