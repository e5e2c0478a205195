//! Scopes as they are stored, in 24 bytes.

ghost use Rattle.std.specs.Prelude.{◌≡◌, ◌≤◌, ◌^◌, IfOk, OnErr};

use crate::names::{Bound, Scope};
use orc_rules::value::Value;
use std::alloc::AllocError;
use std::marker::Model;
use std::mem::size_of;

// A `Bound`, which is what a name means, with a variant for each kind of value, so that it takes 16 bytes.
#[derive(Clone, Copy)]
enum Put {
    Number(i64),
    Truth(bool),
    Signal,
    Cell(u64),
    Void,
}

/// A scope as it is stored, in 24 bytes: the number of its name, that of the scope that it extends, and what the name means, by the fields of
/// `Scope`.
#[derive(Clone, Copy)]
pub struct StoredScope {
    // The number of the name that the scope adds, and that of the scope that it extends.
    name: u32,
    outer: u32,
    // What the name means.
    put: Put,
}

// The size of 24 bytes, which the comment of `StoredScope` promises; the prover checks it.
const _: () = prove!(size_of::<StoredScope>() == 24);

// Contracts see the `Scope` that is stored.
impl Model for StoredScope {
    ghost use Rattle.orc_env.specs.Stored.{bound_in, put_for, is_again};
    ghost use Rattle.orc_env.specs.declared.names.Scope.{Scope};

    ghost Value = { Scope };

    ghost view = { λ s. record { name = s.name; bound = bound_in s.put; outer = s.outer } };

    // A type with a model may be `Copy` only with this: how a scope is stored is a function of the scope. `inverse_ok` proves it.
    ghost inverse = { λ s. record { name = s.name; outer = s.outer; put = put_for s.bound } };

    ghost inverse_ok = { λ s h. λ i. record { name = s.name; outer = s.outer; put = is_again s.put i } };
}

impl StoredScope {
    /// This scope, stored.
    #[inline(always)]
    pub fn new(scope: Scope) -> StoredScope
        ensures { result ≡ scope }
    {
        // What the name means, in the stored form.
        let put = match scope.bound {
            Bound::Is(Value::Number(number)) => Put::Number(number),
            Bound::Is(Value::Truth(truth)) => Put::Truth(truth),
            Bound::Is(Value::Signal) => Put::Signal,
            Bound::Cell(cell) => Put::Cell(cell),
            Bound::Void => Put::Void,
        };
        StoredScope {
            name: scope.name,
            outer: scope.outer,
            put,
        }
    }

    /// The number of the name that the scope adds to those of the scope that it extends.
    #[inline(always)]
    pub fn name(&self) -> u32
        ensures { result ≡ self.now.name }
    {
        self.name
    }

    /// What the name was bound to when the scope was made. A cell stays here when it is bound or lost: the table of cells says what has become of it.
    #[inline(always)]
    pub fn bound(&self) -> Bound
        ensures { result ≡ self.now.bound }
    {
        match self.put {
            Put::Number(number) => Bound::Is(Value::Number(number)),
            Put::Truth(truth) => Bound::Is(Value::Truth(truth)),
            Put::Signal => Bound::Is(Value::Signal),
            Put::Cell(cell) => Bound::Cell(cell),
            Put::Void => Bound::Void,
        }
    }

    /// The number of the scope that this one extends; scope 0 has no names.
    #[inline(always)]
    pub fn outer(&self) -> u32
        ensures { result ≡ self.now.outer }
    {
        self.outer
    }
}

/// The number `scope` of a scope in 32 bits, as a scope that extends it stores it. The error is that the number has over 32 bits, which counts as
/// refused memory.
#[inline(always)]
pub fn outer_number(scope: usize) -> Result<u32, AllocError>
    ensures number { IfOk result (λ outer. outer ≡ scope) }
    ensures refused { OnErr result (2 ^ 32 ≤ scope) }
{
    if scope > u32::MAX as usize {
        return Err(AllocError);
    }
    Ok(scope as u32)
}
