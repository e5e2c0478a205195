//! How often calls were made. A script may answer the n-th call of a site with the same arguments otherwise than the one before, so a search counts
//! them.

ghost use Rattle.std.specs.Prelude.{◌≡◌};
ghost use Rattle.orc_search.specs.Asked.{times_of};

use orc_rules::builtin::are_same;
use orc_rules::value::Value;

/// How often a site, by its number in the table, was called with these arguments.
#[derive(Drop)]
pub struct Made {
    pub site: u32,
    pub args: Vec<Value>,
    pub times: u64,
}

/// How many calls of a site with these arguments were made: the count of the first entry for them, and 0 if there is none.
pub fn times_of(made: &[Made], site: u32, args: &[Value]) -> u64
    ensures { result ≡ times_of made.now site args.now }
{
    for calls in made {
        if calls.site == site && are_same(args, &calls.args) {
            return calls.times;
        }
    }
    0
}
