//! What is asked of a site: one call, with what a site needs to know of it.

ghost use Rattle.std.specs.Prelude.{◌≡◌, ◌≤◌};

use orc_rules::value::Args;

/// A call of a site.
#[derive(Drop)]
pub struct Request {
    /// The call's number, from 1 on.
    pub number: u64,
    /// The site's number in the table of sites, from 0.
    pub site: u32,
    /// The values that it is called with.
    pub args: Args,
    /// How many calls of this site with these arguments the run has made, this one included: from 1 on; always 1 for a site that no script answers.
    pub nth: u64,
    /// The logical time at which the call was made.
    pub made_at: u64,
    // For the prover: `nth` counts from 1.
    pub ghost from_one: { 1 ≤ nth },
}

impl Request {
    /// A copy of the request: the same call, not another one.
    pub fn copied(&self) -> Request
        ensures { result ≡ self.now }
    {
        Request {
            number: self.number,
            site: self.site,
            args: self.args.copied(),
            nth: self.nth,
            made_at: self.made_at,
        }
    }
}
