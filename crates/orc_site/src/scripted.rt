//! Sites that the table answers: the built-in ones and a script's.

ghost use Rattle.std.specs.Prelude.{◌≡◌, true, false, IfOk};

use crate::request::Request;
use crate::site_call::SiteCall;
use crate::sites::Sites;
use orc_rules::answers::Answers;
use std::alloc::AllocError;

/// Makes calls that the table of sites answers. They need no memory and wait for nobody.
#[derive(Drop)]
pub struct Scripted<'a> {
    /// The table of the built-in sites and a script's.
    answers: &'a Answers,
}

impl<'a> Scripted<'a> {
    /// Sites that this table answers.
    pub fn new(answers: &'a Answers) -> Scripted<'a>
        ensures { result.answers.now ≡ answers.now }
    {
        Scripted { answers }
    }
}

impl<'a> Sites for Scripted<'a> {
    type Call = SiteCall<'a>;

    // What a caller may know of these sites: that they go by the table.
    ghost by_table = { λ _. Unit {0} };

    // Begins a call, which is due when the table says. It needs no memory, so there is no error.
    fn call(&self, request: &Request) -> Result<SiteCall<'a>, AllocError>
        ensures { IfOk result (λ call. (call.answers.now ≡ self.now.answers.now) × (call.request ≡ request.now) × (call.moment ≡ request.now.made_at)) }
    {
        Ok(SiteCall::new(self.answers, request.copied()))
    }

    // Nothing is kept of a call outside its own future, so there is nothing to undo.
    fn cancel(&self, _number: u64) {}

    // False: no call, poll or cancel of these sites waits for another thread.
    fn may_wait(&self) -> bool
        ensures { result ≡ false }
    {
        false
    }

    // The table alone answers, and a call leaves nothing behind.
    fn goes_by_table(&self) -> bool
        ensures { result ≡ true }
    {
        true
    }
}
