//! Calls are carried out.
ghost use Rattle.std.specs.Prelude.{◌≡◌, None, IfOk};
ghost use Rattle.session.specs.Sessions.{state_of, OpeningOutcome, AfterOpening, Called, After};

use crate::bank_session::Session;
use crate::objection::Objection;
use bench::{
    bank_line, clear_line, hold_line, read_line, regs_line, restore_line, set_line, take_line,
};
use calls::Call;
use lineup::{Built, bank_of};
use std::alloc::{AllocError, Global};

impl Session {
    /// A session in which no bank is open.
    pub fn new() -> Session
        ensures { state_of result ≡ None }
    {
        Session { open: None }
    }

    /// Opens the bank that a text asks for.
    fn open_bank(
        &mut self,
        heap: Global,
        id: &str,
        plan: &str,
    ) -> Result<Result<String, Objection>, AllocError>
        ensures outcome { IfOk result (λ o. OpeningOutcome id.now plan.now o) }
        ensures after { AfterOpening plan.now (state_of self.old) (state_of self.new) }
    {
        let Some(built) = bank_of(plan.as_bytes()) else {
            return Ok(Err(Objection::NoSuchBank));
        };
        let built = self.open.insert(built);
        Ok(Ok(bank_line(heap, id, &built.bank)?))
    }

    /// Carries a call out and answers it with a line, or refuses it.
    // A result in a result: an objection is an answer, beside which memory may run out; one error of both would be taken apart again by the caller.
    pub fn call(
        &mut self,
        heap: Global,
        call: Call,
    ) -> Result<Result<String, Objection>, AllocError>
        ensures outcome { IfOk result (λ o. Called call (state_of self.old) o) }
        ensures after { After call (state_of self.old) (state_of self.new) }
    {
        let Some(Built { bank, holds }) = &mut self.open else {
            return match call {
                Call::Bank { id, plan } => self.open_bank(heap, id.as_str(), plan.as_str()),
                _ => Ok(Err(Objection::NoBankIsOpen)),
            };
        };
        match call {
            Call::Bank { .. } => Ok(Err(Objection::BankIsOpen)),
            Call::Take { lane, byte } => Ok(Ok(take_line(heap, bank, lane, byte)?)),
            Call::Read { lane, place } => Ok(Ok(read_line(heap, bank, lane, place)?)),
            Call::Set { lane, place, byte } => Ok(Ok(set_line(heap, bank, lane, place, byte)?)),
            Call::Clear => Ok(Ok(clear_line(heap, bank)?)),
            Call::Hold | Call::Restore if !*holds => Ok(Err(Objection::NoCopy)),
            Call::Hold => Ok(Ok(hold_line(heap, bank)?)),
            Call::Restore => Ok(Ok(restore_line(heap, bank)?)),
            Call::Regs { lane } => Ok(Ok(regs_line(heap, bank, lane)?)),
            Call::End => {
                self.open = None;
                Ok(Ok(String::from_str(heap, "end")?))
            }
        }
    }
}
