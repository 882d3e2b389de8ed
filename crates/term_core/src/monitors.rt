//! The mark of a signal unit and the monitor that runs (Q.703 10).

ghost use Rattle.std.specs.Prelude.{◌≡◌};
ghost use Rattle.term_model.specs.Hearing.{judged};
ghost use Rattle.term_core.specs.Judging.{judgement, carried_out, by_aerm, by_suerm, JudgedAsTheModel};

use crate::inside::Inside;
use l2_align::State as AlignState;
use l2_state::State;

/// What a monitor finds at a mark.
#[derive(Clone, Copy, Debug, PartialEq, Eq)]
pub enum Verdict {
    /// Nothing is to be done, or no monitor runs.
    Fine,
    /// The alignment error rate monitor has tripped: the proving is to be aborted (Q.703 10.3).
    Abort,
    /// The signal unit error rate monitor has tripped: the link has failed (Q.703 10.2).
    Failed,
}

impl Inside {
    /// Tells the monitor that runs of one more mark, an error or not: AERM in a proving, SUERM where the link is ready
    /// or in service, else none (Q.703 10).
    pub fn judge(&mut self, error: bool) -> Verdict
        ensures after { self.new ≡ (judgement error self.old).after }
        ensures verdict { result ≡ (judgement error self.old).verdict }
        ensures talk { judged error self.old ≡ carried_out result self.new }
    {
        if self.align.state() == AlignState::Proving {
            return self.judge_proving(error);
        }
        match self.state.state() {
            State::OutOfService | State::Aligning => Verdict::Fine,
            State::Ready | State::InService { .. } => self.judge_service(error),
        }
    }

    /// Tells the monitor of the proving, if one runs (Q.703 10.3).
    fn judge_proving(&mut self, error: bool) -> Verdict
        ensures after { self.new ≡ (by_aerm self.old.aerm error self.old).after }
        ensures verdict { result ≡ (by_aerm self.old.aerm error self.old).verdict }
    {
        if let Some(aerm) = &mut self.aerm {
            if aerm.mark(error) {
                return Verdict::Abort;
            }
        }
        Verdict::Fine
    }

    /// Tells the monitor of service, if one runs (Q.703 10.2).
    fn judge_service(&mut self, error: bool) -> Verdict
        ensures after { self.new ≡ (by_suerm self.old.suerm error self.old).after }
        ensures verdict { result ≡ (by_suerm self.old.suerm error self.old).verdict }
    {
        if let Some(suerm) = &mut self.suerm {
            if suerm.mark(error) {
                return Verdict::Failed;
            }
        }
        Verdict::Fine
    }
}

/// A law about definitions: the model's talk on a mark is what the verdict asks for, once the monitor was told.
pub fn judging_is_the_models()
    ensures { JudgedAsTheModel }
{}
