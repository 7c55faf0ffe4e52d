//! The updates that are owed while a new key set is handed out.
ghost use Rattle.std.specs.Prelude.{◌≡◌, ℕ, List, ⊤, MatchOption};
ghost use Rattle.edge_traits.specs.declared.names.PledgeId.{PledgeId as Id};
ghost use Rattle.journal_text.specs.declared.entry.Entry.{Entry as AnEntry};
ghost use Rattle.join_history.specs.Times as times;
ghost use Rattle.join_history.specs.Phases.{phase, IsSpreading};
ghost use Rattle.join_history.specs.Updates.{Waits, IsJob, IsFirstWaiting};
ghost use Rattle.registrar_state.specs.State.{StandsFor};

use crate::answer::link_keys;
use crate::state::RegState;
use edge_traits::PledgeId;
use join_history::Job;
use key_sets::Phase;

/// The epoch that is being handed out.
pub(crate) fn spread_epoch(phase: &Phase) -> Option<u32>
    ensures { MatchOption result ((epoch : ℕ) → IsSpreading phase.now epoch → ⊥) (IsSpreading phase.now) }
{
    match phase {
        Phase::Spreading(_, new) => Some(new.epoch),
        _ => None,
    }
}

impl RegState {
    /// The update of this epoch that is owed to the pledge at this time.
    fn job_of(&self, id: PledgeId, epoch: u32, at: u64) -> Option<Job>
        ensures { (h : List AnEntry) → StandsFor self.now h → IsSpreading (phase h) epoch
            → MatchOption result (Waits h at id epoch → ⊥) (IsJob h at id) }
    {
        match self.pledges.last_grant(id) {
            None => None,
            Some(last) => {
                if self.pledges.waits(id, epoch, at) {
                    Some(Job {
                        context: last.context,
                        id,
                        epoch,
                        address: last.address,
                        keys: link_keys(&self.phase),
                    })
                } else {
                    None
                }
            }
        }
    }

    /// The update that is owed to the pledge when the clock says `now`.
    pub fn job_for(&self, id: PledgeId, now: u64) -> Option<Job>
        ensures { (h : List AnEntry) → StandsFor self.now h
            → MatchOption result ((epoch : ℕ) → Waits h (times.moment h now) id epoch → ⊥) (IsJob h (times.moment h now) id) }
    {
        match spread_epoch(&self.phase) {
            None => None,
            Some(epoch) => self.job_of(id, epoch, self.moment(now)),
        }
    }

    /// The first pledge, in the order of identifiers, that waits for keys when the clock says `now`.
    pub fn waiting(&self, now: u64) -> Option<PledgeId>
        ensures { (h : List AnEntry) → StandsFor self.now h
            → MatchOption result ((p : Id) (epoch : ℕ) → Waits h (times.moment h now) p epoch → ⊥)
            (IsFirstWaiting h (times.moment h now)) }
    {
        match spread_epoch(&self.phase) {
            None => None,
            Some(_epoch) => self.pledges.first_waiting(self.moment(now)),
        }
    }
}
