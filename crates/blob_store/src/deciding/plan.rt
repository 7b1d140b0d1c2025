//! The plan of a blob's own bytes.
ghost use Rattle.std.specs.Prelude.{◌≡◌, ◌≤◌, ◌^◌, IfOk};
ghost use Rattle.blob_model.specs.Parts.{parts_length};
ghost use Rattle.transport_plan.specs.Plan.{FitsPlan};
ghost use Rattle.store_laws.specs.Deciding.{input_in, plan_in};
ghost use Rattle.blob_store.specs.Seen.{parts_of};

use crate::parts::Parts;
use blob_words::{NoMemory, Plan};
use history_notions::parts::{embedded_len, own_bytes, own_lengths};
use session_script::Part;
use transport_plan::{PlanInput, pieces_of, plan};

impl Parts {
    // What the table of plans looks at.
    fn plan_input(&self, parts: &[Part]) -> Result<PlanInput, NoMemory>
        requires { parts_length parts.now ≤ 2 ^ 62 }
        ensures { IfOk result (λ input. input ≡ input_in (parts_of self.now) parts.now) }
    {
        let lengths = own_lengths(self.alloc, parts)?;
        let embedded = embedded_len(parts);
        let own = own_bytes(parts);
        Ok(PlanInput {
            embedded: embedded as u64,
            asked: (own - embedded) as u64,
            pieces: pieces_of(lengths.as_slice(), self.limits.page),
            waiting: self.quota.waiting() > 0,
            paging: self.pages.paging(),
            memory_used: self.quota.used(),
            disk_used: self.pages.charged(),
            limits: self.limits,
        })
    }

    /// The plan of the own bytes.
    pub(crate) fn plan_for(&self, parts: &[Part]) -> Result<Plan, NoMemory>
        requires { parts_length parts.now ≤ 2 ^ 62 }
        ensures value { IfOk result (λ plan. plan ≡ plan_in (parts_of self.now) parts.now) }
        ensures fits { IfOk result (λ plan.
            FitsPlan (input_in (parts_of self.now) parts.now) plan) }
    {
        let input = self.plan_input(parts)?;
        Ok(plan(&input))
    }
}
