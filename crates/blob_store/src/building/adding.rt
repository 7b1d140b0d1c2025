//! A blob comes: one with a plan, or one that breaks at its line.
ghost use Rattle.std.specs.Prelude.{OnOk};
ghost use Rattle.blob_store.specs.Adding.{Breaks, CanAdd, CanBreak, IsAdded};
ghost use Rattle.blob_store.specs.Whole.{with_line, IsWhole};

use crate::parts::Parts;
use blob_words::{BlobName, NoMemory, Plan, RendererId, Status};
use session_script::Part;

impl Parts {
    // The items of a blob with a plan come, its entry and its row.
    #[tactic(auto, unfolding(crate::specs::Whole::IsWhole))]
    fn place_blob(
        &mut self,
        renderer: RendererId,
        name: BlobName,
        kind: &[u8],
        plan: Plan,
        parts: &[Part],
    ) -> Result<(), NoMemory>
        requires whole { IsWhole self.old }
        requires can { CanAdd renderer name plan parts.now self.old }
        ensures { OnOk result (IsAdded renderer name kind.now plan parts.now self.old self.new) }
    {
        let _count = self.registry.registered(); // says that there are as many names as entries
        let first = self.homes.len() as u32;
        let weight = self.line_weight(parts) as u64;
        let laid = self.lay(name, plan, parts)?;
        let arrival = self.arrival(plan, weight, first, parts, laid)?;
        self.enter(renderer, name, kind, arrival)?;
        Ok(())
    }

    /// A blob comes whose plan is this: its items, its entry and its row.
    #[tactic(auto, unfolding(crate::specs::Whole::IsWhole))]
    pub(crate) fn add_planned(
        &mut self,
        renderer: RendererId,
        name: BlobName,
        kind: &[u8],
        plan: Plan,
        parts: &[Part],
    ) -> Result<(), NoMemory>
        requires whole { IsWhole self.old }
        requires can { CanAdd renderer name plan parts.now self.old }
        ensures whole { OnOk result (IsWhole (with_line self.new)) }
        ensures added { OnOk result
            (IsAdded renderer name kind.now plan parts.now self.old self.new) }
    {
        let _count = self.registry.registered(); // says that there are as many names as entries
        self.place_blob(renderer, name, kind, plan, parts)?;
        Ok(())
    }

    /// A blob comes that breaks at its line: an entry without bytes, and its row.
    #[tactic(auto, unfolding(crate::specs::Whole::IsWhole))]
    pub(crate) fn add_broken(
        &mut self,
        renderer: RendererId,
        name: BlobName,
        kind: &[u8],
        why: Status,
        parts: &[Part],
    ) -> Result<(), NoMemory>
        requires whole { IsWhole self.old }
        requires can { CanBreak renderer name why self.old }
        ensures whole { OnOk result (IsWhole (with_line self.new)) }
        ensures breaks { OnOk result
            (Breaks renderer name kind.now why parts.now self.old self.new) }
    {
        let _count = self.registry.registered(); // says that there are as many names as entries
        let arrival = self.broken_arrival(why, parts)?;
        self.enter(renderer, name, kind, arrival)?;
        Ok(())
    }
}
