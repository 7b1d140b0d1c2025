//! The judge of a transcript.
ghost use Rattle.std.specs.Prelude.{◌≡◌, ◌≢◌, None, [], Ok, IfOk, OnErr};
ghost use Rattle.blob_model.specs.Session.{Outside, Session};
ghost use Rattle.blob_model.specs.History.{History};
ghost use Rattle.blob_model.specs.Legal.{IsLegal};
ghost use Rattle.history_notions.specs.Silent.{outside_of};
ghost use Rattle.transcript_audit.specs.Runs.{FollowsRun, Keeps, AreRun, MayRun};
ghost use Rattle.transcript_audit.specs.Says.{Says, SaysNext};
ghost use Rattle.transcript_audit.specs.Audit.{new_audit};

use crate::judge::judge;
use crate::large::is_large;
use crate::run::{Run, begin, ends, replay};
use crate::verdict::Verdict;
use answer_text::{Group, Groups};
use blob_words::{ItemList, NoMemory, Octets64};
use std::alloc::Global;
use std::marker::Model;

/// A judge of a transcript, group by group, by the model alone. Contracts see what it has heard.
#[derive(Debug, Drop)]
pub struct Auditor {
    alloc: Global,
    sizes: Octets64,
    taken: Groups,
    run: Option<Run>,
    last: Verdict,
}

impl Model for Auditor {
    ghost use Rattle.blob_model.specs.Legal.{IsLegal};
    ghost use Rattle.history_notions.specs.Silent.{outside_of};
    ghost use Rattle.transcript_audit.specs.Runs.{MayRun};
    ghost use Rattle.transcript_audit.specs.Audit.{Audit};

    ghost Value = { Audit };

    ghost view = { λ auditor. record {
      sizes = auditor.sizes;
      taken = auditor.taken;
      last = auditor.last;
    } };

    ghost invariant = { λ auditor. IsLegal (outside_of auditor.sizes) auditor.taken
        × MayRun (outside_of auditor.sizes) auditor.taken auditor.run };
}

/// The verdict on the group after those that the run keeps. The run keeps them with it where it is
/// legal.
fn judge_next(run: &mut Run, group: &Group) -> Result<Verdict, NoMemory>
    ensures { IfOk result (λ verdict. (s : Session) (h : History) → FollowsRun s h run.old
        → SaysNext s h group.now run.new verdict) }
{
    let large = is_large(&run.course.contents, &group.event)?;
    if large {
        return Ok(Verdict::Large);
    }
    if run.ended {
        return Ok(Verdict::Illegal);
    }
    let legal = judge(&mut run.course, group)?;
    if !legal {
        return Ok(Verdict::Illegal);
    }
    run.ended = ends(&group.event, group.answers.as_slice());
    Ok(Verdict::Legal)
}

/// The verdict on the first group, which is taken where it is legal.
fn judge_first(
    alloc: Global,
    sizes: &[u64],
    taken: &mut Groups,
    run: &mut Option<Run>,
    group: Group,
) -> Result<Verdict, NoMemory>
    requires first { taken.old ≡ [] }
    requires none { run.old ≡ None }
    ensures says { IfOk result (Says (outside_of sizes.now) taken.old group taken.new) }
    ensures run { MayRun (outside_of sizes.now) taken.new run.new }
    ensures unmoved { OnErr result (taken.new ≡ taken.old) }
{
    let began = begin(alloc, sizes, &group)?;
    match began {
        Some(begun) => {
            taken.push(group)?;
            *run = Some(begun);
            Ok(Verdict::Legal)
        }
        None => Ok(Verdict::Illegal),
    }
}

/// The verdict on a later group, which is taken where it is legal.
fn judge_later(
    taken: &mut Groups,
    run: &mut Option<Run>,
    kept: Run,
    group: Group,
) -> Result<Verdict, NoMemory>
    requires none { run.old ≡ None }
    ensures says { IfOk result (λ verdict. (outside : Outside) → IsLegal outside taken.old
        → Keeps outside taken.old kept → Says outside taken.old group taken.new verdict) }
    ensures run { (outside : Outside) → IsLegal outside taken.old
        → Keeps outside taken.old kept → MayRun outside taken.new run.new }
    ensures unmoved { OnErr result (taken.new ≡ taken.old) }
{
    let mut next = kept;
    let verdict = judge_next(&mut next, &group)?;
    match verdict {
        Verdict::Legal => {
            taken.push(group)?;
            *run = Some(next);
            Ok(Verdict::Legal)
        }
        Verdict::Illegal => Ok(Verdict::Illegal),
        Verdict::Large => Ok(Verdict::Large),
    }
}

/// What is kept of the groups taken, by replaying them where it was let go.
fn take_run(
    alloc: Global,
    sizes: &[u64],
    taken: &[Group],
    run: &mut Option<Run>,
) -> Result<Option<Run>, NoMemory>
    requires legal { IsLegal (outside_of sizes.now) taken.now }
    requires run { MayRun (outside_of sizes.now) taken.now run.old }
    ensures run { IfOk result (AreRun (outside_of sizes.now) taken.now) }
    ensures none { run.new ≡ None }
{
    match run.take() {
        Some(kept) => Ok(Some(kept)),
        None => {
            let found = replay(alloc, sizes, taken)?;
            Ok(found)
        }
    }
}

/// The verdict on the next group, which is taken where it is legal.
fn judge_after(
    alloc: Global,
    sizes: &[u64],
    taken: &mut Groups,
    run: &mut Option<Run>,
    group: Group,
) -> Result<Verdict, NoMemory>
    requires legal { IsLegal (outside_of sizes.now) taken.old }
    requires run { MayRun (outside_of sizes.now) taken.old run.old }
    ensures says { IfOk result (Says (outside_of sizes.now) taken.old group taken.new) }
    ensures run { MayRun (outside_of sizes.now) taken.new run.new }
    ensures unmoved { OnErr result (taken.new ≡ taken.old) }
{
    let found = take_run(alloc, sizes, taken.as_slice(), run)?;
    match found {
        Some(kept) => {
            let verdict = judge_later(taken, run, kept, group)?;
            Ok(verdict)
        }
        None => {
            let verdict = judge_first(alloc, sizes, taken, run, group)?;
            Ok(verdict)
        }
    }
}

impl Auditor {
    /// A judge that has heard nothing, over data handles of these sizes, slot by slot, and a disk
    /// that tells what changes on it.
    pub fn new(alloc: Global, sizes: Octets64) -> Result<Auditor, NoMemory>
        ensures { IfOk result (λ auditor. auditor ≡ new_audit sizes) }
    {
        Ok(Auditor {
            alloc,
            sizes,
            taken: ItemList::new(alloc),
            run: None,
            last: Verdict::Legal,
        })
    }

    /// The verdict on the next group. A legal one is taken; after `Illegal` or `Large` each call
    /// answers the same. For want of memory the judge is as before.
    pub fn next(&mut self, group: Group) -> Result<Verdict, NoMemory>
        ensures says { self.old.last ≡ Verdict.Legal → IfOk result
            (Says (outside_of self.old.sizes) self.old.taken group self.new.taken) }
        ensures again { self.old.last ≢ Verdict.Legal
            → (result ≡ Ok self.old.last) × (self.new ≡ self.old) }
        ensures last { IfOk result (λ verdict. self.new.last ≡ verdict) }
        ensures sizes { self.new.sizes ≡ self.old.sizes }
        ensures unmoved { OnErr result (self.new ≡ self.old) }
    {
        if self.last != Verdict::Legal {
            return Ok(self.last);
        }
        let sizes = self.sizes.as_slice();
        let taken = &mut self.taken;
        let verdict = judge_after(self.alloc, sizes, taken, &mut self.run, group)?;
        self.last = verdict;
        Ok(verdict)
    }
}
