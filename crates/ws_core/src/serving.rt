//! What concerns the services: builds and saves, by one pass at a time.
ghost use Rattle.std.specs.Prelude.{◌≡◌, ◌&&◌, ◌∷◌, [], true, Some, IfOk, IsOk, OnErr, None as nothing};
ghost use Rattle.std.specs.Option.{option_copied};
ghost use Rattle.proj_desc.specs.FirstCause.{first_cause};
ghost use Rattle.pass_table.specs.Passes.{is_quiet, serves};
ghost use Rattle.core_event.specs.declared.event.Event.TheVariants.{Service};
ghost use Rattle.core_event.specs.declared.reply.Answer.TheVariants as answers;
ghost use Rattle.core_event.specs.declared.service.Purpose.TheVariants as purposes;
ghost use Rattle.core_event.specs.declared.service.ServiceEvent.TheVariants.{Checkout, CheckIn, Handed, Commit, Clean, Saving};
ghost use Rattle.core_event.specs.Twice.{doubled, twice};
ghost use Rattle.save_kind.specs.declared.kind.SaveKind.{SaveKind};
ghost use Rattle.builder_api.specs.declared.kind.BuildKind.{BuildKind};
ghost use Rattle.service_desk.specs.Desks.{is_building, may_end};
ghost use Rattle.service_desk.specs.Judging.{Judges};
ghost use Rattle.service_desk.specs.Refusals.{not_serving, scope_causes, services_out, unrooted};
ghost use Rattle.ws_core.specs.Effects.{hand, keep_states};
ghost use Rattle.ws_core.specs.Ends.{ChecksIn};
ghost use Rattle.ws_core.specs.Inside.Parts.{Tells};
ghost use Rattle.ws_core.specs.Refusals.{current, no_build, service_causes};
ghost use Rattle.ws_core.specs.Steps.{step};

use crate::stepping::refuse;
use crate::{Answer, Apart, NoMemory, Refusal, Reply, State, Twice};
use build_due::Site;
use build_plan::plan_of;
use builder_api::{BuildKind, Edits};
use core_event::{Outcomes, Purpose, ServiceEvent, answer_twice, done_twice, untold};
use res_path::Name;
use save_kind::PartStates;
use service_desk::{ServiceError, check_home, check_rooted, check_scope, check_serving, site_for};
use std::alloc::{AllocError, Global};
use tree_memory::Remembers;

impl<T: Remembers + Drop> State<T> {
    /// Does what concerns the services, or refuses it.
    pub(crate) fn serve(
        &mut self,
        alloc: Global,
        pass: u64,
        event: &ServiceEvent,
        wants_copy: bool,
    ) -> Result<Twice<Reply>, NoMemory>
        requires { is_quiet self.old.manager.passes ≡ true → self.old.remembered.told ≡ self.old.resources.tree }
        ensures ok { IfOk result (λ r. (self.new, r) ≡ doubled wants_copy (step self.old pass (Service event.now))) }
        ensures err { OnErr result (self.new ≡ self.old) }
        ensures checks_in { ChecksIn self.old pass (Service event.now) → IsOk result }
    {
        match event {
            ServiceEvent::Checkout(purpose) => self.check_out(alloc, pass, purpose, wants_copy),
            ServiceEvent::CheckIn(outcome) => self.check_in(alloc, pass, outcome, wants_copy),
            ServiceEvent::Handed(project, index, kind) => {
                self.hand(alloc, pass, project, *index, *kind, wants_copy)
            }
            ServiceEvent::Commit(edits) => self.commit(alloc, pass, edits, wants_copy),
            ServiceEvent::Clean(project, index) => {
                self.clean(alloc, pass, project, *index, wants_copy)
            }
            ServiceEvent::Saving(states) => self.keep(alloc, pass, states, wants_copy),
        }
    }

    /// The pass takes the services.
    fn check_out(
        &mut self,
        alloc: Global,
        pass: u64,
        purpose: &Purpose,
        wants_copy: bool,
    ) -> Result<Twice<Reply>, NoMemory>
        requires { is_quiet self.old.manager.passes ≡ true → self.old.remembered.told ≡ self.old.resources.tree }
        ensures ok { IfOk result (λ r. (self.new, r) ≡ doubled wants_copy (step self.old pass (Service (Checkout purpose.now)))) }
        ensures err { OnErr result (self.new ≡ self.old) }
    {
        match self.checkout_allowed(alloc, pass, purpose) {
            Ok(()) => self.check_out_allowed(alloc, pass, purpose, wants_copy),
            Err(error) => refuse_for(alloc, error, wants_copy),
        }
    }

    /// Refused where the pass may not take the services for this.
    fn checkout_allowed(
        &self,
        alloc: Global,
        pass: u64,
        purpose: &Purpose,
    ) -> Result<(), ServiceError>
        ensures { Judges (first_cause (service_causes self.now pass (Checkout purpose.now))) result }
    {
        match purpose {
            Purpose::Build(_, project) => self.build_allowed(alloc, pass, project.as_ref()),
            Purpose::Save(_) => check_home(&self.manager.passes),
        }
    }

    /// Refused where the pass may not take the services for a build of the project, or of the whole workspace.
    fn build_allowed(
        &self,
        alloc: Global,
        pass: u64,
        project: Option<&Name>,
    ) -> Result<(), ServiceError>
        ensures { Judges (first_cause (unrooted self.now.manager.passes.rules pass ∷ services_out self.now.manager.passes ∷ scope_causes self.now.resources.tree (option_copied project.entry))) result }
    {
        check_rooted(alloc, &self.manager.passes, pass)?;
        check_home(&self.manager.passes)?;
        check_scope(alloc, self.content.tree(), project)
    }

    /// The pass, which may, takes the services.
    fn check_out_allowed(
        &mut self,
        alloc: Global,
        pass: u64,
        purpose: &Purpose,
        wants_copy: bool,
    ) -> Result<Twice<Reply>, NoMemory>
        requires quiet { is_quiet self.old.manager.passes ≡ true → self.old.remembered.told ≡ self.old.resources.tree }
        requires allowed { first_cause (service_causes self.old pass (Checkout purpose.now)) ≡ nothing }
        ensures ok { IfOk result (λ r. (self.new, r) ≡ doubled wants_copy (step self.old pass (Service (Checkout purpose.now)))) }
        ensures err { OnErr result (self.new ≡ self.old) }
    {
        match purpose {
            Purpose::Build(_, project) => {
                self.begin_build(alloc, pass, purpose, project.as_ref(), wants_copy)
            }
            Purpose::Save(_) => self.begin_save(pass, purpose, wants_copy),
        }
    }

    /// The pass, which may, takes the services for a build of the project, or of the whole workspace, and is answered the
    /// plan.
    fn begin_build(
        &mut self,
        alloc: Global,
        pass: u64,
        purpose: &Purpose,
        project: Option<&Name>,
        wants_copy: bool,
    ) -> Result<Twice<Reply>, NoMemory>
        requires quiet { is_quiet self.old.manager.passes ≡ true → self.old.remembered.told ≡ self.old.resources.tree }
        requires allowed { first_cause (service_causes self.old pass (Checkout purpose.now)) ≡ nothing }
        requires build { (kind : BuildKind) × (purpose.now ≡ purposes.Build kind (option_copied project)) }
        ensures ok { IfOk result (λ r. (self.new, r) ≡ doubled wants_copy (step self.old pass (Service (Checkout purpose.now)))) }
        ensures err { OnErr result (self.new ≡ self.old) }
    {
        let plan = plan_of(alloc, self.content.tree(), project)?;
        let apart = Apart::of(alloc, plan)?;
        let answer = answer_twice(Answer::Plan(apart), wants_copy)?;
        self.manager.passes.check_out(pass);
        self.desk.take_out(purpose);
        Ok(untold(answer))
    }

    /// The pass, which may, takes the services for a save, which is under way from now on.
    fn begin_save(
        &mut self,
        pass: u64,
        purpose: &Purpose,
        wants_copy: bool,
    ) -> Result<Twice<Reply>, NoMemory>
        requires quiet { is_quiet self.old.manager.passes ≡ true → self.old.remembered.told ≡ self.old.resources.tree }
        requires allowed { first_cause (service_causes self.old pass (Checkout purpose.now)) ≡ nothing }
        requires save { (kind : SaveKind) × (purpose.now ≡ purposes.Save kind) }
        ensures ok { IfOk result (λ r. (self.new, r) ≡ doubled wants_copy (step self.old pass (Service (Checkout purpose.now)))) }
        ensures err { OnErr result (self.new ≡ self.old) }
    {
        self.content.begin_save()?;
        self.manager.passes.check_out(pass);
        self.desk.take_out(purpose);
        Ok(untold(done_twice(wants_copy)))
    }

    /// The pass gives the services back. It takes no memory where the pass has them and may give them back so.
    fn check_in(
        &mut self,
        alloc: Global,
        pass: u64,
        outcome: &Outcomes,
        wants_copy: bool,
    ) -> Result<Twice<Reply>, NoMemory>
        requires { is_quiet self.old.manager.passes ≡ true → self.old.remembered.told ≡ self.old.resources.tree }
        ensures ok { IfOk result (λ r. (self.new, r) ≡ doubled wants_copy (step self.old pass (Service (CheckIn outcome.now)))) }
        ensures err { OnErr result (self.new ≡ self.old) }
        ensures never { (serves self.old.manager.passes pass && may_end self.old.desk.serving outcome.now) ≡ true → IsOk result }
    {
        if !self.may_check_in(pass, outcome) {
            let holder = self.manager.passes.services();
            return refuse(alloc, Refusal::NotServices(holder), wants_copy);
        }
        self.content.end_save(alloc, outcome);
        self.manager.passes.check_in();
        self.desk.put_back();
        Ok(untold(done_twice(wants_copy)))
    }

    /// Whether the pass has the services and may give them back so.
    pub(crate) fn may_check_in(&self, pass: u64, outcome: &Outcomes) -> bool
        ensures { result ≡ (serves self.now.manager.passes pass && may_end self.now.desk.serving outcome.now) }
    {
        self.manager.passes.serves(pass) && self.desk.may_end(outcome)
    }

    /// What is due is handed for the command.
    fn hand(
        &mut self,
        alloc: Global,
        pass: u64,
        project: &Name,
        index: u16,
        kind: BuildKind,
        wants_copy: bool,
    ) -> Result<Twice<Reply>, NoMemory>
        requires { is_quiet self.old.manager.passes ≡ true → self.old.remembered.told ≡ self.old.resources.tree }
        ensures ok { IfOk result (λ r. (self.new, r) ≡ doubled wants_copy (step self.old pass (Service (Handed project.now index kind)))) }
        ensures err { OnErr result (self.new ≡ self.old) }
    {
        let found = site_for(
            alloc,
            &self.manager.passes,
            self.content.tree(),
            &self.desk,
            pass,
            project,
            index,
        );
        match found {
            Ok(site) => self.hand_to(alloc, site, kind, wants_copy),
            Err(error) => refuse_for(alloc, error, wants_copy),
        }
    }

    /// What is due is handed for the command at its place, which is under way from now on.
    fn hand_to(
        &mut self,
        alloc: Global,
        site: Site,
        kind: BuildKind,
        wants_copy: bool,
    ) -> Result<Twice<Reply>, NoMemory>
        ensures ok { IfOk result (λ r. (self.new, r) ≡ doubled wants_copy ((hand self.old (Some site) kind).0, record { answer = (hand self.old (Some site) kind).1; notice = nothing })) }
        ensures err { OnErr result (self.new ≡ self.old) }
    {
        let handed = self.content.hand(alloc, &site, kind)?;
        let handed = Apart::of(alloc, handed)?;
        let answer = answer_twice(Answer::Handed(handed), wants_copy)?;
        let Site { project, index, .. } = site;
        self.desk.begin(project, index);
        Ok(untold(answer))
    }

    /// The edits are made for the command under way.
    fn commit(
        &mut self,
        alloc: Global,
        pass: u64,
        edits: &Edits,
        wants_copy: bool,
    ) -> Result<Twice<Reply>, NoMemory>
        requires { is_quiet self.old.manager.passes ≡ true → self.old.remembered.told ≡ self.old.resources.tree }
        ensures ok { IfOk result (λ r. (self.new, r) ≡ doubled wants_copy (step self.old pass (Service (Commit edits.now)))) }
        ensures err { OnErr result (self.new ≡ self.old) }
    {
        match self.site_under_way(alloc, pass) {
            Ok(site) => {
                let tells = self.manager.passes.is_quiet();
                self.content.commit(alloc, &site, edits, tells, wants_copy)
            }
            Err(error) => refuse_for(alloc, error, wants_copy),
        }
    }

    /// The command under way. Refused where the pass hasn't the services for a build, where no command is under way, and where
    /// the pass hasn't the rule of the root.
    fn site_under_way(&self, alloc: Global, pass: u64) -> Result<Site, ServiceError>
        ensures judged { Judges (first_cause (not_serving self.now.manager.passes (is_building self.now.desk.serving) pass ∷ no_build (current self.now) ∷ unrooted self.now.manager.passes.rules pass ∷ [])) result }
        ensures site { IfOk result (λ site. current self.now ≡ Some site) }
    {
        let passes = &self.manager.passes;
        check_serving(passes, self.desk.is_building(), pass)?;
        let Some(site) = self.desk.site(alloc, self.content.tree())? else {
            return Err(ServiceError::Refused(Refusal::NoBuild));
        };
        match check_rooted(alloc, passes, pass) {
            Ok(()) => Ok(site),
            Err(error) => Err(error),
        }
    }

    /// What the command has made goes.
    fn clean(
        &mut self,
        alloc: Global,
        pass: u64,
        project: &Name,
        index: u16,
        wants_copy: bool,
    ) -> Result<Twice<Reply>, NoMemory>
        requires { is_quiet self.old.manager.passes ≡ true → self.old.remembered.told ≡ self.old.resources.tree }
        ensures ok { IfOk result (λ r. (self.new, r) ≡ doubled wants_copy (step self.old pass (Service (Clean project.now index)))) }
        ensures err { OnErr result (self.new ≡ self.old) }
    {
        let found = site_for(
            alloc,
            &self.manager.passes,
            self.content.tree(),
            &self.desk,
            pass,
            project,
            index,
        );
        match found {
            Ok(site) => {
                let tells = self.manager.passes.is_quiet();
                let replied = self.content.clean(alloc, &site, tells, wants_copy)?;
                self.desk.rest();
                Ok(replied)
            }
            Err(error) => refuse_for(alloc, error, wants_copy),
        }
    }

    /// The states of participants are kept.
    fn keep(
        &mut self,
        alloc: Global,
        pass: u64,
        states: &PartStates,
        wants_copy: bool,
    ) -> Result<Twice<Reply>, NoMemory>
        requires { is_quiet self.old.manager.passes ≡ true → self.old.remembered.told ≡ self.old.resources.tree }
        ensures ok { IfOk result (λ r. (self.new, r) ≡ doubled wants_copy (step self.old pass (Service (Saving states.now)))) }
        ensures err { OnErr result (self.new ≡ self.old) }
    {
        match check_serving(&self.manager.passes, self.desk.is_saving(), pass) {
            Ok(()) => self.keep_allowed(alloc, states, wants_copy),
            Err(error) => refuse_for(alloc, error, wants_copy),
        }
    }

    /// The states are kept in the save that is under way.
    fn keep_allowed(
        &mut self,
        alloc: Global,
        states: &PartStates,
        wants_copy: bool,
    ) -> Result<Twice<Reply>, NoMemory>
        ensures ok { IfOk result (λ r. (self.new, r) ≡ doubled wants_copy ((keep_states self.old states.now).0, record { answer = (keep_states self.old states.now).1; notice = nothing })) }
        ensures err { OnErr result (self.new ≡ self.old) }
    {
        self.content.keep_states(alloc, states)?;
        self.desk.keep_states();
        Ok(untold(done_twice(wants_copy)))
    }
}

/// The reply to an event that is refused so, which tells nothing.
fn refuse_for(
    alloc: Global,
    error: ServiceError,
    wants_copy: bool,
) -> Result<Twice<Reply>, NoMemory>
    ensures { IfOk result (Tells wants_copy error) }
{
    match error {
        ServiceError::Refused(refusal) => refuse(alloc, refusal, wants_copy),
        ServiceError::Memory => Err(AllocError),
    }
}
