//! An open workspace.
ghost use Rattle.std.specs.Prelude.{◌≡◌, ◌≤◌, ◌<◌, ◌+◌, ◌-◌, ℕ, [], take, length, slice_get, true, IfOk, IsOk, IsErr, Ok, OnOk, OnErr, option_copied, vec_len, vec_capacity};
ghost use Rattle.sched_rules.specs.Atoms.{atom_contains, atom_conflicts};
ghost use Rattle.rule_table.specs.Tables.{IsApart, outer_rule};
ghost use Rattle.delta_kind.specs.Deltas.{delta, TellsContents};
ghost use Rattle.ws_elem.specs.Trees.{fresh_tree};
ghost use Rattle.job_queue.specs.Queues.{live};
ghost use Rattle.core_event.specs.Twice.{twice};
ghost use Rattle.ws_core.specs.Steps.{step};
ghost use Rattle.ws_core.specs.Durables.{durable_of, kept_since};
ghost use Rattle.ws_core.specs.Histories.{entry_of, fresh, fresh_for, has_entered, Legal, notices, replay, told_of, written};
ghost use Rattle.ws_core.specs.Sessions.{IsConsistent};
ghost use Rattle.ws_core.specs.Opened.{IsOpenable, opened_of};
ghost use Rattle.ws_durable.specs.Saved.{saved};
ghost use Rattle.ws_core.specs.Ends.{ChecksIn};
ghost use Rattle.ws_core.specs.Inside.Rooms.{Fits, HasRoom, IsKept};
ghost use Rattle.job_manager.specs.Ends.{EndsLast};

use crate::{Entry, Event, History, NoMemory, Reply, ServiceEvent, State, Twice, WsRule};
use delta_kind::Delta;
use elem_tree::LayerTree;
use rule_table::RuleTable;
use save_round::KeptState;
use sched_rules::WsAtom;
use service_desk::BuilderNames;
use std::alloc::{AllocError, Global};
use std::marker::Model;
use std::snapshot::Snapshot;
use tree_memory::Remembers;
use ws_durable::Durable;
use ws_elem::ElemMap;

/// How many jobs there are.
#[derive(Clone, Copy, Debug, PartialEq, Eq)]
pub struct JobCount {
    /// Those that wait or are run.
    pub live: u64,
    /// Those that were finished.
    pub finished: u64,
}

/// An open workspace: its state, with the history of what was done since it was opened. A contract sees the opened
/// state, the history and the state.
///
/// At every moment the history is a legal one from the opened state, and the state is what it leads to. The trees are
/// whole, those that are remembered too, and the tree would be so with every closed project opened; files with equal
/// stamps have equal contents in all of them; and each number is below its counter. Each rule that a pass holds is
/// within each non-null one that it began before, and no rules of two passes conflict.
///
/// There is room for an entry for each rule that is held, and for one more while a pass has the services: so a rule is
/// ended without memory, and so is a build or a save.
#[derive(Drop)]
pub struct Core<T: Remembers + Drop> {
    state: State<T>,
    entries: Vec<Entry>,
    opened: Snapshot<State<T>>,
}

impl<T: Remembers + Drop> Model for Core<T> {
    ghost use Rattle.std.specs.Prelude.{◌≡◌, List, refl, vec_len, vec_capacity};
    ghost use Rattle.std.specs.Coded.{code_by, coded×, coded_list};
    ghost use Rattle.core_event.specs.declared.entry.Entry.{Entry};
    ghost use Rattle.ws_core.specs.States.{Moment};
    ghost use Rattle.core_event.specs.contracts.entry.Entry as of_entry;
    ghost use Rattle.ws_elem.specs.contracts.element.Element as element;
    ghost use Rattle.proj_desc.specs.contracts.command.Command as command;
    ghost use Rattle.job_manager.specs.contracts.manager.JobManager as job_manager;
    ghost use Rattle.service_desk.specs.contracts.desk.Desk as desk_row;
    ghost use Rattle.ws_core.specs.Inside.Codes.{moment_code};
    ghost use Rattle.ws_core.specs.Sessions.{Session, IsSession};
    ghost use Rattle.ws_core.specs.Inside.Rooms.{Fits};

    ghost Value = { Session };

    ghost coded = { code_by
        (Moment × (List Entry × Moment))
        (coded× (moment_code element.the_row.coded command.the_row.coded job_manager.the_row.coded desk_row.the_row.coded)
        (coded× (coded_list of_entry.the_row.coded) (moment_code element.the_row.coded command.the_row.coded job_manager.the_row.coded desk_row.the_row.coded)))
        (λ x. (x.opened, (x.history, x.state)))
        (λ p. record { opened = p.0; history = p.1.0; state = p.1.1 })
        (λ _. refl) };

    ghost view = { λ c. record { opened = c.opened.value; history = c.entries.items; state = c.state } };

    ghost invariant = { λ c. IsSession (record { opened = c.opened.value; history = c.entries.items; state = c.state })
        × Fits c.state.manager.passes (vec_len c.entries) (vec_capacity c.entries) };
}

impl Core<LayerTree> {
    /// The fresh workspace, in which nothing was done: the root alone, as node 1, and pass 0. It has no builders. Its tree
    /// remembers by marks.
    pub fn fresh(alloc: Global) -> Result<Core<LayerTree>, NoMemory>
        ensures opened { IfOk result (λ core. core.opened ≡ fresh) }
        ensures history { IfOk result (λ core. core.history ≡ []) }
        ensures state { IfOk result (λ core. core.state ≡ fresh) }
    {
        let tree = ElemMap::fresh(alloc)?;
        Core::over(
            alloc,
            LayerTree::of(alloc, tree),
            BuilderNames::empty(alloc),
        )
    }

    /// The workspace opened from what was kept, in which nothing was done, with builders of these names: its tree is told,
    /// and what was built last and what participants keep is remembered with its trees, each by what differs from the next.
    /// No save is under way. Costs a walk of each tree.
    pub fn of(
        alloc: Global,
        durable: Durable,
        builders: BuilderNames,
    ) -> Result<Core<LayerTree>, NoMemory>
        requires { IsOpenable (saved durable) }
        ensures opened { IfOk result (λ core. core.opened ≡ opened_of (saved durable) builders) }
        ensures history { IfOk result (λ core. core.history ≡ []) }
        ensures state { IfOk result (λ core. core.state ≡ opened_of (saved durable) builders) }
    {
        let state = State::opened(alloc, durable, builders)?;
        let opened = Snapshot::of(&state);
        Ok(Core {
            state,
            entries: Vec::new(alloc),
            opened,
        })
    }
}

impl<T: Remembers + Drop> Core<T> {
    /// The fresh workspace over any tree that remembers, with builders of these names.
    pub fn over(alloc: Global, tree: T, builders: BuilderNames) -> Result<Core<T>, NoMemory>
        requires { T.tree tree ≡ fresh_tree }
        ensures opened { IfOk result (λ core. core.opened ≡ fresh_for builders) }
        ensures history { IfOk result (λ core. core.history ≡ []) }
        ensures state { IfOk result (λ core. core.state ≡ fresh_for builders) }
    {
        let state = State::fresh(alloc, tree, builders)?;
        let opened = Snapshot::of(&state);
        Ok(Core {
            state,
            entries: Vec::new(alloc),
            opened,
        })
    }

    /// Does the event of a pass that has entered and hasn't left, writes it into the history with its reply, and gives
    /// the reply. An event that only found that it must wait leaves no entry: a Take that is answered that no job is
    /// there, and one that is refused since another pass's rule is in the way, but for the form that doesn't wait. Where
    /// memory wants, nothing was done; it never wants where a rule is ended that the pass began last, and where the pass that
    /// has the services gives them back as it may.
    pub fn step(&mut self, alloc: Global, pass: u64, event: Event) -> Result<Reply, NoMemory>
        requires { has_entered pass self.old.state ≡ true }
        ensures opened { self.new.opened ≡ self.old.opened }
        ensures state { OnOk result (self.new.state ≡ (step self.old.state pass event).0) }
        ensures reply { IfOk result (λ reply. reply ≡ (step self.old.state pass event).1) }
        ensures history { OnOk result (self.new.history ≡ written self.old.history (entry_of self.old.state pass event)) }
        ensures err { OnErr result (self.new ≡ self.old) }
        ensures never { EndsLast self.old.state.manager.passes.rules pass event → IsOk result }
        ensures checks_in { ChecksIn self.old.state pass event → IsOk result }
    {
        match advance(&mut self.state, &mut self.entries, alloc, pass, event, true)? {
            Some(reply) => Ok(reply),
            None => unreachable!(),
        }
    }

    /// As `step`, for who asks `last` for the reply: no reply is copied. Memory never wants in the same two cases.
    pub fn perform(&mut self, alloc: Global, pass: u64, event: Event) -> Result<(), NoMemory>
        requires { has_entered pass self.old.state ≡ true }
        ensures opened { self.new.opened ≡ self.old.opened }
        ensures state { OnOk result (self.new.state ≡ (step self.old.state pass event).0) }
        ensures history { OnOk result (self.new.history ≡ written self.old.history (entry_of self.old.state pass event)) }
        ensures err { OnErr result (self.new ≡ self.old) }
        ensures never { EndsLast self.old.state.manager.passes.rules pass event → IsOk result }
        ensures checks_in { ChecksIn self.old.state pass event → IsOk result }
    {
        advance(
            &mut self.state,
            &mut self.entries,
            alloc,
            pass,
            event,
            false,
        )?;
        Ok(())
    }

    /// The last entry of the history.
    pub fn last(&self) -> Option<&Entry>
        ensures { option_copied result ≡ slice_get self.now.history (length self.now.history - 1) }
    {
        self.entries.last()
    }

    /// What was done since the workspace was opened.
    pub fn history(&self) -> &[Entry]
        ensures history { result.now ≡ self.now.history }
        ensures legal { Legal self.now.opened result.now }
        ensures told { told_of result.now ≡ notices self.now.opened result.now }
        // At each front of the history rules are apart.
        ensures apart { (n : ℕ) → IsApart atom_contains atom_conflicts (replay self.now.opened (take n result.now)).manager.passes.rules }
    {
        self.entries.as_slice()
    }

    /// What was done since the workspace was opened, and the state that it led to, as values of their own. It takes no
    /// memory.
    pub fn into_history(self) -> (History, State<T>)
        ensures history { result.0 ≡ self.history }
        ensures state { result.1 ≡ self.state }
        ensures legal { Legal self.opened result.0 }
        ensures told { told_of result.0 ≡ notices self.opened result.0 }
    {
        let Core {
            state,
            entries,
            opened: _,
        } = self;
        (History::of(entries), state)
    }

    /// The state.
    pub fn state(&self) -> &State<T>
        ensures state { result.now ≡ self.now.state }
        ensures replayed { result.now ≡ replay self.now.opened self.now.history }
        ensures sound { IsConsistent result.now }
        ensures apart { IsApart atom_contains atom_conflicts result.now.manager.passes.rules }
    {
        &self.state
    }

    /// The tree.
    pub fn tree(&self) -> &T
        ensures { T.tree result.now ≡ self.now.state.resources.tree }
    {
        self.state.tree()
    }

    /// What changed since the workspace was opened: a path without a node holds the same file bytes, or no file, as it did
    /// then. Costs what was recorded since then.
    pub fn since_start(&self, alloc: Global) -> Result<Delta, NoMemory>
        ensures changed { IfOk result (λ d. d ≡ delta self.now.opened.resources.tree self.now.state.resources.tree) }
        ensures replayed { IfOk result (λ d. d ≡ delta self.now.opened.resources.tree (replay self.now.opened self.now.history).resources.tree) }
        ensures contents { IfOk result (λ d. TellsContents self.now.opened.resources.tree self.now.state.resources.tree d) }
    {
        self.state.since_start(alloc)
    }

    /// What of the workspace lasts over a save, as a value of its own that shares the texts: the tree, what lies below closed
    /// projects, the counters and the partners, what was built last and what participants keep, as all of it is now, also in a
    /// batch. It has no jobs, passes and rules, no batch and no history, not which tree was told, and of what is kept and of
    /// all elements no transient markers. Costs a put for each element of the tree, and for each tree that was built last or is
    /// kept a copy of it, of what was recorded since then, and a look at each of its elements.
    pub fn durable(&self, alloc: Global) -> Result<Durable, NoMemory>
        ensures { IfOk result (λ d. saved d ≡ durable_of self.now.state) }
    {
        self.state.durable(alloc)
    }

    /// What participants keep, as they get it when a session begins: in the order of their names, each with its bytes and, where
    /// it asked for that, what changed since they were kept. Of a save under way it has what is kept now. Costs what was
    /// recorded since then for each that asked for it, and no walk of a tree.
    pub fn kept_states(&self, alloc: Global) -> Result<Vec<KeptState>, NoMemory>
        ensures { IfOk result (λ kept. kept.items ≡ kept_since self.now.state) }
    {
        self.state.kept_states(alloc)
    }

    /// How many jobs wait or are run, and how many were finished.
    pub fn jobs(&self) -> JobCount
        ensures live { result.live ≡ live self.now.state.manager.jobs }
        ensures finished { result.finished ≡ self.now.state.manager.jobs.finished }
    {
        let jobs = &self.state.manager().jobs;
        JobCount {
            live: jobs.live(),
            finished: jobs.finished(),
        }
    }

    /// The topmost rule of the pass that isn't null; none where it has none. It takes no memory.
    pub fn outer(&self, pass: u64) -> Option<&WsRule>
        ensures { option_copied result ≡ outer_rule pass self.now.state.manager.passes.rules }
    {
        self.state.manager().passes.rules().outer(pass)
    }

    /// Whether the pass has entered and hasn't left.
    pub fn has_entered(&self, pass: u64) -> bool
        ensures { result ≡ has_entered pass self.now.state }
    {
        self.state.manager().passes.has(pass)
    }
}

/// Does the event, and adds it to the entries with its reply, of which it gives a copy where one is wanted. Where memory
/// wants, nothing was done.
fn advance<T: Remembers + Drop>(
    state: &mut State<T>,
    entries: &mut Vec<Entry>,
    alloc: Global,
    pass: u64,
    event: Event,
    wants_copy: bool,
) -> Result<Option<Reply>, NoMemory>
    requires sound { IsConsistent state.old }
    requires entered { has_entered pass state.old ≡ true }
    requires fits { Fits state.old.manager.passes (vec_len entries.old) (vec_capacity entries.old) }
    ensures state { OnOk result (state.new ≡ (step state.old pass event).0) }
    ensures entries { OnOk result (entries.new.items ≡ written entries.old.items (entry_of state.old pass event)) }
    ensures copy { IfOk result (λ copy. copy ≡ (twice wants_copy (step state.old pass event).1).copy) }
    ensures same { OnErr result (state.new ≡ state.old) }
    ensures no_entry { OnErr result (entries.new.items ≡ entries.old.items) }
    ensures never { EndsLast state.old.manager.passes.rules pass event → IsOk result }
    ensures checks_in { ChecksIn state.old pass event → IsOk result }
    ensures fits { Fits state.new.manager.passes (vec_len entries.new) (vec_capacity entries.new) }
{
    make_room(entries, state, pass, &event)?;
    let replied = state.step(alloc, pass, &event, wants_copy);
    write(entries, pass, event, replied)
}

/// Room for an entry of the event, and then for one for each rule that may be held and one for the services. It takes no
/// memory where the event ends the rule that the pass began last, and where the pass gives back the services as it may.
fn make_room<T: Remembers + Drop>(
    entries: &mut Vec<Entry>,
    state: &State<T>,
    pass: u64,
    event: &Event,
) -> Result<(), NoMemory>
    requires { Fits state.now.manager.passes (vec_len entries.old) (vec_capacity entries.old) }
    ensures items { entries.new.items ≡ entries.old.items }
    ensures room { OnOk result (HasRoom state.now pass event.now (vec_len entries.new) (vec_capacity entries.new)) }
    ensures never { EndsLast state.now.manager.passes.rules pass event.now → IsOk result }
    ensures checks_in { ChecksIn state.now pass event.now → IsOk result }
    ensures fits { Fits state.now.manager.passes (vec_len entries.new) (vec_capacity entries.new) }
{
    if is_kept(state, pass, event) {
        return Ok(());
    }
    let Some(more) = state.manager().passes.rules().len().checked_add(3) else {
        return Err(AllocError);
    };
    entries.reserve(more)?;
    Ok(())
}

/// Whether room for the entry of the event is kept.
fn is_kept<T: Remembers + Drop>(state: &State<T>, pass: u64, event: &Event) -> bool
    ensures kept { result ≡ true → IsKept state.now pass event.now }
    ensures never { EndsLast state.now.manager.passes.rules pass event.now → result ≡ true }
    ensures checks_in { ChecksIn state.now pass event.now → result ≡ true }
{
    ends_last(state.manager().passes.rules(), pass, event) || checks_in(state, pass, event)
}

/// Whether the pass that has the services gives them back by the event, as it may.
fn checks_in<T: Remembers + Drop>(state: &State<T>, pass: u64, event: &Event) -> bool
    ensures ends { result ≡ true → ChecksIn state.now pass event.now }
    ensures all { ChecksIn state.now pass event.now → result ≡ true }
{
    let Event::Service(ServiceEvent::CheckIn(outcome)) = event else {
        return false;
    };
    state.may_check_in(pass, outcome)
}

/// Whether the event ends the rule that the pass began last.
fn ends_last(held: &RuleTable<WsAtom>, pass: u64, event: &Event) -> bool
    ensures ends { result ≡ true → EndsLast held.now pass event.now }
    ensures all { EndsLast held.now pass event.now → result ≡ true }
{
    let Event::End(rule) = event else {
        return false;
    };
    match held.last(pass) {
        Some(last) => last == rule,
        None => false,
    }
}

/// Adds the entry of the event, where there is a reply, unless the event only found that it must wait.
fn write(
    entries: &mut Vec<Entry>,
    pass: u64,
    event: Event,
    replied: Result<Twice<Reply>, NoMemory>,
) -> Result<Option<Reply>, NoMemory>
    requires { IsOk replied → vec_len entries.old < vec_capacity entries.old }
    ensures ok { IfOk replied (λ r. (entries.new.items ≡ written entries.old.items (record { pass = pass; event = event; reply = r.value })) × (result ≡ Ok r.copy)) }
    ensures err { OnErr replied ((entries.new.items ≡ entries.old.items) × IsErr result) }
    ensures capacity { vec_capacity entries.new ≡ vec_capacity entries.old }
    ensures len { vec_len entries.new ≤ vec_len entries.old + 1 }
    ensures same_len { OnErr replied (vec_len entries.new ≡ vec_len entries.old) }
{
    match replied {
        Ok(replied) => {
            let Twice { value, copy } = replied;
            add(entries, pass, event, value);
            Ok(copy)
        }
        Err(wanted) => {
            drop(event);
            Err(wanted)
        }
    }
}

/// Adds the entry, for which there is room, unless it only found that it must wait.
fn add(entries: &mut Vec<Entry>, pass: u64, event: Event, reply: Reply)
    requires { vec_len entries.old < vec_capacity entries.old }
    ensures items { entries.new.items ≡ written entries.old.items (record { pass = pass; event = event; reply = reply }) }
    ensures capacity { vec_capacity entries.new ≡ vec_capacity entries.old }
    ensures len { vec_len entries.new ≤ vec_len entries.old + 1 }
{
    if reply.answer.is_attempt(&event) {
        drop(event);
        return;
    }
    entries.push_reserved(Entry { pass, event, reply });
}
