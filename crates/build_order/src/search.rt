//! Which numbers of a graph lead to each other.
ghost use Rattle.std.specs.Prelude.{◌≡◌, ◌<◌, ◌≤◌, ℕ, [], ◌∷◌, length, map, All, IfOk, OnOk, MatchOption};
ghost use Rattle.std.specs.List.{Contains};
ghost use Rattle.build_order.specs.Inside.Graphs.{Graph, IsWithin, AreLeads};
ghost use Rattle.build_order.specs.Inside.Searches.{mark_at, lead_of, work, IsKnown, IsFresh, IsTop, Stands, Meets, GoesOn, AreMarked};

use crate::lists::Lists;
use res_path::NoMemory;
use std::alloc::Global;

/// What the search knows of a number.
#[derive(Clone, Copy)]
pub enum Mark {
    /// Nothing.
    New,
    /// Its place among the open numbers.
    Open(usize),
    /// The least number of its component.
    Closed(usize),
}

/// Where a frame's own numbers begin among the open ones, and among those still to meet.
#[derive(Clone, Copy)]
pub struct Frame {
    pub members: usize,
    pub todo: usize,
}

/// A search that is under way.
///
/// The open numbers stand in frames. The members of a frame lead to each other and to all in the frames above it. The
/// references of a frame's members lead to a number that the frame has still to meet, or to one that is closed, or
/// to one of this frame or of one above it. So a frame on top with nothing to meet is a component.
#[derive(Drop)]
pub struct Search {
    pub marks: Vec<Mark>,
    pub members: Vec<usize>,
    pub todo: Vec<usize>,
    pub frames: Vec<Frame>,
}

impl Search {
    fn new(alloc: Global, count: usize) -> Result<Search, NoMemory>
        ensures { IfOk result (IsFresh count) }
    {
        Ok(Search {
            marks: vec![in alloc; Mark::New; count]?,
            members: Vec::new(alloc),
            todo: Vec::new(alloc),
            frames: Vec::new(alloc),
        })
    }

    /// Meets the number, and goes on until no frame is open.
    fn reach(&mut self, graph: &Lists, number: usize) -> Result<(), NoMemory>
        requires within { IsWithin graph.now }
        requires number { number < length graph.now }
        requires stands { Stands graph.now [] self.old }
        requires rests { self.old.frames.items ≡ [] }
        ensures on { OnOk result (GoesOn graph.now self.old self.new) }
        ensures rests { OnOk result (self.new.frames.items ≡ []) }
        ensures here { OnOk result (IsKnown self.new.marks.items number) }
    {
        self.meet(graph, number)?;
        while let Some(frame) = self.top() {
            self.step(graph, frame)?;
        }
        Ok(())
    }

    fn top(&self) -> Option<Frame>
        ensures { MatchOption result (self.now.frames.items ≡ []) (IsTop self.now.frames.items) }
    {
        self.frames.last().copied()
    }

    /// Meets one number of the top frame, or closes the frame where none is left.
    fn step(&mut self, graph: &Lists, frame: Frame) -> Result<(), NoMemory>
        requires within { IsWithin graph.now }
        requires stands { Stands graph.now [] self.old }
        requires top { IsTop self.old.frames.items frame }
        ensures on { OnOk result (GoesOn graph.now self.old self.new) }
        ensures less { OnOk result (work graph.now self.new < work graph.now self.old) }
    {
        if self.todo.len() == frame.todo {
            self.close(graph, frame);
            return Ok(());
        }
        let Some(number) = self.todo.pop() else {
            return Ok(());
        };
        self.meet(graph, number)
    }

    /// Opens a new number, and makes one frame of those from an open number's frame on.
    fn meet(&mut self, graph: &Lists, number: usize) -> Result<(), NoMemory>
        requires within { IsWithin graph.now }
        requires number { number < length graph.now }
        requires meets { Meets graph.now number self.old }
        ensures on { OnOk result (GoesOn graph.now self.old self.new) }
        ensures here { OnOk result (IsKnown self.new.marks.items number) }
        ensures less { OnOk result (work graph.now self.new ≤ work graph.now self.old) }
    {
        match self.marks[number] {
            Mark::New => self.open(graph, number),
            Mark::Open(at) => {
                self.join(at);
                Ok(())
            }
            Mark::Closed(_) => Ok(()),
        }
    }

    /// Puts the number into a frame of its own, with all to which it refers still to meet.
    fn open(&mut self, graph: &Lists, number: usize) -> Result<(), NoMemory>
        requires within { IsWithin graph.now }
        requires number { number < length graph.now }
        requires meets { Meets graph.now number self.old }
        requires new { mark_at self.old.marks.items number ≡ Mark.New }
        ensures on { OnOk result (GoesOn graph.now self.old self.new) }
        ensures here { OnOk result (IsKnown self.new.marks.items number) }
        ensures less { OnOk result (work graph.now self.new ≤ work graph.now self.old) }
    {
        let frame = Frame {
            members: self.members.len(),
            todo: self.todo.len(),
        };
        self.frames.push(frame)?;
        self.marks[number] = Mark::Open(frame.members);
        self.members.push(number)?;
        self.todo.extend_from_slice(graph.at(number))?;
        Ok(())
    }

    /// Joins the frames from that of the place on.
    fn join(&mut self, at: usize)
        ensures marks { self.new.marks ≡ self.old.marks }
        ensures todo { self.new.todo ≡ self.old.todo }
        ensures frames { length self.new.frames.items ≤ length self.old.frames.items }
        ensures stands { (g : Graph) (n : ℕ) → Meets g n self.old → mark_at self.old.marks.items n ≡ Mark.Open at → Stands g [] self.new }
    {
        while let Some(frame) = self.top() {
            if frame.members <= at {
                return;
            }
            self.frames.pop();
        }
    }

    /// Closes the members of the top frame as one component.
    fn close(&mut self, graph: &Lists, frame: Frame)
        requires stands { Stands graph.now [] self.old }
        requires top { IsTop self.old.frames.items frame }
        requires bound { frame.members ≤ length self.old.members.items }
        requires met { length self.old.todo.items ≡ frame.todo }
        ensures on { GoesOn graph.now self.old self.new }
        ensures less { work graph.now self.new < work graph.now self.old }
    {
        let members = &self.members[frame.members..];
        let lead = least(members);
        mark_all(&mut self.marks, members, Mark::Closed(lead));
        self.members.truncate(frame.members);
        self.frames.pop();
    }
}

/// The least of the members.
fn least(members: &[usize]) -> usize
    ensures { (n : ℕ) → Contains members.now n → (result ≤ n) × Contains members.now result }
{
    members.iter().copied().min().unwrap_or(0)
}

fn mark_all(marks: &mut [Mark], members: &[usize], mark: Mark)
    requires { All (λ n. n < length marks.old) members.now }
    ensures { AreMarked members.now mark marks.old marks.new }
{
    for member in members {
        marks[*member] = mark;
    }
}

/// For each number the least that leads to it and to which it leads.
pub fn leads_of(alloc: Global, graph: &Lists) -> Result<Vec<usize>, NoMemory>
    requires { IsWithin graph.now }
    ensures { IfOk result (λ leads. AreLeads graph.now leads.items) }
{
    let mut search = Search::new(alloc, graph.len())?;
    for number in 0..graph.len() {
        search.reach(graph, number)?;
    }
    leads(alloc, &search.marks)
}

fn leads(alloc: Global, marks: &[Mark]) -> Result<Vec<usize>, NoMemory>
    ensures { IfOk result (λ leads. leads.items ≡ map lead_of marks.now) }
{
    marks.iter().map(|mark| lead(*mark)).collect(alloc)
}

fn lead(mark: Mark) -> usize
    ensures { result ≡ lead_of mark }
{
    match mark {
        Mark::Closed(lead) => lead,
        _ => 0,
    }
}
