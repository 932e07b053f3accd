//! What is remembered of one build command.
ghost use Rattle.std.specs.Prelude.{◌≡◌};
ghost use Rattle.std.specs.Ordering.{eq_by_cmp, is_eq};
ghost use Rattle.ws_marks.specs.Places.{name_cmp, place_cmp, place_of};

use proj_desc::{Command, References};
use res_path::Name;
use std::cmp::Ordering;

/// What is remembered of one build command that was run. `M` is what stands for a remembered tree.
#[derive(Drop)]
pub struct Record<M> {
    pub project: Name,
    /// Which of the project's commands.
    pub index: u16,
    /// What the command said.
    pub command: Command,
    pub references: References,
    /// The tree as it was then.
    pub tree: M,
}

impl<M> Record<M> {
    /// How its place stands to that of the project's command.
    pub(crate) fn cmp_place(&self, project: &Name, index: u16) -> Ordering
        ensures { result ≡ place_cmp (place_of self.now) (project.now, index) }
    {
        self.project.cmp(project).then(self.index.cmp(&index))
    }

    /// Whether it stands at the place of the project's command.
    pub(crate) fn is_at(&self, project: &Name, index: u16) -> bool
        ensures { result ≡ is_eq (place_cmp (place_of self.now) (project.now, index)) }
    {
        self.cmp_place(project, index) == Ordering::Equal
    }

    pub(crate) fn is_of(&self, project: &Name) -> bool
        ensures { result ≡ eq_by_cmp name_cmp self.now.project project.now }
    {
        self.project.cmp(project) == Ordering::Equal
    }
}
