//! Where builds are made.
ghost use Rattle.std.specs.Prelude.{◌≡◌, true, List, IfOk, OnOk, OnErr, IfSome, option_copied};
ghost use Rattle.builder_api.specs.declared.outcome.BuildOutcome.{BuildOutcome};
ghost use Rattle.builder_api.specs.Lawful.{Does};
ghost use Rattle.build_laws.specs.States.{IsItem, item};
ghost use Rattle.build_run.specs.Books.{Book, Entry, Did, Called, WasDone, Hands, Takes, Cleans};
ghost use Rattle.build_run.specs.Starts.{Opens, Fails, Ends, Closes, IsCut};

use crate::{Given, Started, Taken};
use builder_api::{BuildFault, BuildKind, BuildOutcome, Edits, Handed, Meanings};
use proj_desc::Command;
use res_path::{Name, NoMemory};

/// Where builds are made: a workspace with its builders, as one of its passes has them.
///
/// Between two entries of the pass others change markers alone: it holds the rule of the root.
pub trait Host {
    type Told: Meanings;

    // what its pass has done
    ghost book: { Self → Book };

    // whether a build command may end so: with these entries since `start`, these calls of builders, and this outcome
    ghost ends: { List Entry → List Did → BuildOutcome → Type 0 };

    // what holds of it between calls
    ghost ready: { Self → Type 0 };

    // what each call leaves as it was, and so several do
    ghost stays: { Self → Self → Type 0 };

    ghost stays_itself: { (host : Self) → stays host host };

    ghost stays_on: { (a b c : Self) → stays a b → stays b c → stays a c };

    ghost stays_ready: { (a b : Self) → stays a b → ready a → ready b };

    /// The entries that begin a build command, which give its plan. Where one of them is refused, the entries that end the
    /// command are made too.
    fn start(&mut self, kind: BuildKind, project: Option<&Name>) -> Result<Started, NoMemory>
        requires ready { ready self.old }
        ensures stays { stays self.old self.new }
        ensures opened { IfOk result (λ started. Opens kind (option_copied project.entry) (book self.old) started (book self.new)) }
        ensures failed { OnErr result (Fails kind (option_copied project.entry) (book self.old) (book self.new)) };

    /// What is due is handed for a project's command, which is then under way. Refused with 35 where there is no builder of
    /// the command's name.
    fn handed(
        &mut self,
        project: &Name,
        index: u16,
        command: &Command,
        kind: BuildKind,
    ) -> Result<Given, NoMemory>
        requires ready { ready self.old }
        requires serving { (book self.old).serving ≡ true }
        requires described { IsItem (book self.old).now.descs (item project.now index command.now) }
        ensures stays { stays self.old self.new }
        ensures given { IfOk result (λ given. Hands (book self.old) (item project.now index command.now) kind given (book self.new)) }
        ensures same { OnErr result (book self.new ≡ book self.old) };

    /// What the command's builder answers. It has the meaning that is told for its name.
    fn run(
        &mut self,
        project: &Name,
        index: u16,
        command: &Command,
        handed: &Handed,
    ) -> Result<Edits, BuildFault>
        requires ready { ready self.old }
        requires present { (book self.old).has command.now.builder ≡ true }
        ensures stays { stays self.old self.new }
        ensures lawful { IfSome (Self.Told.meaning command.now.builder) (λ m. IfOk result (λ edits. Does m command.now handed.now edits)) }
        ensures done { WasDone (Called (item project.now index command.now) handed.now result) (book self.old).told (book self.new).told }
        ensures book { book self.new ≡ record (book self.old) { told = (book self.new).told } };

    /// The edits are committed for the command under way.
    fn commit(&mut self, edits: Edits) -> Result<Taken, NoMemory>
        requires ready { ready self.old }
        requires serving { (book self.old).serving ≡ true }
        ensures stays { stays self.old self.new }
        ensures taken { IfOk result (λ taken. IfSome (book self.old).under (λ i. Takes (book self.old) i edits taken (book self.new))) }
        ensures same { OnErr result (book self.new ≡ book self.old) };

    /// What a project's command wrote goes, and all that its builder keeps between calls. Answers the number of a refusal,
    /// which is 35 where there is no builder of the command's name.
    fn clean(
        &mut self,
        project: &Name,
        index: u16,
        command: &Command,
    ) -> Result<Option<u8>, NoMemory>
        requires ready { ready self.old }
        requires serving { (book self.old).serving ≡ true }
        requires described { IsItem (book self.old).now.descs (item project.now index command.now) }
        ensures stays { stays self.old self.new }
        ensures cleaned { IfOk result (λ refused. Cleans (book self.old) (item project.now index command.now) refused (book self.new)) }
        ensures same { OnErr result (book self.new ≡ book self.old) };

    /// The entries that end a build command. Where memory wants, the outcome was checked in.
    fn finish(&mut self, outcome: BuildOutcome) -> Result<(), NoMemory>
        requires ready { ready self.old }
        requires serving { (book self.old).serving ≡ true }
        requires ends { Ends ends (book self.old) outcome }
        ensures stays { stays self.old self.new }
        ensures closed { OnOk result (Closes (book self.old) outcome (book self.new)) }
        ensures cut { OnErr result (IsCut (book self.old) outcome (book self.new)) };
}
