//! What can be done to resources.

use bytes::Bytes;
use mark_set::{RawAttrs, RawText, RawValue};
use res_path::{Name, Path};
use ws_elem::Depth;

/// What is to be read of resources.
#[derive(Clone, Copy, Debug, PartialEq, Eq)]
pub enum Want {
    /// What stands at a path.
    Show,
    /// The contents of a file (`IFile.getContents`).
    Cat,
    /// What stands at a path and below it.
    Tree,
    /// What stands at a path and below it, told by one digest.
    Digest,
}

/// What can be done to resources. An operation that is refused changes nothing.
#[derive(Debug, Drop)]
pub enum Op {
    /// A file with these contents is made (`IFile.create`).
    CreateFile(Path, Bytes),
    /// A folder is made (`IFolder.create`).
    CreateFolder(Path),
    /// An open project with the empty description is made (`IProject.create`, then `open`).
    CreateProject(Path),
    /// The resource and all below it are removed, also what belongs to it while it is closed (`IResource.delete`).
    Delete(Path),
    /// A file gets these contents (`IFile.setContents`).
    Write(Path, Bytes),
    /// A file's contents count as changed (`IResource.touch`).
    Touch(Path),
    /// A file or folder is marked as derived, or as not (`IResource.setDerived`).
    Derived(Path, bool),
    /// The resource and all below it come to stand at another path (`IResource.move`).
    Move(Path, Path),
    /// The resource and all below it are copied to another path (`IResource.copy`).
    Copy(Path, Path),
    /// A project is opened (`IProject.open`).
    Open(Path),
    /// A project is closed (`IProject.close`).
    Close(Path),
    /// A project gets the description with this text (`IProject.setDescription`).
    Describe(Path, Bytes),
    /// What is remembered of the builds of a project goes, so that its builders are handed no delta when they are called next
    /// (`IncrementalProjectBuilder.forgetLastBuiltState`).
    Forget(Path),
    /// A marker of this type and with these attributes is made on a resource (`IResource.createMarker`).
    Mark(Path, RawText, RawAttrs),
    /// One attribute of a resource's marker gets this value, or goes (`IMarker.setAttribute`).
    Attr(Path, u64, RawText, Option<RawValue>),
    /// A resource's marker is deleted (`IMarker.delete`).
    Unmark(Path, u64),
    /// The markers of this type are deleted, on a resource and below it to the depth (`IResource.deleteMarkers`).
    ClearMarks(Path, RawText, Depth),
    /// A synchronisation partner is registered (`ISynchronizer.add`).
    Partner(Name),
    /// A partner keeps these bytes with a resource, or none (`ISynchronizer.setSyncInfo`).
    Sync(Path, Name, Option<Bytes>),
    /// A partner's bytes go, at a resource and below it to the depth (`ISynchronizer.flushSyncInfo`).
    Flush(Path, Name, Depth),
    /// What stands at a path is read.
    Read(Path, Want),
}
