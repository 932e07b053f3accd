//! The words that lines begin with.
ghost use Rattle.std.specs.Prelude.{◌≡◌, MatchOption};
ghost use Rattle.script_ops.specs.declared.verb.Verb.{Verb};
ghost use Rattle.script_parts.specs.Parts.{keyword};
ghost use Rattle.script_parts.specs.Inside.Found.{IsPartFound};
ghost use Rattle.script_ops.specs.Inside.Verbs.{verb_word, bounds, changes, notes, reads, IsNamed};

use script_words::Token;

/// The word that a line begins with.
#[derive(Clone, Copy)]
pub enum Verb {
    Phase,
    EndPhase,
    Job,
    EndJob,
    Batch,
    EndBatch,
    Checkpoint,
    Begin,
    TryBegin,
    End,
    Sleep,
    Wake,
    Cancel,
    Build,
    Save,
    Create,
    Delete,
    Write,
    Touch,
    Derived,
    Move,
    Copy,
    Open,
    Close,
    Describe,
    Forget,
    Mark,
    Attr,
    Unmark,
    ClearMarks,
    Partner,
    Sync,
    NoSync,
    Flush,
    Show,
    Cat,
    Tree,
    Digest,
}

/// The verb that the token is.
pub fn verb_of(token: &Token) -> Option<Verb>
    ensures { IsPartFound (λ verb. keyword (verb_word verb)) token.now result }
{
    if token.bare {
        verb_named(token.word.as_slice())
    } else {
        None
    }
}

/// The verb with this name.
fn verb_named(word: &[u8]) -> Option<Verb>
    ensures { MatchOption result ((verb : Verb) → word.now ≡ verb_word verb → ⊥) (λ verb. word.now ≡ verb_word verb) }
{
    match bound_named(word) {
        Some(verb) => Some(verb),
        None => match change_named(word) {
            Some(verb) => Some(verb),
            None => match note_named(word) {
                Some(verb) => Some(verb),
                None => read_named(word),
            },
        },
    }
}

/// The verb with this name, of those that bound phases, jobs, batches and rules, of those that steer jobs, and of those
/// that build and save.
fn bound_named(word: &[u8]) -> Option<Verb>
    ensures { IsNamed bounds word.now result }
{
    named_of(
        &[
            Verb::Phase,
            Verb::EndPhase,
            Verb::Job,
            Verb::EndJob,
            Verb::Batch,
            Verb::EndBatch,
            Verb::Checkpoint,
            Verb::Begin,
            Verb::TryBegin,
            Verb::End,
            Verb::Sleep,
            Verb::Wake,
            Verb::Cancel,
            Verb::Build,
            Verb::Save,
        ],
        word,
    )
}

/// The verb with this name, of those that change resources.
fn change_named(word: &[u8]) -> Option<Verb>
    ensures { IsNamed changes word.now result }
{
    named_of(
        &[
            Verb::Create,
            Verb::Delete,
            Verb::Write,
            Verb::Touch,
            Verb::Derived,
            Verb::Move,
            Verb::Copy,
            Verb::Open,
            Verb::Close,
            Verb::Describe,
            Verb::Forget,
        ],
        word,
    )
}

/// The verb with this name, of those that change markers and synchronisation bytes.
fn note_named(word: &[u8]) -> Option<Verb>
    ensures { IsNamed notes word.now result }
{
    named_of(
        &[
            Verb::Mark,
            Verb::Attr,
            Verb::Unmark,
            Verb::ClearMarks,
            Verb::Partner,
            Verb::Sync,
            Verb::NoSync,
            Verb::Flush,
        ],
        word,
    )
}

/// The verb with this name, of those that read.
fn read_named(word: &[u8]) -> Option<Verb>
    ensures { IsNamed reads word.now result }
{
    named_of(&[Verb::Show, Verb::Cat, Verb::Tree, Verb::Digest], word)
}

/// The first of these verbs that has this name.
fn named_of(verbs: &[Verb], word: &[u8]) -> Option<Verb>
    ensures { IsNamed verbs.now word.now result }
{
    for verb in verbs {
        if verb_word(*verb) == word {
            return Some(*verb);
        }
    }
    None
}

/// The word that the verb is.
fn verb_word(verb: Verb) -> &'static [u8]
    ensures { result.now ≡ verb_word verb }
{
    match verb {
        Verb::Phase => b"phase",
        Verb::EndPhase => b"endphase",
        Verb::Job => b"job",
        Verb::EndJob => b"endjob",
        Verb::Batch => b"batch",
        Verb::EndBatch => b"endbatch",
        Verb::Checkpoint => b"checkpoint",
        Verb::Begin => b"begin",
        Verb::TryBegin => b"trybegin",
        Verb::End => b"end",
        Verb::Sleep => b"sleep",
        Verb::Wake => b"wake",
        Verb::Cancel => b"cancel",
        Verb::Build => b"build",
        Verb::Save => b"save",
        Verb::Create => b"create",
        Verb::Delete => b"delete",
        Verb::Write => b"write",
        Verb::Touch => b"touch",
        Verb::Derived => b"derived",
        Verb::Move => b"move",
        Verb::Copy => b"copy",
        Verb::Open => b"open",
        Verb::Close => b"close",
        Verb::Describe => b"describe",
        Verb::Forget => b"forget",
        Verb::Mark => b"mark",
        Verb::Attr => b"attr",
        Verb::Unmark => b"unmark",
        Verb::ClearMarks => b"clearmarks",
        Verb::Partner => b"partner",
        Verb::Sync => b"sync",
        Verb::NoSync => b"nosync",
        Verb::Flush => b"flush",
        Verb::Show => b"show",
        Verb::Cat => b"cat",
        Verb::Tree => b"tree",
        Verb::Digest => b"digest",
    }
}
