//! Where a resource is: a list of names.
ghost use Rattle.std.specs.Prelude.{◌≡◌, ◌≢◌, ◌↔◌, ◌⊎◌, ◌<◌, ◌≤◌, ◌-◌, ℕ, [], ◌∷◌, ◌++◌, length, drop, true, map, Some, Ok, Err, IfOk, IfErr, IfSome, MatchResult, string_bytes};
ghost use Rattle.std.specs.List.{AllByRecursion};
ghost use Rattle.std.specs.Option.{option_map};
ghost use Rattle.res_path.specs.Names.{IsName};
ghost use Rattle.res_path.specs.Paths.{Names, IsPath, slashed, path_text, is_prefix, parent, parent_of, last_name};
ghost use Rattle.res_path.specs.Parts.{path_fault, parts_of, IsKept};

use crate::{Name, NoMemory, PathError, order, parts};
use bytes::{ByteStr, Bytes};
use std::alloc::Global;
use std::cmp::Ordering;
use std::fmt;
use std::marker::Model;

/// Where a resource is: a list of at most 64 names, the root's being empty. Its text is a slash before each name,
/// a slash alone for the root, and has at most 4,096 bytes. A contract sees the list of names.
///
/// A path is kept as one text that its copies share. Paths are ordered name by name, each by its bytes, a prefix
/// first. Comparing, testing for a prefix and counting names take one pass over that text.
#[derive(Debug, Drop)]
pub struct Path {
    // a slash before each name; nothing for the root
    text: ByteStr,
}

impl Model for Path {
    ghost use Rattle.std.specs.Prelude.{ℕ, List};

    ghost Value = { List (List ℕ) };

    ghost use Rattle.res_path.specs.Parts.{parts_of, IsKept};

    ghost view = { λ p. parts_of p.text };

    ghost invariant = { λ p. IsKept p.text };
}

impl Path {
    /// The root. It takes no memory.
    pub fn root() -> Path
        ensures { result ≡ [] }
    {
        Path {
            text: ByteStr::new(),
        }
    }

    /// The path with this text, copied. Refused with `TooLong` above 4,096 bytes; then with `BadSegment` at the
    /// byte where the first segment begins that is no name, or at 0 where the text doesn't begin with a slash; then
    /// with `TooDeep` above 64 names.
    pub fn parse(alloc: Global, text: &str) -> Result<Path, PathError>
        ensures ok { IfOk result (λ path. path_text path ≡ text.now) }
        ensures all { (path : Names) → IsPath path → path_text path ≡ text.now
            → MatchResult result (λ p. p ≡ path) (λ e. e ≡ PathError.Memory) }
        ensures fault { IfSome (path_fault text.now) (λ e. result ≡ Err e) }
        ensures only { IfErr result (λ e. (e ≡ PathError.Memory) ⊎ (path_fault text.now ≡ Some e)) }
    {
        if let Some(fault) = parts::path_fault(text.as_bytes()) {
            return Err(fault);
        }
        if text.len() == 1 {
            return Ok(Path::root());
        }
        let text = ByteStr::copy_from_str(alloc, text)?;
        Ok(Path { text })
    }

    /// The path with this text, of which nothing is copied. Refused as `parse` is.
    pub fn from_text(text: ByteStr) -> Result<Path, PathError>
        ensures ok { IfOk result (λ path. path_text path ≡ text) }
        ensures all { (path : Names) → IsPath path → path_text path ≡ text → result ≡ Ok path }
        ensures fault { IfSome (path_fault text) (λ e. result ≡ Err e) }
        ensures only { IfErr result (λ e. path_fault text ≡ Some e) }
    {
        if let Some(fault) = parts::path_fault(text.as_str().as_bytes()) {
            return Err(fault);
        }
        if text.len() == 1 {
            return Ok(Path::root());
        }
        Ok(Path { text })
    }

    /// This path with one more name. Refused with `TooDeep` where it has 64 names, then with `TooLong` where the
    /// text would pass 4,096 bytes.
    pub fn join(&self, alloc: Global, name: &Name) -> Result<Path, PathError>
        ensures ok { IfOk result (λ path. path ≡ self.now ++ name.now ∷ []) }
        ensures too_deep { (result ≡ Err PathError.TooDeep) ↔ (64 ≤ length self.now) }
        ensures too_long { (result ≡ Err PathError.TooLong)
            ↔ ((length self.now < 64) × (4096 < length (path_text (self.now ++ name.now ∷ [])))) }
        ensures only { (at : ℕ) → result ≢ Err (PathError.BadSegment at) }
    {
        let kept = self.kept();
        if self.depth() >= parts::MAX_DEPTH {
            return Err(PathError::TooDeep);
        }
        if kept.len() + 1 + name.text().len() > parts::MAX_LEN {
            return Err(PathError::TooLong);
        }
        let text = joined(alloc, kept, b"/", name.text().as_bytes())?;
        Ok(Path::of_kept(text))
    }

    /// This path with `to` in the place of its beginning `from`. Refused with `TooDeep` above 64 names, then with
    /// `TooLong` above 4,096 bytes.
    pub fn rebase(&self, alloc: Global, from: &Path, to: &Path) -> Result<Path, PathError>
        requires { is_prefix from.now self.now ≡ true }
        ensures ok { IfOk result (λ path. path ≡ to.now ++ drop (length from.now) self.now) }
        ensures too_deep { (result ≡ Err PathError.TooDeep) ↔ (64 < length (to.now ++ drop (length from.now) self.now)) }
        ensures too_long { (result ≡ Err PathError.TooLong) ↔ ((length (to.now ++ drop (length from.now) self.now) ≤ 64)
            × (4096 < length (path_text (to.now ++ drop (length from.now) self.now)))) }
        ensures only { (at : ℕ) → result ≢ Err (PathError.BadSegment at) }
    {
        let front = to.kept();
        let rest = self.kept_after(from);
        if to.depth() + (self.depth() - from.depth()) > parts::MAX_DEPTH {
            return Err(PathError::TooDeep);
        }
        if front.len() + rest.len() > parts::MAX_LEN {
            return Err(PathError::TooLong);
        }
        let text = joined(alloc, front, b"", rest)?;
        Ok(Path::of_kept(text))
    }

    /// The path without its last name; none for the root alone. It shares the text.
    pub fn parent(&self) -> Result<Option<Path>, NoMemory>
        ensures { IfOk result (λ parent. parent ≡ parent_of self.now) }
    {
        let text = self.text.as_bytes();
        let Some(at) = parts::last_slash(text.as_slice()) else {
            return Ok(None);
        };
        let front = text.slice(0..at)?;
        Ok(Some(Path::of_kept(front)))
    }

    /// The last name's text; none for the root alone.
    pub fn last(&self) -> Option<&str>
        ensures { option_map (λ name. name.now) result ≡ last_name self.now }
    {
        let text = self.text.as_str();
        match parts::last_slash(text.as_bytes()) {
            None => None,
            Some(at) => Some(&text[at + 1..]),
        }
    }

    /// How many names the path has.
    pub fn depth(&self) -> usize
        ensures depth { result ≡ length self.now }
        ensures deep { result ≤ 64 }
    {
        parts::slash_count(self.kept())
    }

    /// Whether the other path is this one followed by names, possibly none.
    pub fn is_prefix_of(&self, other: &Path) -> bool
        ensures { result ≡ is_prefix self.now other.now }
    {
        order::is_prefix(self.kept(), other.kept())
    }

    /// Whether the other path is at this path's parent, or below it; the root's stands for the root. No path is made.
    pub fn parent_is_prefix_of(&self, other: &Path) -> bool
        ensures { result ≡ is_prefix (parent self.now) other.now }
    {
        order::is_prefix(self.kept_of_parent(), other.kept())
    }

    /// The path's text: a slash before each name, a slash alone for the root.
    pub fn as_str(&self) -> &str
        ensures text { result.now ≡ path_text self.now }
        ensures form { IsPath self.now }
    {
        if self.text.is_empty() {
            "/"
        } else {
            self.text.as_str()
        }
    }

    /// The bytes that the path is kept in: a slash before each name.
    fn kept(&self) -> &[u8]
        ensures bytes { result.now ≡ slashed self.now }
        ensures form { IsPath self.now }
        ensures short { length result.now ≤ 4096 }
    {
        self.text.as_bytes().as_slice()
    }

    /// The bytes of all names but the last.
    fn kept_of_parent(&self) -> &[u8]
        ensures bytes { result.now ≡ slashed (parent self.now) }
        ensures form { AllByRecursion IsName (parent self.now) }
    {
        let kept = self.kept();
        match parts::last_slash(kept) {
            None => kept,
            Some(at) => kept.split_at(at).0,
        }
    }

    /// The bytes of the names after those of `from`.
    fn kept_after(&self, from: &Path) -> &[u8]
        requires { is_prefix from.now self.now ≡ true }
        ensures bytes { result.now ≡ slashed (drop (length from.now) self.now) }
        ensures shorter { length from.now ≤ length self.now }
        ensures short { length result.now ≤ 4096 }
        ensures form { IsPath self.now }
    {
        let (_, rest) = self.kept().split_at(from.kept().len());
        rest
    }

    /// The path that is kept in these bytes.
    fn of_kept(text: Bytes) -> Path
        requires { IsKept text }
        ensures { result ≡ parts_of text }
    {
        Path {
            text: ByteStr::from_known_utf8(text),
        }
    }

    /// A copy of the path's text.
    pub fn text(&self, alloc: Global) -> Result<String, NoMemory>
        ensures { IfOk result (λ text. string_bytes text ≡ path_text self.now) }
    {
        String::from_str(alloc, self.as_str())
    }

    /// An equal path, which shares the text.
    pub fn copy(&self) -> Result<Path, NoMemory>
        ensures { IfOk result (λ copy. copy ≡ self.now) }
    {
        self.clone()
    }
}

/// The bytes of three texts, one after another.
fn joined(alloc: Global, front: &[u8], between: &[u8], back: &[u8]) -> Result<Bytes, NoMemory>
    ensures { IfOk result (λ whole. whole ≡ front.now ++ between.now ++ back.now) }
{
    let mut whole = Vec::new(alloc);
    whole.extend_from_slice(front)?;
    whole.extend_from_slice(between)?;
    whole.extend_from_slice(back)?;
    Ok(Bytes::from_vec(whole)?)
}

impl Clone for Path {
    ghost use Rattle.std.specs.Prelude.{◌≡◌};

    ghost is_clone = { λ path copy. copy ≡ path };

    fn clone(&self) -> Result<Path, NoMemory> {
        let text = self.text.clone()?;
        Ok(Path { text })
    }
}

impl PartialEq for Path {
    ghost use Rattle.res_path.specs.Paths.{path_eq};
    ghost use Rattle.std.specs.Cmp.Lexicographic.{lists_equiv, nat_list_eq_equiv};
    ghost use Rattle.std.specs.Cmp.{partial_equiv_from_equiv};

    ghost eq = { path_eq };

    ghost laws = { partial_equiv_from_equiv (lists_equiv nat_list_eq_equiv) };

    fn eq(&self, other: &Path) -> bool {
        self.kept() == other.kept()
    }
}

impl Eq for Path {
    ghost use Rattle.std.specs.Cmp.Lexicographic.{lists_equiv, nat_list_eq_equiv};

    ghost laws = { lists_equiv nat_list_eq_equiv };
}

impl PartialOrd for Path {
    ghost use Rattle.std.specs.Prelude.{Some};
    ghost use Rattle.res_path.specs.Paths.{path_cmp};
    ghost use Rattle.res_path.specs.PathLaws.{path_po};

    ghost partial_cmp = { λ x y. Some (path_cmp x y) };

    ghost laws = { path_po };

    fn partial_cmp(&self, other: &Path) -> Option<Ordering> {
        Some(self.cmp(other))
    }
}

impl Ord for Path {
    ghost use Rattle.std.specs.Prelude.{refl};
    ghost use Rattle.res_path.specs.Paths.{path_cmp};
    ghost use Rattle.res_path.specs.PathLaws.{path_cmp_total, path_ties};

    ghost cmp = { path_cmp };

    ghost total = { path_cmp_total };

    ghost matches_partial_cmp = { λ x y. refl };

    ghost matches_eq = { path_ties };

    fn cmp(&self, other: &Path) -> Ordering {
        order::compare(self.kept(), other.kept())
    }
}

impl fmt::Display for Path {
    ghost use Rattle.std.specs.Prelude.{Some};
    ghost use Rattle.res_path.specs.Paths.{path_text};

    ghost output = { λ path. Some (path_text path) };

    fn fmt<W: fmt::Write>(&self, f: &mut fmt::Formatter<W>) -> fmt::Result {
        fmt::Display::fmt(&self.as_str(), f)
    }
}
