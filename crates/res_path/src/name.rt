//! One segment of a path.
ghost use Rattle.std.specs.Prelude.{◌≡◌, ◌↔◌, ◌⊎◌, Ok, Err, IfOk, IfErr, MatchResult, IsOk, IsErr};
ghost use Rattle.res_path.specs.Names.{IsName};

use crate::parts::has_name_form;
use crate::{NoMemory, PathError};
use bytes::ByteStr;
use std::alloc::Global;
use std::cmp::Ordering;
use std::fmt;
use std::marker::Model;

/// A name: a text of 1 to 255 bytes without a slash and without control characters (U+0000 to U+001F and
/// U+007F), other than `.` and `..`. A contract sees its bytes.
///
/// A copy shares the bytes. Names are ordered by their bytes.
#[derive(Debug, Drop)]
pub struct Name {
    text: ByteStr,
}

impl Model for Name {
    ghost use Rattle.std.specs.Prelude.{ℕ, List};

    ghost Value = { List ℕ };

    ghost use Rattle.res_path.specs.Names.{IsName};

    ghost view = { λ n. n.text };

    ghost invariant = { λ n. IsName n.text };
}

impl Name {
    /// The name with this text, copied. Refused with `BadSegment` at 0 where the text has not a name's form.
    pub fn parse(alloc: Global, text: &str) -> Result<Name, PathError>
        ensures ok { IfOk result (λ name. (name ≡ text.now) × IsName text.now) }
        ensures refused { IfErr result (λ e. (e ≡ PathError.Memory) ⊎ ((e ≡ PathError.BadSegment 0) × (¬ IsName text.now))) }
        ensures only { IsName text.now → IfErr result (λ e. e ≡ PathError.Memory) }
    {
        if !has_name_form(text.as_bytes()) {
            return Err(PathError::BadSegment { at: 0 });
        }
        let text = ByteStr::copy_from_str(alloc, text)?;
        Ok(Name { text })
    }

    /// The name with this text, of which nothing is copied. Refused with `BadSegment` at 0 where the text has not
    /// a name's form.
    pub fn from_text(text: ByteStr) -> Result<Name, PathError>
        ensures ok { IfOk result (λ name. (name ≡ text) × IsName text) }
        ensures refused { IfErr result (λ e. (e ≡ PathError.BadSegment 0) × (¬ IsName text)) }
    {
        if !has_name_form(text.as_str().as_bytes()) {
            return Err(PathError::BadSegment { at: 0 });
        }
        Ok(Name { text })
    }

    /// The name's text.
    pub fn text(&self) -> &str
        ensures text { result.now ≡ self.now }
        ensures form { IsName self.now }
    {
        self.text.as_str()
    }

    /// An equal name, which shares the bytes.
    pub fn copy(&self) -> Result<Name, NoMemory>
        ensures { IfOk result (λ copy. copy ≡ self.now) }
    {
        self.clone()
    }
}

impl Clone for Name {
    ghost use Rattle.std.specs.Prelude.{◌≡◌};

    ghost is_clone = { λ name copy. copy ≡ name };

    fn clone(&self) -> Result<Name, NoMemory> {
        let text = self.text.clone()?;
        Ok(Name { text })
    }
}

impl PartialEq for Name {
    ghost use Rattle.std.specs.Str.{bytes_eq};
    ghost use Rattle.std.specs.Cmp.Lexicographic.{nat_list_eq_equiv};
    ghost use Rattle.std.specs.Cmp.{partial_equiv_from_equiv};

    ghost eq = { bytes_eq };

    ghost laws = { partial_equiv_from_equiv nat_list_eq_equiv };

    fn eq(&self, other: &Name) -> bool {
        self.text.as_str().as_bytes() == other.text.as_str().as_bytes()
    }
}

impl Eq for Name {
    ghost use Rattle.std.specs.Cmp.Lexicographic.{nat_list_eq_equiv};

    ghost laws = { nat_list_eq_equiv };
}

impl PartialOrd for Name {
    ghost use Rattle.std.specs.Prelude.{Some};
    ghost use Rattle.std.specs.Ordering.{nat_cmp};
    ghost use Rattle.std.specs.Cmp.Lexicographic.{slice_cmp, texts_po};

    ghost partial_cmp = { λ x y. Some (slice_cmp nat_cmp x y) };

    ghost laws = { texts_po };

    fn partial_cmp(&self, other: &Name) -> Option<Ordering> {
        Some(self.cmp(other))
    }
}

impl Ord for Name {
    ghost use Rattle.std.specs.Prelude.{refl};
    ghost use Rattle.std.specs.Ordering.{nat_cmp};
    ghost use Rattle.std.specs.Cmp.Lexicographic.{slice_cmp, nat_list_cmp_total, texts_ties};

    ghost cmp = { slice_cmp nat_cmp };

    ghost total = { nat_list_cmp_total };

    ghost matches_partial_cmp = { λ x y. refl };

    ghost matches_eq = { texts_ties };

    fn cmp(&self, other: &Name) -> Ordering {
        self.text
            .as_str()
            .as_bytes()
            .cmp(other.text.as_str().as_bytes())
    }
}

impl fmt::Display for Name {
    ghost use Rattle.std.specs.Prelude.{Some};

    ghost output = { λ name. Some name };

    fn fmt<W: fmt::Write>(&self, f: &mut fmt::Formatter<W>) -> fmt::Result {
        fmt::Display::fmt(&self.text.as_str(), f)
    }
}
