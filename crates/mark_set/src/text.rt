//! Texts of markers, checked and raw.

ghost use Rattle.std.specs.Prelude.{◌≡◌, ◌<◌, ◌≤◌, ◌^◌, ◌↔◌, ◌⊎◌, length, IfOk, IfErr, IsUtf8, string_bytes, nat_eq, refl};
ghost use Rattle.std.specs.Ordering.{nat_cmp, as_partial_cmp};
ghost use Rattle.std.specs.Cmp.{partial_equiv_from_equiv};
ghost use Rattle.std.specs.Cmp.Lexicographic.{pointwise, slice_cmp, nat_list_eq_equiv, nat_list_cmp_total, texts_ties, texts_po};

use crate::NoMemory;
use crate::error::{MarkError, ValueCause};
use std::alloc::Global;
use std::cmp::Ordering;
use std::marker::Model;

/// A text of fewer than 65,536 bytes: a marker's type, an attribute's name or an attribute's text.
#[derive(Debug, Drop)]
pub struct MarkText {
    text: String,
}

impl Model for MarkText {
    ghost use Rattle.std.specs.Prelude.{List, ℕ, length, ◌<◌, string_bytes};

    ghost Value = { List ℕ };

    ghost view = { λ t. string_bytes t.text };

    ghost invariant = { λ t. length (string_bytes t.text) < 65536 };
}

impl MarkText {
    /// Refused with LongText where the text has more than 65,535 bytes.
    pub fn parse(alloc: Global, text: &str) -> Result<MarkText, MarkError>
        ensures ok { IfOk result (λ parsed. parsed ≡ text.now) }
        ensures long { (result ≡ Err (MarkError.BadValue ValueCause.LongText)) ↔ (65536 ≤ length text.now) }
        ensures err { IfErr result (λ e. (e ≡ MarkError.Memory) ⊎ (e ≡ MarkError.BadValue ValueCause.LongText)) }
    {
        if text.len() >= 65_536 {
            return Err(MarkError::BadValue(ValueCause::LongText));
        }
        Ok(MarkText::copy_of(alloc, text)?)
    }

    /// This text of fewer than 65,536 bytes.
    pub fn copy_of(alloc: Global, text: &str) -> Result<MarkText, NoMemory>
        requires { length text.now < 65536 }
        ensures value { IfOk result (λ copied. copied ≡ text.now) }
        ensures utf8 { IfOk result IsUtf8 }
    {
        Ok(MarkText {
            text: String::from_str(alloc, text)?,
        })
    }

    pub(crate) fn of(raw: RawText) -> MarkText
        requires { length raw < 65536 }
        ensures value { result ≡ raw }
        ensures utf8 { IsUtf8 result }
    {
        let text = raw.into_string();
        let _utf8 = text.as_str();
        MarkText { text }
    }

    /// The text itself.
    pub fn text(&self) -> &str
        ensures value { result.now ≡ self.now }
        ensures bound { length self.now < 65536 }
        ensures utf8 { IsUtf8 self.now }
    {
        self.text.as_str()
    }

    /// An equal text.
    pub fn copy(&self) -> Result<MarkText, NoMemory>
        ensures { IfOk result (λ copy. copy ≡ self.now) }
    {
        Ok(MarkText {
            text: self.text.clone()?,
        })
    }
}

impl Clone for MarkText {
    ghost is_clone = { λ text copy. copy ≡ text };

    fn clone(&self) -> Result<MarkText, NoMemory> {
        self.copy()
    }
}

impl PartialEq for MarkText {
    ghost eq = { pointwise nat_eq };

    ghost laws = { partial_equiv_from_equiv nat_list_eq_equiv };

    fn eq(&self, other: &MarkText) -> bool {
        self.text.as_bytes() == other.text.as_bytes()
    }
}

impl Eq for MarkText {
    ghost laws = { nat_list_eq_equiv };
}

/// Texts are ordered by their bytes.
impl PartialOrd for MarkText {
    ghost partial_cmp = { as_partial_cmp (slice_cmp nat_cmp) };

    ghost laws = { texts_po };

    fn partial_cmp(&self, other: &MarkText) -> Option<Ordering> {
        Some(self.cmp(other))
    }
}

impl Ord for MarkText {
    ghost cmp = { slice_cmp nat_cmp };

    ghost total = { nat_list_cmp_total };

    ghost matches_partial_cmp = { λ x y. refl };

    ghost matches_eq = { texts_ties };

    fn cmp(&self, other: &MarkText) -> Ordering {
        self.text.as_bytes().cmp(other.text.as_bytes())
    }
}

/// A text of any length, as it came from outside.
#[derive(Debug, Drop)]
pub struct RawText {
    text: String,
}

impl Model for RawText {
    ghost use Rattle.std.specs.Prelude.{List, ℕ, string_bytes};

    ghost Value = { List ℕ };

    ghost view = { λ t. string_bytes t.text };
}

impl RawText {
    /// This text, without taking memory.
    pub fn of(text: String) -> RawText
        ensures { result ≡ string_bytes text }
    {
        RawText { text }
    }

    /// The text itself.
    pub fn text(&self) -> &str
        ensures value { result.now ≡ self.now }
        ensures utf8 { IsUtf8 self.now }
    {
        self.text.as_str()
    }

    /// The text given back, without taking memory.
    pub fn into_string(self) -> String
        ensures { string_bytes result ≡ self }
    {
        let RawText { text } = self;
        text
    }

    /// An equal text.
    pub fn copy(&self) -> Result<RawText, NoMemory>
        ensures { IfOk result (λ copy. copy ≡ self.now) }
    {
        Ok(RawText {
            text: self.text.clone()?,
        })
    }
}

impl Clone for RawText {
    ghost is_clone = { λ text copy. copy ≡ text };

    fn clone(&self) -> Result<RawText, NoMemory> {
        self.copy()
    }
}

impl PartialEq for RawText {
    ghost eq = { pointwise nat_eq };

    ghost laws = { partial_equiv_from_equiv nat_list_eq_equiv };

    fn eq(&self, other: &RawText) -> bool {
        self.text.as_bytes() == other.text.as_bytes()
    }
}

impl Eq for RawText {
    ghost laws = { nat_list_eq_equiv };
}
