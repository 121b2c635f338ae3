// A shared text, its order and its hash.
ghost use Rattle.std.specs.Cmp.Lexicographic.{slice_cmp};
ghost use Rattle.std.specs.Ordering.{nat_cmp};
ghost use Rattle.std.specs.Prelude.{◌≡◌, ℕ, List, IfOk, IsTrue, IsUtf8, chars, encode_utf8_all};
ghost use Rattle.std.specs.Str.{all_scalars};
ghost use Rattle.std.specs.String.{string_bytes};

use std::alloc::{AllocError, Global};
use std::cmp::Ordering;
use std::fmt;
use std::hash::{Hash, Hasher};
use std::marker::Model;
use std::rc::RcStr;

/// A text with several owners. Contracts see it as the list of its characters, each a Unicode scalar value.
pub struct Txt {
    text: RcStr,
}

// Written out, so that a proof above sees one call and not the drop of each part.
impl Drop for Txt {
    fn drop(self) {
        let Txt { text: _text } = self;
    }
}

impl Model for Txt {
    ghost use Rattle.std.specs.Prelude.{List, ℕ, chars};
    ghost use Rattle.std.specs.Rc.{rc_str_bytes};

    ghost Value = { List ℕ };

    ghost view = { λ t. chars (rc_str_bytes t.text) };
}

impl Txt {
    /// A new text with the characters of `text`. It fails only if memory runs out.
    pub fn new(alloc: Global, text: &str) -> Result<Txt, AllocError>
        ensures { IfOk result (λ t. t ≡ chars text.now) }
    {
        Ok(Txt {
            text: RcStr::from_str(alloc, text)?,
        })
    }

    // A text of the characters of `text`, whose bytes stay where they are.
    pub(crate) fn from_string(text: String) -> Result<Txt, AllocError>
        ensures { IfOk result (λ t. t ≡ chars (string_bytes text)) }
    {
        Ok(Txt {
            text: RcStr::from_string(text)?,
        })
    }

    /// The text in UTF-8.
    pub fn as_str(&self) -> &str
        ensures characters { chars result.now ≡ self.now }
        ensures bytes { result.now ≡ encode_utf8_all self.now }
        ensures scalars { IsTrue (all_scalars self.now) }
        ensures utf8 { IsUtf8 result.now }
    {
        self.text.as_str()
    }

    /// One more owner of the same text. It fails only if memory runs out.
    pub fn share(&self) -> Result<Txt, AllocError>
        ensures { IfOk result (λ t. t ≡ self.now) }
    {
        Ok(Txt {
            text: self.text.clone()?,
        })
    }
}

impl Clone for Txt {
    ghost is_clone = { λ s copy. copy ≡ s };

    fn clone(&self) -> Result<Txt, AllocError> {
        self.share()
    }
}

impl PartialEq for Txt {
    ghost use Rattle.std.specs.Prelude.{◌≡◌, nat_eq};
    ghost use Rattle.std.specs.Cmp.Lexicographic.{pointwise, nat_list_eq_equiv};
    ghost use Rattle.std.specs.Cmp.{partial_equiv_from_equiv};

    ghost eq = { λ x y. pointwise nat_eq x y };

    ghost laws = { partial_equiv_from_equiv nat_list_eq_equiv };

    fn eq(&self, other: &Self) -> bool {
        self.as_str() == other.as_str()
    }
}

impl Eq for Txt {
    ghost use Rattle.std.specs.Cmp.Lexicographic.{nat_list_eq_equiv};

    ghost laws = { nat_list_eq_equiv };
}

impl PartialOrd for Txt {
    ghost use Rattle.std.specs.Prelude.{Some};
    ghost use Rattle.std.specs.Ordering.{nat_cmp};
    ghost use Rattle.std.specs.Cmp.Lexicographic.{slice_cmp, texts_po};

    ghost partial_cmp = { λ x y. Some (slice_cmp nat_cmp x y) };

    ghost laws = { texts_po };

    fn partial_cmp(&self, other: &Self) -> Option<Ordering> {
        Some(self.cmp(other))
    }
}

impl Ord for Txt {
    ghost use Rattle.std.specs.Prelude.{refl};
    ghost use Rattle.std.specs.Ordering.{nat_cmp};
    ghost use Rattle.std.specs.Cmp.Lexicographic.{slice_cmp, nat_list_cmp_total, texts_ties};

    ghost cmp = { λ x y. slice_cmp nat_cmp x y };

    ghost total = { nat_list_cmp_total };

    ghost matches_partial_cmp = { λ x y. refl };

    ghost matches_eq = { λ x y. texts_ties x y };

    // Their bytes have the order of the characters.
    fn cmp(&self, other: &Self) -> Ordering {
        self.as_str().cmp(other.as_str())
    }
}

/// The order of texts by their characters is the order of their bytes in UTF-8, in which a database keeps them.
pub fn order_is_of_bytes()
    ensures { (s t : List ℕ) → slice_cmp nat_cmp s t ≡ slice_cmp nat_cmp (encode_utf8_all s) (encode_utf8_all t) }
{}

impl Hash for Txt {
    ghost use Rattle.std.specs.Hash as fed;
    ghost use Rattle.std.specs.Cmp.Rules.{hashing};
    ghost use Rattle.std.specs.Prelude.{encode_utf8_all};
    ghost use Rattle.std.proofs.Common.{rules};

    ghost hash_input = { λ cs. fed.str (encode_utf8_all cs) };

    ghost respects_eq = { Prim.search (hashing, rules) };

    fn hash<H: Hasher>(&self, state: &mut H) {
        self.as_str().hash(state);
    }
}

impl fmt::Debug for Txt {
    fn fmt<W: fmt::Write>(&self, f: &mut fmt::Formatter<W>) -> fmt::Result {
        fmt::Debug::fmt(self.as_str(), f)
    }
}
