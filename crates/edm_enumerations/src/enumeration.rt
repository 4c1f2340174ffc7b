ghost use Rattle.std.specs.Prelude.{◌≡◌, ℤ, pos, [], IfOk, OnOk, OnErr, IfSome, length, option_map, slice_get, string_bytes};
ghost use Rattle.edm_values.specs.NumberTypes.{IsNumberType, IsNumberOf};
ghost use Rattle.edm_enumerations.specs.EnumerationModel.{member_of, number_in, with_member};
ghost use Rattle.edm_enumerations.specs.EnumerationValue.{EnumerationValue, JoinsTo, PieceNumber, pieces_of};

use super::pieces::{spelled_number, without_outer_spaces};
use edm_values::Prim;
use indexmap::IndexMap;
use std::alloc::{AllocError, Global};
use std::marker::Model;

/// An enumeration type, with the numbers of its members by name.
#[derive(Debug, Drop)]
pub struct Enumeration {
    underlying: Prim,
    is_flags: bool,
    numbers_by_name: IndexMap<String, i64>,
}

impl Model for Enumeration {
    ghost use Rattle.edm_enumerations.specs.EnumerationModel.{EnumerationModel};

    ghost Value = { EnumerationModel };

    ghost use Rattle.edm_enumerations.specs.private.Enumeration.{enumeration_model, IsKeptEnumeration};

    ghost view = { enumeration_model };

    ghost invariant = { IsKeptEnumeration };
}

impl Enumeration {
    /// Creates an enumeration without members.
    pub fn new(alloc: Global, underlying: Prim, is_flags: bool) -> Enumeration
        requires { IsNumberType underlying }
        ensures { result ≡ record { underlying = underlying; is_flags = is_flags; members = [] } }
    {
        Enumeration {
            underlying,
            is_flags,
            numbers_by_name: IndexMap::new(alloc),
        }
    }

    /// Creates an enumeration without members, with capacity for so many.
    pub fn with_capacity(
        alloc: Global,
        underlying: Prim,
        is_flags: bool,
        members: usize,
    ) -> Result<Enumeration, AllocError>
        requires { IsNumberType underlying }
        ensures { IfOk result
            (λ e. e ≡ record { underlying = underlying; is_flags = is_flags; members = [] }) }
    {
        let numbers_by_name = IndexMap::with_capacity(alloc, members)?;
        Ok(Enumeration {
            underlying,
            is_flags,
            numbers_by_name,
        })
    }

    /// Adds a member after the others. Where there is one of that name, it stays and nothing is added.
    pub fn add_member(&mut self, name: String, number: i64) -> Result<(), AllocError>
        requires { IsNumberOf self.old.underlying number }
        ensures ok { OnOk result (self.new ≡ with_member self.old (string_bytes name) number) }
        ensures err { OnErr result (self.new ≡ self.old) }
    {
        if self.numbers_by_name.contains_key(name.as_str()) {
            return Ok(());
        }
        self.numbers_by_name.insert(name, number)?;
        Ok(())
    }

    /// Returns the type of the members' numbers (section 10.1).
    pub fn underlying(&self) -> Prim
        ensures value { result ≡ self.now.underlying }
        ensures number { IsNumberType result }
    {
        self.underlying
    }

    /// Returns whether a value may combine several members (section 10.2).
    pub fn is_flags(&self) -> bool
        ensures { result ≡ self.now.is_flags }
    {
        self.is_flags
    }

    /// Returns how many members there are.
    pub fn len(&self) -> usize
        ensures { result ≡ length self.now.members }
    {
        self.numbers_by_name.len()
    }

    /// Returns the member at an index, in the order of the document: its name and its number.
    pub fn member_at(&self, place: usize) -> Option<(&str, i64)>
        ensures { option_map (λ m. member_of m.0.now m.1) result ≡ slice_get self.now.members place }
    {
        match self.numbers_by_name.get_index(place) {
            Some((name, number)) => Some((name.as_str(), *number)),
            None => None,
        }
    }

    /// Returns the number of the member of that name.
    pub fn number_of(&self, name: &str) -> Option<i64>
        ensures value { result ≡ number_in self.now.members name.now }
        ensures within { IfSome result (IsNumberOf self.now.underlying) }
    {
        self.numbers_by_name.get(name).copied()
    }

    /// Returns the number that the text of a literal, between its quotes, stands for. It is a member's name or a
    /// number, or several with commas between them where this is an enumeration of flags. Spaces round each of them are
    /// ignored.
    pub fn value_of(&self, text: &str) -> Option<i64>
        ensures value { IfSome result (EnumerationValue self.now text.now) }
        ensures only { (n : ℤ) → EnumerationValue self.now text.now n → result ≡ Some n }
        ensures within { IfSome result (IsNumberOf self.now.underlying) }
    {
        if !self.is_flags && text.contains(',') {
            return None;
        }
        self.joined_numbers(text)
    }

    /// The numbers of the pieces between commas, joined bit by bit.
    fn joined_numbers(&self, text: &str) -> Option<i64>
        requires { IsNumberType self.now.underlying }
        ensures value { IfSome result (JoinsTo self.now (pieces_of text.now) (pos 0)) }
        ensures only { (n : ℤ) → JoinsTo self.now (pieces_of text.now) (pos 0) n → result ≡ Some n }
        ensures within { IfSome result (IsNumberOf self.now.underlying) }
    {
        let mut joined = 0;
        let mut rest = text;
        while let Some((piece, behind)) = rest.split_once(',') {
            match self.piece_number(piece) {
                Some(number) => joined |= number,
                None => return None,
            }
            rest = behind;
        }
        match self.piece_number(rest) {
            Some(number) => Some(joined | number),
            None => None,
        }
    }

    fn piece_number(&self, piece: &str) -> Option<i64>
        ensures value { IfSome result (PieceNumber self.now piece.now) }
        ensures only { (n : ℤ) → PieceNumber self.now piece.now n → result ≡ Some n }
        ensures within { IfSome result (IsNumberOf self.now.underlying) }
    {
        let piece = without_outer_spaces(piece);
        if piece.is_empty() {
            return None;
        }
        match self.number_of(piece) {
            Some(number) => Some(number),
            None => spelled_number(piece, self.underlying),
        }
    }
}
