//! Laws of documents, stated on functions that do nothing, or that only cite other laws.
ghost use Rattle.std.specs.Prelude.{◌≡◌, ◌≢◌, ◌≤◌, ◌<◌, ℕ, List, [], ◌∷◌, length, position, slice_get, Some, None, codes};
ghost use Rattle.std.specs.List.{AllByRecursion};
ghost use Rattle.std.specs.Ordering.{nat_cmp};
ghost use Rattle.std.specs.Cmp.Lexicographic.{slice_cmp};
ghost use Rattle.std.specs.declared.cmp.Ordering.TheVariants.{Less};
ghost use Rattle.csdl_declarations.specs.DeclaredType.{DeclaredType, declared_types};
ghost use Rattle.csdl_declarations.specs.Fault.{Fault, not_object};
ghost use Rattle.csdl_schema.specs.BaseFaults.{base_limit, bases_of, first_name, names_twice};
ghost use Rattle.csdl_schema.specs.SchemaModel.{SchemaModel, is_named, slots_of, HasDistinctNames, IsInNameOrder};
ghost use Rattle.csdl_schema.specs.Document.{StandsFor, IsFirstDocumentFault};
ghost use Rattle.csdl_schema.specs.Resolution.{goes_by};
ghost use Rattle.csdl_schema.specs.TypeMembers.{IsBaseChain, IsOwnedTwice, chain_members, own_members};
ghost use Rattle.csdl_schema.specs.Worked as worked;

use csdl_declarations::declared_in_order;

/// A document stands for at most one schema, has at most one first fault, and never both.
pub fn one_answer()
    ensures schema { (document : List ℕ) (a b : SchemaModel)
        → StandsFor document a → StandsFor document b → a ≡ b }
    ensures fault { (document : List ℕ) (f g : Fault)
        → IsFirstDocumentFault document f → IsFirstDocumentFault document g → f ≡ g }
    ensures apart { (document : List ℕ) (a : SchemaModel) (f : Fault)
        → StandsFor document a → IsFirstDocumentFault document f → ⊥ }
{}

/// A schema's types go by the names of the declared ones. The first of a name has the index of the first declared one.
pub fn names_as_declared()
    ensures { (document : List ℕ) (schema : SchemaModel) (stands : StandsFor document schema) (asked : List ℕ)
        → position (λ t. is_named t asked) schema.types ≡ position (λ t. goes_by t asked) (declared_types stands.json) }
{}

/// The bases of a declared type are a chain that ends within 64 types. No other list is its chain.
pub fn bases_end()
    ensures ends { (document : List ℕ) (schema : SchemaModel) (stands : StandsFor document schema)
        (n : ℕ) (t : DeclaredType) → slice_get (declared_types stands.json) n ≡ Some t
        → IsBaseChain (declared_types stands.json) t (bases_of (declared_types stands.json) t) }
    ensures short { (document : List ℕ) (schema : SchemaModel) (stands : StandsFor document schema)
        (n : ℕ) (t : DeclaredType) → slice_get (declared_types stands.json) n ≡ Some t
        → length (bases_of (declared_types stands.json) t) ≤ base_limit }
    ensures only { (types : List DeclaredType) (t : DeclaredType) (us vs : List DeclaredType)
        → IsBaseChain types t us → IsBaseChain types t vs → us ≡ vs }
{}

/// `BaseCycle` by a count. A type has as many bases as there are types exactly if no list is its chain.
pub fn cycles_have_no_chain()
    ensures cycle { (types : List DeclaredType) (n : ℕ) (t : DeclaredType) (bases : List DeclaredType)
        → slice_get types n ≡ Some t → length types ≤ length (bases_of types t) → IsBaseChain types t bases → ⊥ }
    ensures chain { (types : List DeclaredType) (t : DeclaredType)
        → length (bases_of types t) < length types → IsBaseChain types t (bases_of types t) }
{}

/// `PropertyTwice` of a chain that ends: the least name, in byte order, that two types of it have. Where no name is
/// reported there is none.
pub fn least_name_stands_twice()
    ensures least { (types : List DeclaredType) (n : ℕ) (t : DeclaredType) (bases : List DeclaredType) (name : List ℕ)
        → slice_get types n ≡ Some t → IsBaseChain types t bases → first_name (names_twice types t) ≡ Some name
        → IsOwnedTwice name (t ∷ bases)
        × ((other : List ℕ) → IsOwnedTwice other (t ∷ bases) → slice_cmp nat_cmp other name ≡ Less → ⊥) }
    ensures none { (types : List DeclaredType) (n : ℕ) (t : DeclaredType) (bases : List DeclaredType)
        → slice_get types n ≡ Some t → IsBaseChain types t bases → first_name (names_twice types t) ≡ None
        → (name : List ℕ) → IsOwnedTwice name (t ∷ bases) → ⊥ }
{}

/// A declared type's slots are the members of its chain, each once. Those that the types of the chain have themselves
/// are in the byte order of names. A name that no declared type has, has no slots.
pub fn slots_as_declared()
    ensures members { (document : List ℕ) (schema : SchemaModel) (stands : StandsFor document schema)
        (n : ℕ) (t : DeclaredType) (bases : List DeclaredType)
        → slice_get (declared_types stands.json) n ≡ Some t → IsBaseChain (declared_types stands.json) t bases
        → (slots_of schema).properties t.name ≡ chain_members (declared_types stands.json) t bases }
    ensures once { (document : List ℕ) (schema : SchemaModel) (stands : StandsFor document schema)
        (n : ℕ) (t : DeclaredType) → slice_get (declared_types stands.json) n ≡ Some t
        → HasDistinctNames ((slots_of schema).properties t.name) }
    ensures ordered { (document : List ℕ) (schema : SchemaModel) (stands : StandsFor document schema)
        (n : ℕ) (t : DeclaredType) → slice_get (declared_types stands.json) n ≡ Some t
        → IsInNameOrder (own_members (declared_types stands.json) t) }
    ensures none { (document : List ℕ) (schema : SchemaModel) (stands : StandsFor document schema)
        (asked : List ℕ) → AllByRecursion (λ t. t.name ≢ asked) (declared_types stands.json)
        → (slots_of schema).properties asked ≡ [] }
{
    declared_in_order();
}

/// A document of one entity type stands for its schema, and an array for none.
pub fn documents_by_example()
    ensures mini { StandsFor worked.mini_text worked.mini_schema }
    ensures array { IsFirstDocumentFault (codes "[]") not_object }
{}
