//! Laws of declarations, stated on functions that do nothing.
ghost use Rattle.std.specs.Prelude.{◌≡◌, ◌↔◌, ℕ, ℤ, List, Some, IsTrue};
ghost use Rattle.std.specs.List.{AllByRecursion};
ghost use Rattle.serde_json.specs.Data.{Data};
ghost use Rattle.serde_json.specs.Read.{read};
ghost use Rattle.edm_values.specs.declared.primitive.PrimitiveType.{PrimitiveType};
ghost use Rattle.edm_values.specs.NumberTypes.{IsNumberOf};
ghost use Rattle.csdl_declarations.specs.Members.{DeclaresInOrder, declared_in};
ghost use Rattle.csdl_declarations.specs.Declarations.{TypeDeclaration, AreByName, types_declared, types_in_order};
ghost use Rattle.csdl_declarations.specs.DeclaredType.{AreInOrder, declared_types};
ghost use Rattle.csdl_declarations.specs.EnumerationDeclaration.{is_number_of};

/// The types that are read are the declared ones by name, which are one list.
pub fn types_by_name()
    ensures are { (document : Data) → AreByName (types_declared document) (types_in_order document) }
    ensures only { (types a b : List TypeDeclaration) → AreByName types a → AreByName types b → a ≡ b }
{}

/// JSON that was read is in the order of names. That holds of namespaces, what each of them declares and the members of
/// each type, of the types that are declared, by their whole names, and of the own properties of each.
pub fn declared_in_order()
    ensures namespaces { (text : List ℕ) (json : Data) → read text ≡ Some json → DeclaresInOrder json }
    ensures schemas { (text : List ℕ) (json : Data) → read text ≡ Some json
        → AllByRecursion (λ m. DeclaresInOrder m.1) (declared_in json) }
    ensures members { (text : List ℕ) (json : Data) → read text ≡ Some json
        → AllByRecursion (λ t. DeclaresInOrder t.body) (types_declared json) }
    ensures types { (text : List ℕ) (json : Data) → read text ≡ Some json → AreInOrder (declared_types json) }
{}

/// The numbers that a member may have are those of the underlying type.
pub fn numbers_of_their_type()
    ensures { (type : PrimitiveType) (n : ℤ) → IsTrue (is_number_of type n) ↔ IsNumberOf type n }
{}
