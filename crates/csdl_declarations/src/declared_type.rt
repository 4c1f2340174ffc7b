use edm_enumerations::Enumeration;

/// A property as its type declares it (CSDL JSON 4.01, section 7). It has the name of its type as it is written. Of a
/// collection, `nullable` speaks of the items.
#[derive(Clone, Copy)]
pub struct PropertyDeclaration<'d> {
    pub name: &'d str,
    pub type_name: &'d str,
    pub navigates: bool,
    pub many: bool,
    pub nullable: bool,
}

/// The contents of a type declaration, with names of other types as they are written.
#[derive(Drop)]
pub enum TypeBody<'d> {
    /// An entity or complex type (sections 6 and 9), with its own properties in the byte order of names.
    Structured {
        is_entity: bool,
        base: Option<&'d str>,
        properties: Vec<PropertyDeclaration<'d>>,
    },
    /// An enumeration (section 10).
    Enumeration(Enumeration),
    /// Another name of a type (section 11).
    Definition {
        underlying: &'d str,
    },
}

/// A declared type with its names: by namespace, and by the alias of that, if it has one.
#[derive(Drop)]
pub struct DeclaredType<'d> {
    pub name: String,
    pub alias_name: Option<String>,
    pub body: TypeBody<'d>,
}
