//! The names of the standard's types (CSDL JSON 4.01, sections 3.3 and 4).

/// After `Edm.`: the primitive types, the abstract ones, and those of paths.
const AFTER_EDM: &[&str] = &[
    "Binary",
    "Boolean",
    "Byte",
    "Date",
    "DateTimeOffset",
    "Decimal",
    "Double",
    "Duration",
    "Guid",
    "Int16",
    "Int32",
    "Int64",
    "SByte",
    "Single",
    "Stream",
    "String",
    "TimeOfDay",
    "Geography",
    "GeographyPoint",
    "GeographyLineString",
    "GeographyPolygon",
    "GeographyMultiPoint",
    "GeographyMultiLineString",
    "GeographyMultiPolygon",
    "GeographyCollection",
    "Geometry",
    "GeometryPoint",
    "GeometryLineString",
    "GeometryPolygon",
    "GeometryMultiPoint",
    "GeometryMultiLineString",
    "GeometryMultiPolygon",
    "GeometryCollection",
    "PrimitiveType",
    "ComplexType",
    "EntityType",
    "Untyped",
    "AnnotationPath",
    "AnyPropertyPath",
    "ModelElementPath",
    "NavigationPropertyPath",
    "PropertyPath",
];

/// Whether that is the name of one of the standard's types.
pub fn is_standard_type(name: &str) -> bool {
    match name.strip_prefix("Edm.") {
        Some(last) => AFTER_EDM.iter().any(|other| *other == last),
        None => false,
    }
}

/// The name after `Edm.` of the standard's type that has the same last name, case apart.
pub fn standard_type_like(last: &str) -> Option<&'static str> {
    let found = AFTER_EDM
        .iter()
        .find(|other| other.eq_ignore_ascii_case(last))?;
    Some(*found)
}
