ghost use Rattle.std.specs.Prelude.{◌≡◌};
ghost use Rattle.odata_queries.specs.Query.{is_filter_name, is_refused_name, is_refused_word, is_reserved};

/// Whether these bytes are the filter's name.
#[tactic(auto, unfolding(crate::specs::Query::is_filter_name))]
pub fn is_filter_in_bytes(name: &[u8]) -> bool
    ensures { result ≡ is_filter_name name.now }
{
    name.eq_ignore_ascii_case(b"filter") || name.eq_ignore_ascii_case(b"$filter")
}

/// Whether an option of this name is the filter.
pub fn is_filter_name(name: &str) -> bool
    ensures { result ≡ is_filter_name name.now }
{
    is_filter_in_bytes(name.as_bytes())
}

/// Whether these bytes are the name of another system query option, without its `$`.
#[tactic(auto, unfolding(crate::specs::Query::is_refused_word))]
fn is_refused_word(name: &[u8]) -> bool
    ensures { result ≡ is_refused_word name.now }
{
    name.eq_ignore_ascii_case(b"apply")
        || name.eq_ignore_ascii_case(b"compute")
        || name.eq_ignore_ascii_case(b"count")
        || name.eq_ignore_ascii_case(b"expand")
        || name.eq_ignore_ascii_case(b"format")
        || name.eq_ignore_ascii_case(b"orderby")
        || name.eq_ignore_ascii_case(b"schemaversion")
        || name.eq_ignore_ascii_case(b"search")
        || name.eq_ignore_ascii_case(b"select")
        || name.eq_ignore_ascii_case(b"skip")
        || name.eq_ignore_ascii_case(b"top")
}

/// Whether the name begins with `$` or `@`.
fn is_reserved(name: &[u8]) -> bool
    ensures { result ≡ is_reserved name.now }
{
    match name.first() {
        Some(first) => *first == b'$' || *first == b'@',
        None => false,
    }
}

/// Whether these bytes are the name of neither the filter nor a custom option.
pub fn is_refused_in_bytes(name: &[u8]) -> bool
    ensures { result ≡ is_refused_name name.now }
{
    !is_filter_in_bytes(name) && (is_reserved(name) || is_refused_word(name))
}

/// Whether an option of this name is neither the filter nor a custom option.
pub fn is_refused_name(name: &str) -> bool
    ensures { result ≡ is_refused_name name.now }
{
    is_refused_in_bytes(name.as_bytes())
}
