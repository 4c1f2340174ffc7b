//! Whether a text that would be handed over holds U+0000, which neither engine takes.
ghost use Rattle.std.specs.Prelude.{◌≡◌, ◌↔◌, ◌<◌, IsTrue, Some, length, map, slice_get};
ghost use Rattle.std.specs.List.{AllByRecursion};
ghost use Rattle.sql_meaning.specs.ParameterGives.{HoldsNul};
ghost use Rattle.sql_tree.specs.TableModel.{storage_in};
ghost use Rattle.odata_sql.specs.Refusals.{HasNoNul, IsNulFree, names_of};

use edm_values::Value;
use odata_checked_filter::Checked;
use sql_tree::Storage;

/// Whether no literal of the filter and no name of a column holds it.
pub(crate) fn is_nul_free(checked: &Checked<'_>, storage: Storage<'_>) -> bool
    ensures { IsTrue result ↔ IsNulFree checked.now (storage_in storage.entry) }
{
    values_are_nul_free(checked.values()) && storage_is_nul_free(storage)
}

fn values_are_nul_free(values: &[Value]) -> bool
    ensures { IsTrue result ↔ AllByRecursion HasNoNul values.now }
{
    for value in values {
        if !value_is_nul_free(value) {
            return false;
        }
    }
    true
}

fn value_is_nul_free(value: &Value) -> bool
    ensures { IsTrue result ↔ HasNoNul value.now }
{
    match value {
        Value::Text(text) => text_is_nul_free(text.as_str()),
        _ => true,
    }
}

fn storage_is_nul_free(storage: Storage<'_>) -> bool
    ensures { IsTrue result ↔ AllByRecursion (λ name. ¬ HoldsNul name) (names_of (storage_in storage.entry)) }
{
    match storage {
        Storage::Columns(names) => names_are_nul_free(names),
        Storage::Document(name) => text_is_nul_free(name),
    }
}

fn names_are_nul_free(names: &[&str]) -> bool
    ensures { IsTrue result ↔ AllByRecursion (λ name. ¬ HoldsNul name) (map (λ name. name.now) names.now) }
{
    for at in 0..names.len() {
        if !text_is_nul_free(name_at(names, at)) {
            return false;
        }
    }
    true
}

fn name_at<'n>(names: &[&'n str], at: usize) -> &'n str
    requires { at < length names.now }
    ensures { slice_get names.now at ≡ Some result }
{
    names[at]
}

fn text_is_nul_free(text: &str) -> bool
    ensures { IsTrue result ↔ ¬ HoldsNul text.now }
{
    if text.contains('\0') {
        return false;
    }
    true
}
